// The mirror of recipes and sheets: low for high and high for low.
ghost use Rattle.std.specs.Prelude.{◌≡◌};
ghost use Rattle.recipe.specs.Mirrors.{opposite_kind, mirror as mirrored, Mirrored, mirror_sheet};

use crate::entry::{Marks, Sheet};
use crate::kind::Kind;

// The kind of the dual step; a byte that is no kind, and a step that is its own dual, stay.
pub fn opposite(kind: u8) -> u8
    ensures { result ≡ opposite_kind kind }
{
    match Kind::try_from(kind) {
        Ok(kind) => u8::from(kind.mirrored()),
        Err(_) => kind,
    }
}

// Mirrors a recipe in place: the kind of each whole record is exchanged, and no other byte changes.
pub fn mirror(bytes: &mut [u8])
    ensures is { bytes.new ≡ mirrored bytes.old }
    ensures means { Mirrored bytes.old bytes.new }
{
    for i in 0..bytes.len() / 8 {
        bytes[8 * i] = opposite(bytes[8 * i]);
    }
}

impl Sheet {
    // The sheet of the mirrored recipe: B and D exchanged.
    pub fn mirrored(self) -> Sheet
        ensures { result ≡ mirror_sheet self }
    {
        Sheet {
            planes: self.planes,
            reach: self.reach,
            marks: Marks {
                below: self.marks.above,
                above: self.marks.below,
                keeps: self.marks.keeps,
                turns: self.marks.turns,
                settles: self.marks.settles,
                within: self.marks.within,
            },
        }
    }
}

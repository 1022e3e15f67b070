// The table of the planes on the stack, from the bottom up.
ghost use Rattle.std.specs.Prelude.{◌≡◌, ◌≤◌, length};

use crate::entry::Entry;

// The entries of at most four planes, and the greatest depth so far.
#[derive(Clone, Copy)]
pub struct Table {
    pub entries: [Entry; 4],
    pub depth: usize,
    pub planes: usize,
    ghost long: { length entries ≡ 4 },
    ghost low: { depth ≤ 4 },
}

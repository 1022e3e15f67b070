// A recipe that is admitted.
ghost use Rattle.std.specs.Prelude.{◌≡◌, ◌≤◌, true, length, take};
ghost use Rattle.recipe.specs.Depths.{runs};

use crate::entry::Sheet;
use crate::step::Step;

// The steps, for ranked levels or for any, and the sheet. They run in the sheet's planes and leave one.
#[derive(Clone, Copy)]
pub struct Plan {
    pub steps: [Step; 64],
    pub count: usize,
    pub ranked: bool,
    pub sheet: Sheet,
    ghost long: { length steps ≡ 64 },
    ghost some: { 1 ≤ count },
    ghost few: { count ≤ 64 },
    ghost low: { sheet.planes ≤ 4 },
    ghost sound: { runs ranked sheet.planes 0 (take count steps) ≡ true },
}

impl Plan {
    // The recipe's steps in their order, without what is left of the array past them.
    pub fn steps(&self) -> &[Step]
        ensures { result.now ≡ take self.now.count self.now.steps }
    {
        &self.steps[..self.count]
    }
}

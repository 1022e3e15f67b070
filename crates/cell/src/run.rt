// A run of a recipe on the laid frame.
ghost use Rattle.std.specs.Prelude.{◌≡◌, ◌≤◌, true, take, drop};
ghost use Rattle.recipe.specs.Depths.{runs};

use recipe::plan::Plan;
use recipe::step::Step;

// How many records are done, and how many planes stand. The records that are left can run.
#[derive(Clone, Copy)]
pub struct Run {
    pub plan: Plan,
    pub done: usize,
    pub depth: usize,
    ghost within: { done ≤ plan.count },
    ghost low: { depth ≤ plan.sheet.planes },
    ghost sound: { runs plan.ranked plan.sheet.planes depth (drop done (take plan.count plan.steps)) ≡ true },
}

impl Run {
    ghost use Rattle.std.specs.Prelude.{◌≡◌, ◌+◌, ◌<◌, slice_index_or};
    ghost use Rattle.recipe.specs.Depths.{deeper};
    ghost use Rattle.recipe.specs.Steps.{form};
    ghost use Rattle.recipe.specs.declared.step.Step.TheVariants.{Frame};

    // The run of a plan with no record done.
    pub(crate) fn start(plan: Plan) -> Run
        ensures plan { result.plan ≡ plan }
        ensures done { result.done ≡ 0 }
        ensures depth { result.depth ≡ 0 }
    {
        Run {
            plan,
            done: 0,
            depth: 0,
        }
    }

    // The next record's step.
    pub(crate) fn step(self) -> Step
        requires { self.done < self.plan.count }
        ensures { result ≡ slice_index_or self.plan.steps self.done Frame }
    {
        self.plan.steps[self.done]
    }

    // How many planes stand once the next record is done too.
    fn deepened(self) -> usize
        requires { self.done < self.plan.count }
        ensures { result ≡ deeper (form (slice_index_or self.plan.steps self.done Frame)) self.depth }
    {
        match self.step() {
            Step::Frame => self.depth + 1,
            Step::Meet | Step::Join | Step::MeanLow | Step::MeanHigh => {
                self.depth.saturating_sub(1)
            }
            _ => self.depth,
        }
    }

    // The run when the next record is done too.
    pub(crate) fn advanced(self) -> Run
        requires { self.done < self.plan.count }
        ensures plan { result.plan ≡ self.plan }
        ensures done { result.done ≡ self.done + 1 }
        ensures depth { result.depth ≡ deeper (form (slice_index_or self.plan.steps self.done Frame)) self.depth }
    {
        Run {
            plan: self.plan,
            done: self.done + 1,
            depth: self.deepened(),
        }
    }
}

// One step of a recipe on the planes of a block.
ghost use Rattle.std.specs.Prelude.{length};
ghost use Rattle.recipe.specs.Steps.{form};
ghost use Rattle.steps.specs.Planes.{size_of};
ghost use Rattle.steps.specs.Stacks.{Ready, Applied};

use crate::extent::Extent;
use crate::morphology::{filter, fold};
use crate::planes::{average_planes, bound_planes, copy, negate};
use crate::select::select;
use crate::way::{Joins, Meets};
use level::Level;
use level::side::Side;
use recipe::step::Step;
use rule::Rule;

// Does one step on a block that holds the frame's plane, then `planes` planes for the stack, then a scratch plane;
// `depth` of the stack's planes are in use.
pub fn apply_step<L: Level, R: Rule>(
    block: &mut [L],
    extent: Extent,
    planes: usize,
    depth: usize,
    step: Step,
)
    requires { Ready L.Level.kind (size_of extent) (form step) planes depth (length block.old) }
    ensures { Applied L.Level.kind L.Level.meaning R.Rule.criterion (size_of extent) (form step) planes depth block.old block.new }
{
    let n = extent.places();
    let top = depth * n;
    let below = top.saturating_sub(n);
    let scratch = (planes + 1) * n;
    match step {
        Step::Frame => copy(block, 0, top + n, n),
        Step::Negate => negate(block, top, extent),
        Step::Erode(element) => fold::<L, Meets>(block, top, scratch, extent, element),
        Step::Dilate(element) => fold::<L, Joins>(block, top, scratch, extent, element),
        Step::Open(element) => filter::<L, Meets>(block, top, scratch, extent, element),
        Step::Close(element) => filter::<L, Joins>(block, top, scratch, extent, element),
        Step::Meet => bound_planes::<L, Meets>(block, below, top, extent),
        Step::Join => bound_planes::<L, Joins>(block, below, top, extent),
        Step::MeanLow => average_planes(block, below, top, extent, Side::Low),
        Step::MeanHigh => average_planes(block, below, top, extent, Side::High),
        Step::SelectLow(element) => select::<L, R>(block, top, scratch, extent, element, Side::Low),
        Step::SelectHigh(element) => {
            select::<L, R>(block, top, scratch, extent, element, Side::High)
        }
    }
}

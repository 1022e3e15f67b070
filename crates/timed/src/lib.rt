// Erosion and selecting of one grey frame of 256 × 256, to be timed from C: bench/README.md says how.
#![tactic(auto)]

ghost use Rattle.std.specs.Prelude.{true, false, ◌≡◌, ◌≤◌, ◌<◌, ◌*◌, length};
ghost use Rattle.level.specs.declared.side.Side.TheVariants.{Low};
ghost use Rattle.level.specs.Delivered.{greys, grey};
ghost use Rattle.recipe.specs.Elements.{bits, is_element};
ghost use Rattle.rule.specs.Variance.{least_variance};
ghost use Rattle.steps.specs.Images.{folded};
ghost use Rattle.steps.specs.Selections.{selected};
ghost use Rattle.steps.specs.Planes.{Made, Changed, places};
ghost use Rattle.timed.specs.Frames.{frame};

use level::side::Side;
use recipe::element::Element;
use rule::LeastVariance;
use steps::extent::Extent;
use steps::fold::fold_plane;
use steps::select::select;
use steps::way::Meets;

const FRAME: Extent = Extent {
    width: 256,
    height: 256,
};

// How many levels the frame has.
const PLANE: usize = FRAME.width * FRAME.height;

// Erodes the first plane of the block into the second, by the element of a mask. A block too short, or a mask of no element, is left alone.
#[unsafe(no_mangle)]
pub extern "C" fn erode_frame(block: &mut [u8], mask: u32)
    ensures made { 2 * places frame ≤ length block.old → is_element mask ≡ true → Made greys grey frame (folded greys frame Low (bits mask)) 0 (places frame) block.old block.new }
    ensures short { length block.old < 2 * places frame → block.new ≡ block.old }
    ensures empty { is_element mask ≡ false → block.new ≡ block.old }
{
    if block.len() < 2 * PLANE {
        return;
    }
    if let Some(element) = Element::new(mask) {
        fold_plane::<u8, Meets>(block, 0, PLANE, FRAME, element);
    }
}

// Selects by least variance in the first plane of the block, through the second, by the element of a mask. A block too short, or a mask of no element, is left alone.
#[unsafe(no_mangle)]
pub extern "C" fn select_frame(block: &mut [u8], mask: u32)
    ensures made { 2 * places frame ≤ length block.old → is_element mask ≡ true → Changed greys grey frame (selected greys frame least_variance Low (bits mask)) 0 (places frame) block.old block.new }
    ensures short { length block.old < 2 * places frame → block.new ≡ block.old }
    ensures empty { is_element mask ≡ false → block.new ≡ block.old }
{
    if block.len() < 2 * PLANE {
        return;
    }
    if let Some(element) = Element::new(mask) {
        select::<u8, LeastVariance>(block, 0, PLANE, FRAME, element, Side::Low);
    }
}

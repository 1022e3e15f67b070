//! The stage as one call, for a controller written in C: a recipe is checked and run on one frame.
#![tactic(auto)]

pub mod promises;
mod run;
pub mod sheet;

ghost use Rattle.std.specs.Prelude.{length};
ghost use Rattle.level.specs.Delivered.{greys, grey, heights, height as height_level};
ghost use Rattle.rule.specs.Range.{least_range};
ghost use Rattle.rule.specs.Variance.{least_variance};
ghost use Rattle.cell.specs.Histories.{setting};
ghost use Rattle.controller.specs.Runs.{Ran};

use crate::run::smoothed;
use cell::setup::Of;
use rule::{LeastRange, LeastVariance};

/// Runs a recipe on a grey frame, selecting by least variance.
#[unsafe(no_mangle)]
pub extern "C" fn recipe_stage_grey_variance(
    recipe: &[u8],
    width: usize,
    height: usize,
    frame: &[u8],
    block: &mut [u8],
    out: &mut [u8],
) -> u32
    ensures { Ran greys grey least_variance (setting width height (length block.old)) recipe.now frame.now block.old block.new out.old out.new result }
{
    smoothed::<Of<u8, LeastVariance>>(recipe, width, height, frame, block, out)
}

/// Runs a recipe on a grey frame, selecting by least range.
#[unsafe(no_mangle)]
pub extern "C" fn recipe_stage_grey_range(
    recipe: &[u8],
    width: usize,
    height: usize,
    frame: &[u8],
    block: &mut [u8],
    out: &mut [u8],
) -> u32
    ensures { Ran greys grey least_range (setting width height (length block.old)) recipe.now frame.now block.old block.new out.old out.new result }
{
    smoothed::<Of<u8, LeastRange>>(recipe, width, height, frame, block, out)
}

/// Runs a recipe on a frame of heights, selecting by least variance.
#[unsafe(no_mangle)]
pub extern "C" fn recipe_stage_height_variance(
    recipe: &[u8],
    width: usize,
    height: usize,
    frame: &[i16],
    block: &mut [i16],
    out: &mut [i16],
) -> u32
    ensures { Ran heights height_level least_variance (setting width height (length block.old)) recipe.now frame.now block.old block.new out.old out.new result }
{
    smoothed::<Of<i16, LeastVariance>>(recipe, width, height, frame, block, out)
}

/// Runs a recipe on a frame of heights, selecting by least range.
#[unsafe(no_mangle)]
pub extern "C" fn recipe_stage_height_range(
    recipe: &[u8],
    width: usize,
    height: usize,
    frame: &[i16],
    block: &mut [i16],
    out: &mut [i16],
) -> u32
    ensures { Ran heights height_level least_range (setting width height (length block.old)) recipe.now frame.now block.old block.new out.old out.new result }
{
    smoothed::<Of<i16, LeastRange>>(recipe, width, height, frame, block, out)
}

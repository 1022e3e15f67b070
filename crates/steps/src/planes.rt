// Work on planes level by level: each level written comes from the levels at the same place.
ghost use Rattle.std.specs.Prelude.{◌≡◌, ◌+◌, ◌≤◌, true, length};
ghost use Rattle.steps.specs.Images.{negative};
ghost use Rattle.steps.specs.Recipes.{merged, mean};
ghost use Rattle.recipe.specs.Steps.{bounding, averaging};
ghost use Rattle.steps.specs.Planes.{size_of, places, Apart, Copied, Made, Merged};
ghost use Rattle.steps.specs.Written.{Filled, MergedBy};

use crate::extent::Extent;
use crate::way::Way;
use level::Level;
use level::side::Side;

// Copies n levels.
pub fn copy<L: Level>(block: &mut [L], from: usize, to: usize, n: usize)
    requires { Apart (length block.old) from n to n }
    ensures { Copied from to n block.old block.new }
{
    // By index: `copy_within` would have the archives for C want `memmove` from outside.
    for i in 0..n {
        block[to + i] = block[from + i];
    }
}

// Writes one level n times.
pub(crate) fn fill<L: Level>(block: &mut [L], at: usize, n: usize, level: L)
    requires { at + n ≤ length block.old }
    ensures { Filled level at n block.old block.new }
{
    for place in &mut block[at..at + n] {
        *place = level;
    }
}

// Negates each level of a plane.
pub fn negate<L: Level>(block: &mut [L], at: usize, extent: Extent)
    requires { at + places (size_of extent) ≤ length block.old }
    ensures { Made L.Level.kind L.Level.meaning (size_of extent) (negative L.Level.kind) at at block.old block.new }
{
    for level in &mut block[at..at + extent.places()] {
        *level = level.negation();
    }
}

// Makes one level of the two at each place of two planes, into the lower one.
fn merge_planes<L: Level, F: Fn(L, L) -> L>(
    block: &mut [L],
    lower: usize,
    upper: usize,
    extent: Extent,
    both: F,
)
    requires callable { F.IsAlwaysCallable both }
    requires planes { Apart (length block.old) lower (places (size_of extent)) upper (places (size_of extent)) }
    ensures { MergedBy (F.post both) lower upper (places (size_of extent)) block.old block.new }
{
    for i in 0..extent.places() {
        block[lower + i] = both(block[lower + i], block[upper + i]);
    }
}

// Meets or joins the levels of two planes into the lower one.
pub fn bound_planes<L: Level, W: Way>(block: &mut [L], lower: usize, upper: usize, extent: Extent)
    requires { Apart (length block.old) lower (places (size_of extent)) upper (places (size_of extent)) }
    ensures { Merged L.Level.kind L.Level.meaning (size_of extent) (merged L.Level.kind (bounding W.Way.side)) lower upper block.old block.new }
{
    merge_planes(block, lower, upper, extent, |a, b| W::both(a, b));
}

// The means of the levels of two planes, into the lower one.
pub fn average_planes<L: Level>(
    block: &mut [L],
    lower: usize,
    upper: usize,
    extent: Extent,
    side: Side,
)
    requires ranked { L.Level.kind.ranked ≡ true }
    requires planes { Apart (length block.old) lower (places (size_of extent)) upper (places (size_of extent)) }
    ensures { Merged L.Level.kind L.Level.meaning (size_of extent) (merged L.Level.kind (averaging side)) lower upper block.old block.new }
{
    merge_planes(block, lower, upper, extent, |a, b| mean_level(a, b, side));
}

// The level at the mean of two ranks, a half going down or up.
fn mean_level<L: Level>(a: L, b: L, side: Side) -> L
    requires { L.Level.kind.ranked ≡ true }
    ensures { L.Level.meaning result ≡ mean L.Level.kind side (L.Level.meaning a) (L.Level.meaning b) }
{
    let up = match side {
        Side::Low => 0,
        Side::High => 1,
    };
    L::at(((u32::from(a.rank()) + u32::from(b.rank()) + up) / 2) as u16)
}

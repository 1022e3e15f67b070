// Erosion and dilation: one fold, row by row, so that the inner loop runs over levels side by side.
ghost use Rattle.std.specs.Prelude.{◌≡◌, ℕ, ◌+◌, ◌*◌, ◌<◌, ◌≤◌, length};
ghost use Rattle.recipe.specs.Elements.{offsets};
ghost use Rattle.steps.specs.Images.{among, folded};
ghost use Rattle.steps.specs.Planes.{size_of, places, Apart, Made};
ghost use Rattle.steps.specs.Written.{Bounded, RowFolded};

use crate::extent::Extent;
use crate::planes::fill;
use crate::way::Way;
use level::Level;
use recipe::element::Element;

// Whether a column or row, counted from two before the first, is one of the n that there are.
pub(crate) fn is_among(n: usize, x: usize) -> bool
    requires { n ≤ 256 }
    ensures { result ≡ among n x }
{
    (2 <= x) & (x < n + 2)
}

// Bounds the row at `from`, moved by i - 2 columns, into the row at `to`.
fn bound_row<L: Level, W: Way>(block: &mut [L], from: usize, to: usize, width: usize, i: usize)
    requires step { i < 5 }
    requires narrow { width ≤ 256 }
    requires rows { Apart (length block.old) from width to width }
    ensures { Bounded L.Level.kind L.Level.meaning W.Way.side width i from to block.old block.new }
{
    let first = 2usize.saturating_sub(i);
    let last = (width + 2).saturating_sub(i).min(width);
    for x in first..last {
        block[to + x] = W::both(block[to + x], block[from + (x + i - 2)]);
    }
}

// Row `row` of the fold of the plane at `from`, into the row at `to`.
fn fold_row<L: Level, W: Way>(
    block: &mut [L],
    from: usize,
    to: usize,
    extent: Extent,
    row: usize,
    element: Element,
)
    requires inside { row < extent.height }
    requires apart { Apart (length block.old) from (places (size_of extent)) to extent.width }
    ensures { RowFolded L.Level.kind L.Level.meaning W.Way.side (size_of extent) (offsets element) row from to block.old block.new }
{
    let width = extent.width;
    let height = extent.height;
    fill(block, to, width, W::start());
    for b in 0..25usize {
        if element.has(b) & is_among(height, row + b / 5) {
            bound_row::<L, W>(block, from + (row + b / 5 - 2) * width, to, width, b % 5);
        }
    }
}

// The fold of the plane at `from`, into the plane at `to`: erosion by meets, dilation by joins.
pub fn fold_plane<L: Level, W: Way>(
    block: &mut [L],
    from: usize,
    to: usize,
    extent: Extent,
    element: Element,
)
    requires { Apart (length block.old) from (places (size_of extent)) to (places (size_of extent)) }
    ensures { Made L.Level.kind L.Level.meaning (size_of extent) (folded L.Level.kind (size_of extent) W.Way.side (offsets element)) from to block.old block.new }
{
    for row in 0..extent.height {
        fold_row::<L, W>(block, from, to + row * extent.width, extent, row, element);
    }
}

// Erosion, dilation, opening and closing of a plane in place, through a scratch plane.
ghost use Rattle.std.specs.Prelude.{length};
ghost use Rattle.recipe.specs.Elements.{offsets};
ghost use Rattle.steps.specs.Images.{folded, filtered};
ghost use Rattle.steps.specs.Planes.{size_of, places, Apart, Changed};

use crate::extent::Extent;
use crate::fold::fold_plane;
use crate::planes::copy;
use crate::way::{TwoWay, Way};
use level::Level;
use recipe::element::Element;

// Each place becomes the bound of the levels that the element leads to inside: erosion by meets, dilation by joins.
pub fn fold<L: Level, W: Way>(
    block: &mut [L],
    at: usize,
    scratch: usize,
    extent: Extent,
    element: Element,
)
    requires { Apart (length block.old) at (places (size_of extent)) scratch (places (size_of extent)) }
    ensures { Changed L.Level.kind L.Level.meaning (size_of extent) (folded L.Level.kind (size_of extent) W.Way.side (offsets element)) at scratch block.old block.new }
{
    fold_plane::<L, W>(block, at, scratch, extent, element);
    copy(block, scratch, at, extent.places());
}

// Folds by the element turned, then by the element the way back: opening by meets first, closing by joins first.
pub fn filter<L: Level, W: TwoWay>(
    block: &mut [L],
    at: usize,
    scratch: usize,
    extent: Extent,
    element: Element,
)
    requires { Apart (length block.old) at (places (size_of extent)) scratch (places (size_of extent)) }
    ensures { Changed L.Level.kind L.Level.meaning (size_of extent) (filtered L.Level.kind (size_of extent) W.Way.side (offsets element)) at scratch block.old block.new }
{
    let turned = element.turned();
    fold_plane::<L, W>(block, at, scratch, extent, turned);
    fold_plane::<L, W::Back>(block, scratch, at, extent, element);
}

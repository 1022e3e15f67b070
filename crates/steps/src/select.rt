// Selecting: each place takes the value of the best window around it.
ghost use Rattle.std.specs.Prelude.{◌≡◌, ℕ, ◌+◌, ◌<◌, ◌≤◌, true, length};
ghost use Rattle.recipe.specs.Elements.{offsets, turned as turning};
ghost use Rattle.rule.specs.Views.{Gathered};
ghost use Rattle.steps.specs.Images.{Image};
ghost use Rattle.steps.specs.Selections.{ranks_seen, selected};
ghost use Rattle.steps.specs.Places.{place_of};
ghost use Rattle.steps.specs.Planes.{size_of, places, Holds, Apart, Made, Changed};

use crate::extent::Extent;
use crate::place::Place;
use crate::planes::copy;
use level::Level;
use level::side::Side;
use recipe::element::Element;
use rule::Rule;
use rule::gather::gathered;
use rule::select::{better, settled};
use rule::window::Window;

// The plane's level at a place.
fn level_at<L: Level>(block: &[L], at: usize, place: Place) -> L
    requires { at + places (size_of place.extent) ≤ length block.now }
    ensures { (f : Image L.Level.kind) → Holds L.Level.kind L.Level.meaning (size_of place.extent) block.now at f → L.Level.meaning result ≡ f (place_of place) }
{
    block[at + place.index()]
}

// The window of the ranks that the element leads to inside from a place.
fn window_at<L: Level>(block: &[L], at: usize, element: Element, place: Place) -> Option<Window>
    requires ranked { L.Level.kind.ranked ≡ true }
    requires plane { at + places (size_of place.extent) ≤ length block.now }
    ensures { (f : Image L.Level.kind) → Holds L.Level.kind L.Level.meaning (size_of place.extent) block.now at f → Gathered result (ranks_seen L.Level.kind (size_of place.extent) (offsets element) f (place_of place)) }
{
    let mut window: Option<Window> = None;
    for b in 0..25usize {
        if let Some(seen) = place.seen(element, b) {
            window = Some(gathered(window, level_at(block, at, seen).rank()));
        }
    }
    window
}

// What the plane's level at a place becomes.
fn selected_at<L: Level, R: Rule>(
    block: &[L],
    at: usize,
    element: Element,
    turned: Element,
    side: Side,
    place: Place,
) -> L
    requires ranked { L.Level.kind.ranked ≡ true }
    requires plane { at + places (size_of place.extent) ≤ length block.now }
    requires turned { (b : ℕ) → b < 25 → offsets turned b ≡ turning (offsets element) b }
    ensures { (f : Image L.Level.kind) → Holds L.Level.kind L.Level.meaning (size_of place.extent) block.now at f → L.Level.meaning result ≡ selected L.Level.kind (size_of place.extent) R.Rule.criterion side (offsets element) f (place_of place) }
{
    let rank = level_at(block, at, place).rank();
    let mut best: Option<Window> = None;
    for b in 0..25usize {
        if let Some(centre) = place.seen(element, b) {
            if let Some(window) = window_at(block, at, turned, centre) {
                best = Some(better::<R>(rank, side, best, window));
            }
        }
    }
    L::at(settled::<R>(rank, side, best))
}

// What selecting makes of the plane at `from`, into the plane at `to`.
fn select_plane<L: Level, R: Rule>(
    block: &mut [L],
    from: usize,
    to: usize,
    extent: Extent,
    element: Element,
    side: Side,
)
    requires ranked { L.Level.kind.ranked ≡ true }
    requires planes { Apart (length block.old) from (places (size_of extent)) to (places (size_of extent)) }
    ensures { Made L.Level.kind L.Level.meaning (size_of extent) (selected L.Level.kind (size_of extent) R.Rule.criterion side (offsets element)) from to block.old block.new }
{
    let turned = element.turned();
    for i in 0..extent.places() {
        let place = Place::at(extent, i);
        block[to + i] = selected_at::<L, R>(block, from, element, turned, side, place);
    }
}

// Each place becomes the level at the rank that the rule selects.
pub fn select<L: Level, R: Rule>(
    block: &mut [L],
    at: usize,
    scratch: usize,
    extent: Extent,
    element: Element,
    side: Side,
)
    requires ranked { L.Level.kind.ranked ≡ true }
    requires planes { Apart (length block.old) at (places (size_of extent)) scratch (places (size_of extent)) }
    ensures { Changed L.Level.kind L.Level.meaning (size_of extent) (selected L.Level.kind (size_of extent) R.Rule.criterion side (offsets element)) at scratch block.old block.new }
{
    select_plane::<L, R>(block, at, scratch, extent, element, side);
    copy(block, scratch, at, extent.places());
}

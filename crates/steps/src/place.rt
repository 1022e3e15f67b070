// One place of an image.
ghost use Rattle.std.specs.Prelude.{◌<◌};

use crate::extent::Extent;
use crate::fold::is_among;
use recipe::element::Element;

// A column and a row of an image of this extent.
#[derive(Clone, Copy)]
pub(crate) struct Place {
    pub extent: Extent,
    pub column: usize,
    pub row: usize,
    ghost left: { column < extent.width },
    ghost above: { row < extent.height },
}

impl Place {
    ghost use Rattle.std.specs.Prelude.{◌≡◌, ◌/◌, ◌%◌, ◌<◌, ◌&&◌, true, false, MatchOption};
    ghost use Rattle.recipe.specs.Elements.{offsets};
    ghost use Rattle.steps.specs.Images.{lands, moved};
    ghost use Rattle.steps.specs.Planes.{size_of, places, index};
    ghost use Rattle.steps.specs.Places.{place_of};

    // The place whose level stands at index i of a plane.
    pub fn at(extent: Extent, i: usize) -> Place
        requires { i < places (size_of extent) }
        ensures extent { size_of result.extent ≡ size_of extent }
        ensures place { place_of result ≡ record { column = i % extent.width; row = i / extent.width } }
    {
        Place {
            extent,
            column: i % extent.width,
            row: i / extent.width,
        }
    }

    // Where its level stands in a plane.
    pub fn index(self) -> usize
        ensures value { result ≡ index (size_of self.extent) (place_of self) }
        ensures inside { result < places (size_of self.extent) }
    {
        self.row * self.extent.width + self.column
    }

    // The place to which offset b of the element leads, if the element has it and it leads inside.
    pub fn seen(self, element: Element, b: usize) -> Option<Place>
        requires { b < 25 }
        ensures { MatchOption result ((offsets element b && lands (size_of self.extent) (place_of self) b) ≡ false) (λ p. ((offsets element b && lands (size_of self.extent) (place_of self) b) ≡ true) × (size_of p.extent ≡ size_of self.extent) × (place_of p ≡ moved (place_of self) b)) }
    {
        // First what most offsets fail: this runs for every look of a selection.
        if !element.has(b) {
            return None;
        }
        let column = self.column + b % 5;
        let row = self.row + b / 5;
        if is_among(self.extent.width, column) & is_among(self.extent.height, row) {
            Some(Place {
                extent: self.extent,
                column: column - 2,
                row: row - 2,
            })
        } else {
            None
        }
    }
}

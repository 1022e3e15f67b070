// Structuring elements of 5 × 5 offsets.
ghost use Rattle.std.specs.Prelude.{◌≡◌, ℕ, ◌-◌, ◌^◌, ◌<◌, ◌≤◌, false, if◌then◌else◌, Some, None};
ghost use Rattle.recipe.specs.Elements.{offsets, is_element, centred, turned as turning, radius as greatest, distance as apart, GreatestDistance};

// Bit b marks the offset that leads b % 5 - 2 columns to the right and b / 5 - 2 rows down; bit 12 is the centre.
#[derive(Clone, Copy, PartialEq, Eq)]
pub struct Element {
    bits: u32,
}

impl Element {
    // The element of a mask; none where the mask is empty or has bits above 24.
    pub fn new(bits: u32) -> Option<Element>
        ensures { result ≡ (if is_element bits then Some (record { bits = bits }) else None) }
    {
        if bits > 0 && bits < 1 << 25 {
            Some(Element { bits })
        } else {
            None
        }
    }

    // Whether offset b is in the element.
    pub fn has(self, b: usize) -> bool
        ensures { ((b < 25 → result ≡ offsets self b)) × ((25 ≤ b → result ≡ false)) }
    {
        b < 25 && (self.bits >> b) % 2 == 1
    }

    // Whether the centre is in the element.
    pub fn has_centre(self) -> bool
        ensures { result ≡ centred (offsets self) }
    {
        self.has(12)
    }

    // The greatest number of columns or rows that an offset leads away.
    pub fn radius(self) -> u8
        ensures value { result ≡ greatest (offsets self) }
        ensures means { GreatestDistance (offsets self) result }
        ensures small { result ≤ 2 }
    {
        let mut radius: u8 = 0;
        for b in 0..25usize {
            if self.has(b) {
                radius = radius.max(distance(b));
            }
        }
        radius
    }

    // The element with every offset negated.
    pub fn turned(self) -> Element
        ensures offsets { (b : ℕ) → b < 25 → offsets result b ≡ turning (offsets self) b }
        ensures narrow { result.bits < 2 ^ 25 }
    {
        Element {
            bits: self.bits.reverse_bits() >> 7,
        }
    }
}

// How many columns or rows offset b leads away, whichever is more.
fn distance(b: usize) -> u8
    requires { b < 25 }
    ensures value { result ≡ apart b }
    ensures small { result ≤ 2 }
{
    let column = (b % 5) as u8;
    let row = (b / 5) as u8;
    column.abs_diff(2).max(row.abs_diff(2))
}

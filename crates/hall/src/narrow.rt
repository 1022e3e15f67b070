//! A selecting rule: least range first, then fewest ranks.
ghost use Rattle.hall.specs.Narrow.{narrow_then_few};

use rule::Rule;
use rule::window::{Ratio, Window};

/// The smaller range is better, of equal ranges the smaller count; the value is the middle of lowest and highest rank.
pub struct NarrowThenFew;

impl Rule for NarrowThenFew {
    ghost criterion = { narrow_then_few };

    fn at_least_as_good(a: Window, b: Window) -> bool {
        let (first, second) = (a.range(), b.range());
        first < second || (first == second && a.count <= b.count)
    }

    fn value(w: Window) -> Ratio {
        w.middle()
    }
}

//! A selecting rule with every law its own: the window of more ranks is better.
ghost use Rattle.hall.specs.Most.{most_ranks};

use rule::Rule;
use rule::window::{Ratio, Window};

/// The window of more ranks is better, and the value is the middle of the lowest and the highest rank.
pub struct MostRanks;

impl Rule for MostRanks {
    ghost criterion = { most_ranks };

    fn at_least_as_good(a: Window, b: Window) -> bool {
        b.count <= a.count
    }

    fn value(w: Window) -> Ratio {
        w.middle()
    }
}

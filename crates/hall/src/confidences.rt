//! How far a height can be trusted: an unranked kind of two flags.
use level::{Coded, Pair};

/// What speaks for a height: its edge is sharp, its place is lit. Neither is worth more than the other.
#[derive(Clone, Copy)]
pub struct Confidence {
    pub sharp: bool,
    pub lit: bool,
}

impl Coded for Confidence {
    type Code = Pair<bool, bool>;

    ghost coded = { λ c. record { first = c.sharp; second = c.lit } };

    fn code(self) -> Pair<bool, bool> {
        Pair {
            first: self.sharp,
            second: self.lit,
        }
    }

    fn of(level: Pair<bool, bool>) -> Confidence {
        Confidence {
            sharp: level.first,
            lit: level.second,
        }
    }
}

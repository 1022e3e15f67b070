//! Depths of a 12-bit sensor: a ranked kind.
use level::{Chain, Coded};

/// Steps away from the sensor, 0 to 4095; a reading past that means 4095.
#[derive(Clone, Copy)]
pub struct Depth {
    pub steps: u16,
}

impl Coded for Depth {
    type Code = Chain<4095>;

    ghost coded = { λ d. record { rank = d.steps } };

    fn code(self) -> Chain<4095> {
        Chain { rank: self.steps }
    }

    fn of(level: Chain<4095>) -> Depth {
        Depth { steps: level.rank }
    }
}

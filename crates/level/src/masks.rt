//! Masks: no at rank 0, yes at rank 1.
ghost use Rattle.level.specs.Delivered.{masks, mask};

use crate::Level;

impl Level for bool {
    ghost kind = { masks };

    ghost meaning = { mask };

    fn at_most(self, other: bool) -> bool {
        other | !self
    }

    fn least() -> bool {
        false
    }

    fn greatest() -> bool {
        true
    }

    fn meet(self, other: bool) -> bool {
        self & other
    }

    fn join(self, other: bool) -> bool {
        self | other
    }

    fn negation(self) -> bool {
        !self
    }

    fn ranked() -> bool {
        true
    }

    fn top() -> u16 {
        1
    }

    fn rank(self) -> u16 {
        u16::from(self)
    }

    fn at(rank: u16) -> bool {
        rank != 0
    }
}

//! Grey: 0 to 255, the rank being the value.
ghost use Rattle.level.specs.Delivered.{greys, grey};

use crate::Level;

impl Level for u8 {
    ghost kind = { greys };

    ghost meaning = { grey };

    fn at_most(self, other: u8) -> bool {
        self <= other
    }

    fn least() -> u8 {
        u8::MIN
    }

    fn greatest() -> u8 {
        u8::MAX
    }

    fn meet(self, other: u8) -> u8 {
        self.min(other)
    }

    fn join(self, other: u8) -> u8 {
        self.max(other)
    }

    fn negation(self) -> u8 {
        !self
    }

    fn ranked() -> bool {
        true
    }

    fn top() -> u16 {
        255
    }

    fn rank(self) -> u16 {
        u16::from(self)
    }

    fn at(rank: u16) -> u8 {
        rank.min(255) as u8
    }
}

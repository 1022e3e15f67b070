//! Heights: -32768 to 32767, the rank being how far one is above -32768.
ghost use Rattle.level.specs.Delivered.{heights, height};

use crate::Level;

impl Level for i16 {
    ghost kind = { heights };

    ghost meaning = { height };

    fn at_most(self, other: i16) -> bool {
        self <= other
    }

    fn least() -> i16 {
        i16::MIN
    }

    fn greatest() -> i16 {
        i16::MAX
    }

    fn meet(self, other: i16) -> i16 {
        self.min(other)
    }

    fn join(self, other: i16) -> i16 {
        self.max(other)
    }

    fn negation(self) -> i16 {
        -1 - self
    }

    fn ranked() -> bool {
        true
    }

    fn top() -> u16 {
        65535
    }

    fn rank(self) -> u16 {
        (i32::from(self) + 32768) as u16
    }

    fn at(rank: u16) -> i16 {
        (i32::from(rank) - 32768) as i16
    }
}

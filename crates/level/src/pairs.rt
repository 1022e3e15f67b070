//! Pairs of any two kinds.
ghost use Rattle.level.specs.Pairs.{pair};

use crate::Level;

/// Two levels side by side.
#[derive(Clone, Copy)]
pub struct Pair<A, B> {
    pub first: A,
    pub second: B,
}

/// Everything goes part by part; a pair has no ranks.
impl<A: Level, B: Level> Level for Pair<A, B> {
    ghost kind = { pair A.Level.kind B.Level.kind };

    ghost meaning = { λ p. (A.Level.meaning p.first, B.Level.meaning p.second) };

    fn at_most(self, other: Pair<A, B>) -> bool {
        self.first.at_most(other.first) & self.second.at_most(other.second)
    }

    fn least() -> Pair<A, B> {
        Pair {
            first: A::least(),
            second: B::least(),
        }
    }

    fn greatest() -> Pair<A, B> {
        Pair {
            first: A::greatest(),
            second: B::greatest(),
        }
    }

    fn meet(self, other: Pair<A, B>) -> Pair<A, B> {
        Pair {
            first: self.first.meet(other.first),
            second: self.second.meet(other.second),
        }
    }

    fn join(self, other: Pair<A, B>) -> Pair<A, B> {
        Pair {
            first: self.first.join(other.first),
            second: self.second.join(other.second),
        }
    }

    fn negation(self) -> Pair<A, B> {
        Pair {
            first: self.first.negation(),
            second: self.second.negation(),
        }
    }

    fn ranked() -> bool {
        false
    }

    fn top() -> u16 {
        0
    }

    fn rank(self) -> u16 {
        0
    }

    fn at(_rank: u16) -> Pair<A, B> {
        Pair::least()
    }
}

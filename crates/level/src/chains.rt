//! Chains: ranks 0 to TOP, a ready ranked kind to code types of one's own by.
ghost use Rattle.level.specs.Chain.{chain_to, clamped, topmost};

use crate::Level;

/// A rank from 0 to TOP, which is at least 1 (0 counts as 1); a number past TOP means TOP.
#[derive(Clone, Copy)]
pub struct Chain<const TOP: u16> {
    pub rank: u16,
}

impl<const TOP: u16> Level for Chain<TOP> {
    ghost kind = { chain_to TOP };

    ghost meaning = { λ c. clamped (topmost TOP) c.rank };

    fn at_most(self, other: Chain<TOP>) -> bool {
        self.rank() <= other.rank()
    }

    fn least() -> Chain<TOP> {
        Chain { rank: 0 }
    }

    fn greatest() -> Chain<TOP> {
        Chain { rank: TOP.max(1) }
    }

    fn meet(self, other: Chain<TOP>) -> Chain<TOP> {
        Chain {
            rank: self.rank.min(other.rank),
        }
    }

    fn join(self, other: Chain<TOP>) -> Chain<TOP> {
        Chain {
            rank: self.rank.max(other.rank),
        }
    }

    fn negation(self) -> Chain<TOP> {
        Chain {
            rank: TOP.max(1) - self.rank(),
        }
    }

    fn ranked() -> bool {
        true
    }

    fn top() -> u16 {
        TOP.max(1)
    }

    fn rank(self) -> u16 {
        self.rank.min(TOP.max(1))
    }

    fn at(rank: u16) -> Chain<TOP> {
        Chain { rank }
    }
}

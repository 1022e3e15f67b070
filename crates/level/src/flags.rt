//! Labels: sets of flags, ordered by inclusion.
ghost use Rattle.std.specs.Prelude.{◌≡◌, ℕ, ◌<◌, Decides};
ghost use Rattle.level.specs.Delivered.{labels, label, Clear};
ghost use Rattle.level.specs.Flags.{flag};

use crate::Level;

/// Sixteen flags: 0 to 11 are the level, 12 to 15 the camera's.
#[derive(Clone, Copy)]
pub struct Labels {
    pub flags: u16,
}

/// The flags that are part of the level.
const LEVEL: u16 = 0x0fff;

impl Labels {
    /// Whether the two agree in flags 0 to 11, and so are one level.
    pub fn agrees(self, other: Labels) -> bool
        ensures flags { Decides result ((i : ℕ) → i < 12 → flag self.flags i ≡ flag other.flags i) }
        ensures level { Decides result (label self.flags ≡ label other.flags) }
    {
        self.flags & LEVEL == other.flags & LEVEL
    }
}

/// Ordered by inclusion. What the operations are given in the camera's flags, they write 0 there.
impl Level for Labels {
    ghost kind = { labels };

    ghost meaning = { λ l. label l.flags };

    fn at_most(self, other: Labels) -> bool {
        self.flags & other.flags & LEVEL == self.flags & LEVEL
    }

    fn least() -> Labels
        ensures meant { label result.flags ≡ labels.least }
        ensures clear { Clear result.flags }
    {
        Labels { flags: 0 }
    }

    fn greatest() -> Labels
        ensures meant { label result.flags ≡ labels.greatest }
        ensures clear { Clear result.flags }
    {
        Labels { flags: LEVEL }
    }

    fn meet(self, other: Labels) -> Labels
        ensures meant { label result.flags ≡ labels.meet (label self.flags) (label other.flags) }
        ensures clear { Clear result.flags }
    {
        Labels {
            flags: self.flags & other.flags & LEVEL,
        }
    }

    fn join(self, other: Labels) -> Labels
        ensures meant { label result.flags ≡ labels.join (label self.flags) (label other.flags) }
        ensures clear { Clear result.flags }
    {
        Labels {
            flags: (self.flags | other.flags) & LEVEL,
        }
    }

    fn negation(self) -> Labels
        ensures meant { label result.flags ≡ labels.negation (label self.flags) }
        ensures clear { Clear result.flags }
    {
        Labels {
            flags: (self.flags ^ LEVEL) & LEVEL,
        }
    }

    fn ranked() -> bool {
        false
    }

    fn top() -> u16 {
        0
    }

    fn rank(self) -> u16 {
        0
    }

    fn at(_rank: u16) -> Labels {
        Labels::least()
    }
}

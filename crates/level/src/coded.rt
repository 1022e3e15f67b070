//! Types of one's own, coded by a kind at hand.
ghost use Rattle.std.specs.Prelude.{◌≡◌};

use crate::Level;

/// A type whose values are coded by levels of a kind at hand, which thereby becomes its own kind.
pub trait Coded: Copy {
    /// The kind at hand.
    type Code: Level;

    /// The code of a value.
    ghost coded: { Self → Self.Code };

    /// The code, or another value of its level.
    fn code(self) -> Self::Code
        ensures { Self.Code.Level.meaning result ≡ Self.Code.Level.meaning (coded self) };

    /// A value whose code is this level.
    fn of(level: Self::Code) -> Self
        ensures { Self.Code.Level.meaning (coded result) ≡ Self.Code.Level.meaning level };
}

/// Everything goes by the codes.
impl<X: Coded> Level for X {
    ghost kind = { X.Code.Level.kind };

    ghost meaning = { λ x. X.Code.Level.meaning (X.Coded.coded x) };

    fn at_most(self, other: X) -> bool {
        self.code().at_most(other.code())
    }

    fn least() -> X {
        X::of(X::Code::least())
    }

    fn greatest() -> X {
        X::of(X::Code::greatest())
    }

    fn meet(self, other: X) -> X {
        X::of(self.code().meet(other.code()))
    }

    fn join(self, other: X) -> X {
        X::of(self.code().join(other.code()))
    }

    fn negation(self) -> X {
        X::of(self.code().negation())
    }

    fn ranked() -> bool {
        X::Code::ranked()
    }

    fn top() -> u16 {
        X::Code::top()
    }

    fn rank(self) -> u16 {
        self.code().rank()
    }

    fn at(rank: u16) -> X {
        X::of(X::Code::at(rank))
    }
}

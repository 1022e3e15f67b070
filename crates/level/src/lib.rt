//! Kinds of level: what a pixel can hold, and the laws that every step of the image stage rests on.
#![tactic(auto)]

ghost use Rattle.std.specs.Prelude.{◌≡◌, ◌≤◌, true, Decides};
ghost use Rattle.level.specs.Kind.{Kind};
ghost use Rattle.level.specs.Lattice.{Laws, RankLaws};

mod chains;
mod coded;
mod flags;
mod greys;
mod heights;
mod masks;
mod pairs;
pub mod side;

pub use chains::Chain;
pub use coded::Coded;
pub use flags::Labels;
pub use pairs::Pair;

/// What a pixel holds: a value that means a level of some kind. No function refuses anything.
pub trait Level: Copy {
    /// The kind, with the proofs of its laws: without one of them there is no `impl`.
    ghost kind: { Kind };

    /// The level that a value means; two values may mean one level.
    ghost meaning: { Self → kind.Level };

    /// Whether the level is at most the other.
    fn at_most(self, other: Self) -> bool
        ensures { Decides result (kind.◌⊑◌ (meaning self) (meaning other)) };

    /// The level at most every other.
    fn least() -> Self
        ensures { meaning result ≡ kind.least };

    /// The level at least every other.
    fn greatest() -> Self
        ensures { meaning result ≡ kind.greatest };

    /// The greatest level at most both.
    fn meet(self, other: Self) -> Self
        ensures { meaning result ≡ kind.meet (meaning self) (meaning other) };

    /// The least level at least both.
    fn join(self, other: Self) -> Self
        ensures { meaning result ≡ kind.join (meaning self) (meaning other) };

    /// The level on the other side: what is at most another turns to at least it.
    fn negation(self) -> Self
        ensures { meaning result ≡ kind.negation (meaning self) };

    /// Whether the levels have ranks. Where they have none, the answers of the three functions below are free.
    fn ranked() -> bool
        ensures { result ≡ kind.ranked };

    /// The greatest rank.
    fn top() -> u16
        ensures { kind.ranked ≡ true → result ≡ kind.top };

    /// The level's rank, from 0 to the greatest.
    fn rank(self) -> u16
        ensures { kind.ranked ≡ true → result ≡ kind.rank (meaning self) };

    /// The level at a rank; above the greatest rank the answer is free.
    fn at(rank: u16) -> Self
        ensures { kind.ranked ≡ true → rank ≤ kind.top → meaning result ≡ kind.at rank };
}

/// Whether the two are one level: each is at most the other.
pub fn same_level<L: Level>(a: L, b: L) -> bool
    ensures { Decides result (L.Level.meaning a ≡ L.Level.meaning b) }
{
    a.at_most(b) & b.at_most(a)
}

/// What follows from the laws of any kind.
pub fn laws_hold<L: Level>()
    ensures { Laws L.Level.kind }
{}

/// What follows from the laws of any ranked kind.
pub fn rank_laws_hold<L: Level>()
    ensures { L.Level.kind.ranked ≡ true → RankLaws L.Level.kind }
{}

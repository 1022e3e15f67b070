//! A rule that nobody can bring.
ghost use Rattle.hall.specs.Unfair.{PrefersHigh};
ghost use Rattle.rule.specs.Criterion.{Criterion};

/// No rule prefers the window with the larger lowest rank: of the windows 1 and 0 it would prefer the first, and of
/// 0 and 1, which they become when r becomes 1 - r, the second.
pub fn preferring_high_is_unfair()
    ensures { (C : Criterion) → PrefersHigh C → ⊥ }
{}

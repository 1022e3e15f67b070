// Fractions compared exactly, their distance from a rank, and their rounding.
ghost use Rattle.std.specs.Prelude.{◌≡◌, Some, refl};
ghost use Rattle.std.specs.Cmp.{eq_by_cmp_equiv, partial_equiv_from_equiv, po};
ghost use Rattle.std.specs.Ordering.{is_eq, is_lt, is_gt};
ghost use Rattle.rule.specs.Order.{compared, compared_total};
ghost use Rattle.rule.specs.Fractions.{less, away, rounded};
ghost use Rattle.rule.specs.Views.{fraction};

use crate::window::Ratio;
use level::side::Side;
use std::cmp::Ordering;

// Ratios compare by the fractions that they are: 1 / 2 equals 2 / 4.
impl Ord for Ratio {
    ghost cmp = { compared };

    ghost total = { compared_total };

    ghost matches_partial_cmp = { λ _ _. refl };

    ghost matches_eq = { λ _ _. refl };

    fn cmp(&self, other: &Ratio) -> Ordering
        ensures order { result ≡ compared self.now other.now }
        ensures less { is_lt result ≡ less (fraction self.now) (fraction other.now) }
        ensures greater { is_gt result ≡ less (fraction other.now) (fraction self.now) }
    {
        (self.num * other.den).cmp(&(other.num * self.den))
    }
}

impl PartialOrd for Ratio {
    ghost partial_cmp = { λ p q. Some (compared p q) };

    ghost laws = { po compared_total (λ _ _. refl) };

    fn partial_cmp(&self, other: &Ratio) -> Option<Ordering> {
        Some(self.cmp(other))
    }
}

impl PartialEq for Ratio {
    ghost eq = { λ p q. is_eq (compared p q) };

    ghost laws = { partial_equiv_from_equiv (eq_by_cmp_equiv compared_total) };

    fn eq(&self, other: &Ratio) -> bool {
        self.cmp(other).is_eq()
    }
}

impl Eq for Ratio {
    ghost laws = { eq_by_cmp_equiv compared_total };
}

impl Ratio {
    // How far this is from a rank.
    pub fn away(self, rank: u16) -> Ratio
        ensures { fraction result ≡ away rank (fraction self) }
    {
        let at = u64::from(rank) * self.den;
        Ratio {
            num: self.num.abs_diff(at),
            den: self.den,
        }
    }

    // The nearest rank, a half going down or up.
    pub fn rounded(self, side: Side) -> u16
        ensures { result ≡ rounded side (fraction self) }
    {
        let half = match side {
            Side::Low => self.den - 1,
            Side::High => self.den,
        };
        ((2 * self.num + half) / (2 * self.den)) as u16
    }
}

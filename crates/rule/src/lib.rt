// Selecting rules: which of two windows is at least as good, and what value a window has.
#![tactic(auto)]

ghost use Rattle.std.specs.Prelude.{◌≡◌};
ghost use Rattle.rule.specs.Criterion.{Criterion, Laws};
ghost use Rattle.rule.specs.Variance.{least_variance};
ghost use Rattle.rule.specs.Range.{least_range};
ghost use Rattle.rule.specs.Views.{seen, fraction};

pub mod gather;
pub mod ratio;
pub mod select;
pub mod window;

use window::{Ratio, Window};

// A selecting rule answers from the five numbers of windows alone, and refuses nothing. Its criterion says what
// it answers, and has the proofs of its laws.
pub trait Rule {
    ghost criterion: { Criterion };

    // Whether the first window is at least as good as the second.
    fn at_least_as_good(a: Window, b: Window) -> bool
        ensures { result ≡ criterion.prefers (seen a) (seen b) };

    // The value of a window.
    fn value(w: Window) -> Ratio
        ensures { fraction result ≡ criterion.value (seen w) };
}

// The laws of a rule, at the numbers of every window that ranks can make.
pub fn rule_laws<R: Rule>()
    ensures { Laws R.Rule.criterion }
{}

// The smaller variance is better, and the value is the mean.
pub struct LeastVariance;

impl Rule for LeastVariance {
    ghost criterion = { least_variance };

    fn at_least_as_good(a: Window, b: Window) -> bool {
        a.variation() * (b.count * b.count) <= b.variation() * (a.count * a.count)
    }

    fn value(w: Window) -> Ratio {
        w.mean()
    }
}

// The smaller range is better, and the value is its middle.
pub struct LeastRange;

impl Rule for LeastRange {
    ghost criterion = { least_range };

    fn at_least_as_good(a: Window, b: Window) -> bool {
        a.range() <= b.range()
    }

    fn value(w: Window) -> Ratio {
        w.middle()
    }
}

#[cfg(test)]
mod tests {
    use super::*;
    use crate::select::{better, settled};
    use level::side::Side;

    // The window of `count` ranks, the first `low` of them 0 and the others 65535.
    fn ends(low: u64, count: u64) -> Window {
        let mut w = Window::of_rank(if low == 0 { 65535 } else { 0 });
        for i in 1..count {
            w = w.with(if i < low { 0 } else { 65535 });
        }
        w
    }

    #[test]
    fn extremes(rt: HostRuntime) {
        for count in 1u64..26 {
            let low = ends(count, count);
            let high = ends(0, count);
            let both = ends(count / 2, count);
            assert!(rt; low.count == count && high.count == count && both.count == count);
            assert!(rt; <LeastVariance as Rule>::at_least_as_good(low, high));
            assert!(rt; <LeastVariance as Rule>::at_least_as_good(high, low));
            assert!(rt; <LeastRange as Rule>::at_least_as_good(low, high));
            assert!(rt; <LeastVariance as Rule>::at_least_as_good(high, both));
            assert!(rt; <LeastVariance as Rule>::at_least_as_good(both, high) == (count == 1));
            assert!(rt; <LeastRange as Rule>::at_least_as_good(both, high) == (count == 1));
            assert_eq!(rt; <LeastVariance as Rule>::value(high).num, 65535 * count);
            assert_eq!(rt; <LeastRange as Rule>::value(high).num, 2 * 65535);
        }
        assert_eq!(rt; ends(0, 25).with(0).lowest, 65535, "a full window stays");
    }

    // Of 0 and 2 the variation is 4, of 0, 2 and 2 it is 8; the variances are 1 and 8/9.
    #[test]
    fn counts_differ(rt: HostRuntime) {
        let two = Window::of_rank(0).with(2);
        let three = two.with(2);
        assert!(rt; <LeastVariance as Rule>::at_least_as_good(three, two));
        assert!(rt; !<LeastVariance as Rule>::at_least_as_good(two, three));
    }

    fn chosen<R: Rule>(side: Side, windows: &[Window]) -> u16 {
        let mut best = None;
        for w in windows {
            best = Some(better::<R>(10, side, best, *w));
        }
        settled::<R>(10, side, best)
    }

    // The middle place of the row 0 0 10 20 20, with windows of three ranks.
    #[test]
    fn middle_place(rt: HostRuntime) {
        let windows = [
            Window::of_rank(0).with(0).with(10),
            Window::of_rank(0).with(10).with(20),
            Window::of_rank(10).with(20).with(20),
        ];
        assert_eq!(rt; chosen::<LeastVariance>(Side::Low, &windows), 3);
        assert_eq!(rt; chosen::<LeastVariance>(Side::High, &windows), 17);
        assert_eq!(rt; chosen::<LeastRange>(Side::Low, &windows), 5);
        assert_eq!(rt; chosen::<LeastRange>(Side::High, &windows), 15);
        assert_eq!(rt; chosen::<LeastRange>(Side::High, &[]), 10);
    }
}

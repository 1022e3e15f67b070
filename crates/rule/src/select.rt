// The choice at one place, from the rank that is there and the candidate windows.
ghost use Rattle.std.specs.Prelude.{◌≡◌};
ghost use Rattle.rule.specs.Choice.{Choice, somebody, winner, wins as winning, settled as settling};
ghost use Rattle.rule.specs.Views.{seen, standing};

use crate::Rule;
use crate::window::Window;
use level::side::Side;
use std::cmp::Ordering;

// Whether, at a place of this rank, `a` wins over `b`: it is better by the rule; or equally good, and its value
// is nearer to the rank; or equally near too, and its value is lower or higher.
pub fn wins<R: Rule>(rank: u16, side: Side, a: Window, b: Window) -> bool
    ensures { result ≡ winning R.Rule.criterion side rank (seen a) (seen b) }
{
    if !R::at_least_as_good(a, b) {
        return false;
    }
    if !R::at_least_as_good(b, a) {
        return true;
    }
    let p = R::value(a);
    let q = R::value(b);
    let from_p = p.away(rank);
    let from_q = q.away(rank);
    match from_p.cmp(&from_q) {
        Ordering::Less => true,
        Ordering::Greater => false,
        Ordering::Equal => match side {
            Side::Low => p < q,
            Side::High => q < p,
        },
    }
}

// The best window once the next candidate has come too; of equals the first stays.
pub fn better<R: Rule>(rank: u16, side: Side, best: Option<Window>, next: Window) -> Window
    ensures { somebody (seen result) ≡ winner R.Rule.criterion side rank (standing best) (somebody (seen next)) }
{
    match best {
        Some(first) if !wins::<R>(rank, side, next, first) => first,
        _ => next,
    }
}

// The rank that a place gets: the value of the best window, rounded; with no window it keeps its rank.
pub fn settled<R: Rule>(rank: u16, side: Side, best: Option<Window>) -> u16
    ensures { result ≡ settling R.Rule.criterion side rank (standing best) }
{
    best.map_or(rank, |window| R::value(window).rounded(side))
}

// What holds of the choice by any rule: there is a best candidate, the rank selected is the rounded value of
// every best one, it lies among the ranks seen, and it turns round with them.
pub fn choice_laws<R: Rule>()
    ensures { Choice R.Rule.criterion }
{}

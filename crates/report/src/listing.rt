// Recipes listed.
ghost use Rattle.std.specs.Prelude.{◌≡◌, ◌≤◌, [], length, take, Some};
ghost use Rattle.report.specs.declared.verdict.Verdict.{Verdict};
ghost use Rattle.report.specs.declared.verdict.Verdict.TheVariants.{Admitted, Refused};
ghost use Rattle.report.specs.Lines.{lines as told};
ghost use Rattle.report.specs.Texts.{listing_text};

use crate::line::Line;
use crate::verdict::Verdict;
use recipe::fault::Refusal;
use recipe::plan::Plan;
use recipe::step::Step;
use recipe::table::Table;
use std::fmt;

// A recipe's listing: one line a record, and the verdict.
#[derive(Clone, Copy)]
pub struct Listing {
    lines: [Line; 64],
    count: usize,
    pub verdict: Verdict,
    ghost long: { length lines ≡ 64 },
    ghost few: { count ≤ 64 },
}

impl Listing {
    ghost use Rattle.report.specs.Listings.{Lists, shown_lines};

    // Lists a recipe for levels that are ranked or not.
    pub fn new(bytes: &[u8], ranked: bool) -> Listing
        ensures { Lists ranked bytes.now result }
    {
        match Plan::check(bytes, ranked) {
            Ok(plan) => Listing::of_plan(&plan),
            Err(fault) => Listing::of_refusal(fault.refusal()),
        }
    }

    // One line a step, each with the stack that the steps so far leave.
    fn of_plan(plan: &Plan) -> Listing
        ensures lines { shown_lines result ≡ told (take plan.now.count plan.now.steps) }
        ensures verdict { result.verdict ≡ Admitted plan.now.sheet }
    {
        let mut lines = [Line::after(0, Step::Frame, &Table::new()); 64];
        let mut table = Table::new();
        for (i, &step) in plan.steps().iter().enumerate() {
            // A plan's steps find their ranks and planes, so none is refused.
            let _ = table.place(step, plan.ranked, i);
            lines[i] = Line::after(i, step, &table);
        }
        Listing {
            lines,
            count: plan.count,
            verdict: Verdict::Admitted(plan.sheet),
        }
    }

    fn of_refusal(refusal: Refusal) -> Listing
        ensures lines { shown_lines result ≡ [] }
        ensures verdict { result.verdict ≡ Refused refusal }
    {
        Listing {
            lines: [Line::after(0, Step::Frame, &Table::new()); 64],
            count: 0,
            verdict: Verdict::Refused(refusal),
        }
    }

    // One line a record of a recipe that is admitted; none of one that is refused.
    pub fn lines(&self) -> &[Line]
        ensures { result.now ≡ shown_lines self.now }
    {
        &self.lines[..self.count]
    }
}

impl fmt::Display for Listing {
    ghost use Rattle.report.specs.Listings.{shown_lines};

    ghost output = { λ x. Some (listing_text (shown_lines x) x.verdict) };

    fn fmt<W: fmt::Write>(&self, f: &mut fmt::Formatter<W>) -> fmt::Result {
        for line in self.lines() {
            writeln!(f, "{line}")?;
        }
        let verdict = self.verdict;
        write!(f, "{verdict}")
    }
}

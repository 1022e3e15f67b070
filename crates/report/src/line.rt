// One record of a listing.
ghost use Rattle.std.specs.Prelude.{◌≡◌, Some};
ghost use Rattle.recipe.specs.Sheets.{top};
ghost use Rattle.recipe.specs.Tables.{progress};
ghost use Rattle.report.specs.Texts.{line_text};
ghost use Rattle.report.specs.Lines.{line_of};

use crate::letters::Letters;
use recipe::entry::Marks;
use recipe::step::Step;
use recipe::table::Table;
use std::fmt;

// A record's number and step, and what stands after it: the depth, and reach and marks of the top plane.
#[derive(Clone, Copy)]
pub struct Line {
    pub number: usize,
    pub step: Step,
    pub depth: usize,
    pub reach: u8,
    pub marks: Marks,
}

impl Line {
    // The line of a record after which the table stands so.
    pub fn after(number: usize, step: Step, table: &Table) -> Line
        ensures { result ≡ line_of number step table.now.depth (top (progress table.now).entries) }
    {
        let sheet = table.sheet();
        Line {
            number,
            step,
            depth: table.depth,
            reach: sheet.reach,
            marks: sheet.marks,
        }
    }
}

impl fmt::Display for Line {
    ghost output = { λ x. Some (line_text x) };

    fn fmt<W: fmt::Write>(&self, f: &mut fmt::Formatter<W>) -> fmt::Result {
        let number = self.number;
        let step = self.step;
        let depth = self.depth;
        let reach = self.reach;
        let letters = Letters { marks: self.marks };
        write!(f, "{number} {step} {depth} {reach} {letters}")
    }
}

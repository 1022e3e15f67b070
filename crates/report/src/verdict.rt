// The answer to a recipe's admission.
ghost use Rattle.std.specs.Prelude.{Some};
ghost use Rattle.report.specs.Texts.{verdict_text};

use crate::letters::Letters;
use recipe::entry::Sheet;
use recipe::fault::Refusal;
use std::fmt;

// Admitted with this sheet, or refused.
#[derive(Clone, Copy)]
pub enum Verdict {
    Admitted(Sheet),
    Refused(Refusal),
}

impl fmt::Display for Verdict {
    ghost output = { λ x. Some (verdict_text x) };

    fn fmt<W: fmt::Write>(&self, f: &mut fmt::Formatter<W>) -> fmt::Result {
        match *self {
            Verdict::Admitted(sheet) => {
                let planes = sheet.planes;
                let reach = sheet.reach;
                let letters = Letters { marks: sheet.marks };
                write!(f, "admitted planes {planes} reach {reach} marks {letters}")
            }
            Verdict::Refused(refusal) => {
                let number = refusal.number;
                match refusal.at {
                    Some(index) => write!(f, "refused {number} record {index}"),
                    None => write!(f, "refused {number}"),
                }
            }
        }
    }
}

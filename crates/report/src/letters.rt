// A plane's marks as letters.
ghost use Rattle.std.specs.Prelude.{◌≡◌, [], if◌then◌else◌, Some};
ghost use Rattle.report.specs.Texts.{marks_text, unmarked};

use recipe::entry::Marks;
use std::fmt;

// The letters of the marks, B D K T S W in this order, or - where there are none.
#[derive(Clone, Copy)]
pub struct Letters {
    pub marks: Marks,
}

impl fmt::Display for Letters {
    ghost output = { λ x. Some (marks_text x.marks) };

    fn fmt<W: fmt::Write>(&self, f: &mut fmt::Formatter<W>) -> fmt::Result {
        let marks = self.marks;
        let b = only_if(marks.below, "B");
        let d = only_if(marks.above, "D");
        let k = only_if(marks.keeps, "K");
        let t = only_if(marks.turns, "T");
        let s = only_if(marks.settles, "S");
        let w = only_if(marks.within, "W");
        let none = only_if(is_unmarked(marks), "-");
        write!(f, "{b}{d}{k}{t}{s}{w}{none}")
    }
}

// The text, or nothing.
fn only_if(test: bool, text: &'static str) -> &'static str
    ensures { result.now ≡ (if test then text.now else []) }
{
    if test { text } else { "" }
}

fn is_unmarked(marks: Marks) -> bool
    ensures { result ≡ unmarked marks }
{
    !(marks.below | marks.above | marks.keeps | marks.turns | marks.settles | marks.within)
}

// What is answered to a line, and its text.
ghost use Rattle.std.specs.Prelude.{◌≡◌, IfOk, Some, alloc_error, string_bytes};
ghost use Rattle.transcripts.specs.declared.reply.Trouble.TheVariants.{NoMemory, NotText, Unread as Unreadable};
ghost use Rattle.transcripts.specs.Texts.{reply_text, trouble_text, unserved_text};

use cell::calls::Stepped;
use commands::command::Unread;
use report::verdict::Verdict;
use spelling::written::Written;
use std::alloc::{AllocError, AllocFailed, Global};
use std::error::Error;
use std::fmt;
use std::str::Utf8Error;

// Why a line is not served.
#[derive(Clone, Copy, Debug, PartialEq, Eq)]
pub enum Trouble {
    Unread(Unread),
    NotText,
    NoBytes,
    NoLevels,
    TooLong,
    NoMemory(AllocError),
    NoCell,
}

// The cell's reply to a call.
#[derive(Drop)]
pub enum Reply<L> {
    Told(Verdict),
    Laid,
    Done(Stepped),
    Image(Vec<L>),
    Cleared,
}

impl From<Utf8Error> for Trouble {
    ghost from_gives = { λ _ trouble. trouble ≡ NotText };

    fn from(_: Utf8Error) -> Trouble {
        Trouble::NotText
    }
}

impl From<Unread> for Trouble {
    ghost from_gives = { λ fault trouble. trouble ≡ Unreadable fault };

    fn from(fault: Unread) -> Trouble {
        Trouble::Unread(fault)
    }
}

impl From<AllocError> for Trouble {
    ghost from_gives = { λ want trouble. trouble ≡ NoMemory want };

    fn from(want: AllocError) -> Trouble {
        Trouble::NoMemory(want)
    }
}

impl<T: Drop> From<AllocFailed<T>> for Trouble {
    ghost from_gives = { λ _ trouble. trouble ≡ NoMemory alloc_error };

    fn from(failed: AllocFailed<T>) -> Trouble {
        Trouble::NoMemory(AllocError::from(failed))
    }
}

impl fmt::Display for Trouble {
    ghost output = { λ x. Some (trouble_text x) };

    fn fmt<W: fmt::Write>(&self, f: &mut fmt::Formatter<W>) -> fmt::Result {
        match *self {
            Trouble::Unread(unread) => write!(f, "{unread}"),
            Trouble::NotText => f.write_str("not text"),
            Trouble::NoBytes => f.write_str("no bytes in hexadecimal digits"),
            Trouble::NoLevels => f.write_str("no levels of the cell's kind"),
            Trouble::TooLong => f.write_str("more levels than can be served"),
            Trouble::NoMemory(_) => f.write_str("no memory for it"),
            Trouble::NoCell => f.write_str("no cell yet"),
        }
    }
}

impl Error for Trouble {}

// Why the line of a number is not served.
#[derive(Clone, Copy, Debug, PartialEq, Eq)]
pub struct LineTrouble {
    pub line: usize,
    pub trouble: Trouble,
}

impl fmt::Display for LineTrouble {
    ghost output = { λ x. Some (unserved_text x.line x.trouble) };

    fn fmt<W: fmt::Write>(&self, f: &mut fmt::Formatter<W>) -> fmt::Result {
        let line = self.line;
        let trouble = self.trouble;
        write!(f, "line {line}: {trouble}\n")
    }
}

// Says why a line is not served.
pub fn unserved(heap: Global, line: usize, trouble: Trouble) -> Result<String, AllocError>
    ensures { IfOk result (λ s. string_bytes s ≡ unserved_text line trouble) }
{
    LineTrouble { line, trouble }.to_string(heap)
}

impl<L: Written> Reply<L> {
    // The reply as text; an image has a line for each row.
    pub fn text(self, heap: Global, width: usize) -> Result<String, AllocError>
        ensures { IfOk result (λ s. string_bytes s ≡ reply_text L.Written.text width self) }
    {
        let mut text = String::new(heap);
        self.tell(heap, &mut text, width)?;
        Ok(text)
    }
}

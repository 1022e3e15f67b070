// Answers printed as they come.
ghost use Rattle.std.specs.Prelude.{◌≡◌, alloc_error};
ghost use Rattle.transcripts.specs.declared.reply.Trouble.TheVariants.{NoMemory};
ghost use Rattle.transcripts.specs.Texts.{unserved_text};

use spelling::words::Spaces;
use std::alloc::AllocError;
use std::{fmt, io};
use transcripts::reply::{LineTrouble, Trouble};
use transcripts::teller::Teller;

// Prints what it is told.
#[derive(Drop)]
pub(crate) struct Printer<'a> {
    pub(crate) rt: &'a HostRuntime,
}

// What is printed leaves no trace that a contract could speak of.
impl Teller for Printer<'_> {
    type Fault = io::Error;

    // Spaces alone part words: a tab is part of one.
    type Words = Spaces;

    ghost tells = { λ _ _ _. Unit {0} };

    ghost misses = { λ line text. text ≡ unserved_text line (NoMemory alloc_error) };

    fn tell<D: fmt::Display + Drop>(&mut self, said: D) -> io::Result<()> {
        print!(self.rt; "{said}")
    }

    fn miss(&mut self, line: usize, want: AllocError) -> io::Result<()> {
        let trouble = Trouble::NoMemory(want);
        self.tell(LineTrouble { line, trouble })
    }

    ghost joins = { λ _ _ _ _ _ _ _. tt };

    ghost starts = { λ _. tt };
}

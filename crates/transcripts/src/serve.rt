// Lines served one by one, without a cell and by one.
ghost use Rattle.std.specs.Prelude.{◌≡◌, ℕ, ◌+◌, List, map, drop, Ok, IfOk, OnOk, vec_items};
ghost use Rattle.commands.specs.Commands.{asked_by, put as called, put_by};
ghost use Rattle.desk.specs.Desks.{Tidy};
ghost use Rattle.transcripts.specs.Serving.{LineServed, LinesServed, TroubleTold};
ghost use Rattle.transcripts.specs.Transcripts.{Bare, Lines, Served};

use crate::line;
use crate::line::Start;
use crate::put::put;
use crate::reply::{LineTrouble, Trouble};
use crate::tell::tell_bare;
use crate::teller::Teller;
use cell::setup::Setup;
use commands::command::{Call, Command};
use desk::desk::Desk;
use spelling::written::Written;
use std::alloc::Global;

// Tells why a line is not served, or that there is no memory for it.
fn tell_trouble<T: Teller>(teller: &mut T, line: usize, trouble: Trouble) -> Result<(), T::Fault>
    ensures { OnOk result ((text : List ℕ) × T.tells teller.old teller.new text × TroubleTold T.misses line trouble text) }
{
    match trouble {
        Trouble::NoMemory(want) => teller.miss(line, want),
        trouble => teller.tell(LineTrouble { line, trouble }),
    }
}

// Tells the answer to a line that puts a call to the desk's cell, or that there is no memory for the line.
fn tell_put<S: Setup, T: Teller>(
    heap: Global,
    teller: &mut T,
    desk: &mut Desk<S>,
    width: usize,
    line: usize,
    call: Call<'_>,
) -> Result<(), T::Fault>
where
    S::Pixel: Written,
    requires { Tidy S.Pixel.Level.kind S.Pixel.Level.meaning S.Selector.Rule.criterion desk.old }
    ensures tidy { Tidy S.Pixel.Level.kind S.Pixel.Level.meaning S.Selector.Rule.criterion desk.new }
    ensures served { OnOk result ((text : List ℕ) × T.tells teller.old teller.new text × LineServed S.Pixel.Level.kind S.Pixel.Level.meaning S.Selector.Rule.criterion S.Pixel.Written.spells S.Pixel.Written.text width T.misses desk.old desk.new line (Ok (called (put_by call.entry))) text) }
{
    match put::<S>(heap, desk, call) {
        Ok(reply) => reply.tell(heap, teller, width),
        Err(trouble) => tell_trouble(teller, line, trouble),
    }
}

// Tells the answer to a line by the desk's cell, whose frames have this width, or that there is no memory for the line.
fn tell_celled<S: Setup, T: Teller>(
    heap: Global,
    teller: &mut T,
    desk: &mut Desk<S>,
    width: usize,
    line: usize,
    command: Result<Command<'_>, Trouble>,
) -> Result<(), T::Fault>
where
    S::Pixel: Written,
    requires { Tidy S.Pixel.Level.kind S.Pixel.Level.meaning S.Selector.Rule.criterion desk.old }
    ensures tidy { Tidy S.Pixel.Level.kind S.Pixel.Level.meaning S.Selector.Rule.criterion desk.new }
    ensures served { OnOk result ((text : List ℕ) × T.tells teller.old teller.new text × LineServed S.Pixel.Level.kind S.Pixel.Level.meaning S.Selector.Rule.criterion S.Pixel.Written.spells S.Pixel.Written.text width T.misses desk.old desk.new line (asked_by command.entry) text) }
{
    match command {
        Err(trouble) => tell_bare(teller, line, Err(trouble)),
        Ok(command) => match command {
            Command::Put(call) => tell_put::<S, T>(heap, teller, desk, width, line, call),
            other => tell_bare(teller, line, Ok(other)),
        },
    }
}

// A script's lines on their way to a teller.
#[derive(Drop)]
pub struct Serving<'a, T: Teller> {
    pub heap: Global,
    pub lines: &'a [Vec<u8>],
    pub teller: &'a mut T,
}

impl<T: Teller> Serving<'_, T> {
    // Answers the lines from an index on while there is no cell; gives the line that asks for the next one.
    pub fn bare_lines(&mut self, from: usize) -> Result<Option<Start>, T::Fault>
        ensures lines { self.new.lines.now ≡ self.old.lines.now }
        ensures same { self.new.teller.ghost_name ≡ self.old.teller.ghost_name }
        ensures served { IfOk result (λ next. (text : List ℕ) × T.tells self.old.teller.now self.new.teller.now text × Lines T.Words.cut (Served T.misses Bare) tt (from + 1) (map vec_items (drop from self.old.lines.now)) text next) }
    {
        let Some(rest) = self.lines.get(from..) else {
            return Ok(None);
        };
        for (i, line) in rest.iter().enumerate() {
            let number = from + i + 1;
            let command = line::read::<T::Words>(line);
            match line::making(&command) {
                Some(making) => {
                    return Ok(Some(Start {
                        line: number,
                        making,
                    }));
                }
                None => tell_bare(self.teller, number, command)?,
            }
        }
        Ok(None)
    }

    // Answers the lines from an index on by the desk's cell; gives the line that asks for the next one.
    pub fn celled_lines<S: Setup>(
        &mut self,
        desk: &mut Desk<S>,
        width: usize,
        from: usize,
    ) -> Result<Option<Start>, T::Fault>
    where
        S::Pixel: Written,
        requires { Tidy S.Pixel.Level.kind S.Pixel.Level.meaning S.Selector.Rule.criterion desk.old }
        ensures tidy { Tidy S.Pixel.Level.kind S.Pixel.Level.meaning S.Selector.Rule.criterion desk.new }
        ensures lines { self.new.lines.now ≡ self.old.lines.now }
        ensures same { self.new.teller.ghost_name ≡ self.old.teller.ghost_name }
        ensures served { IfOk result (λ next. (text : List ℕ) × T.tells self.old.teller.now self.new.teller.now text × LinesServed S.Pixel.Level.kind S.Pixel.Level.meaning S.Selector.Rule.criterion S.Pixel.Written.spells S.Pixel.Written.text width T.Words.cut T.misses desk.old (from + 1) (map vec_items (drop from self.old.lines.now)) text next) }
    {
        let Some(rest) = self.lines.get(from..) else {
            return Ok(None);
        };
        for (i, line) in rest.iter().enumerate() {
            let number = from + i + 1;
            let command = line::read::<T::Words>(line);
            match line::making(&command) {
                Some(making) => {
                    return Ok(Some(Start {
                        line: number,
                        making,
                    }));
                }
                None => {
                    tell_celled::<S, T>(self.heap, self.teller, desk, width, number, command)?;
                }
            }
        }
        Ok(None)
    }
}

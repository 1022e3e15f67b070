// Answers told piece by piece, so that no text of one is put together first.
ghost use Rattle.std.specs.Prelude.{ℕ, ◌<◌, List, [], ◌∷◌, ◌++◌, length, OnOk};
ghost use Rattle.commands.specs.Commands.{asked_by};
ghost use Rattle.spelling.specs.Texts.{rows_text};
ghost use Rattle.transcripts.specs.Texts.{reply_text};
ghost use Rattle.transcripts.specs.Transcripts.{Bare};

use crate::reply::{LineTrouble, Reply, Trouble};
use crate::teller::Teller;
use commands::command::Command;
use spelling::levels;
use spelling::written::Written;
use std::alloc::Global;

// Tells an image that has levels, each row with the end of its line.
fn tell_rows<L: Written, T: Teller>(
    heap: Global,
    teller: &mut T,
    width: usize,
    image: &[L],
) -> Result<(), T::Fault>
    requires { 0 < length image.now }
    ensures { OnOk result (T.tells teller.old teller.new (rows_text L.Written.text width image.now ++ (10 ∷ []))) }
{
    for row in image.chunks(width.max(1)) {
        let row = levels::row(heap, row)?;
        teller.tell(format_args!("{row}\n"))?;
    }
    Ok(())
}

impl<L: Written> Reply<L> {
    // Tells the reply; an image has a line for each row.
    pub(crate) fn tell<T: Teller>(
        self,
        heap: Global,
        teller: &mut T,
        width: usize,
    ) -> Result<(), T::Fault>
        ensures { OnOk result (T.tells teller.old teller.new (reply_text L.Written.text width self)) }
    {
        match self {
            Reply::Told(verdict) => teller.tell(format_args!("{verdict}\n")),
            Reply::Laid => teller.tell("laid\n"),
            Reply::Done(stepped) => {
                let done = stepped.done;
                let left = stepped.left;
                teller.tell(format_args!("done {done} left {left}\n"))
            }
            Reply::Image(image) if image.is_empty() => teller.tell("\n"),
            Reply::Image(image) => tell_rows(heap, teller, width, &image),
            Reply::Cleared => teller.tell("cleared\n"),
        }
    }
}

// Tells the answer to a line while there is no cell.
pub(crate) fn tell_bare<T: Teller>(
    teller: &mut T,
    line: usize,
    command: Result<Command<'_>, Trouble>,
) -> Result<(), T::Fault>
    ensures { OnOk result ((text : List ℕ) × T.tells teller.old teller.new text × Bare tt line (asked_by command.entry) tt text) }
{
    match command {
        Ok(Command::Nothing) => Ok(()),
        Ok(Command::Note(text)) => teller.tell(format_args!("{text}\n")),
        Ok(Command::Cell(_)) => Ok(()),
        Ok(Command::Put(_)) => teller.tell(LineTrouble {
            line,
            trouble: Trouble::NoCell,
        }),
        Err(trouble) => teller.tell(LineTrouble { line, trouble }),
    }
}

// Lines of a script.
ghost use Rattle.commands.specs.Commands.{asked_by};
ghost use Rattle.commands.specs.declared.command.Command.TheVariants.{Cell};
ghost use Rattle.std.specs.Prelude.{◌≡◌, Ok, MatchOption};
ghost use Rattle.transcripts.specs.Transcripts.{AsksNoCell, LineRead};

use crate::reply::Trouble;
use commands::command;
use commands::command::{Command, Making};
use spelling::words::Parting;

// A line that asks for a new cell.
#[derive(Clone, Copy)]
pub struct Start {
    pub line: usize,
    pub making: Making,
}

// What a line asks for, whose words part this way.
pub fn read<P: Parting>(line: &[u8]) -> Result<Command<'_>, Trouble>
    ensures { LineRead P.cut line.now (asked_by result) }
{
    let text = std::str::from_utf8(line)?;
    Ok(command::read::<P>(text)?)
}

// The new cell that a line asks for, if it asks for one.
pub fn making(command: &Result<Command<'_>, Trouble>) -> Option<Making>
    ensures { MatchOption result (AsksNoCell (asked_by command.now)) (λ making. command.now ≡ Ok (Cell making)) }
{
    match *command {
        Ok(Command::Cell(making)) => Some(making),
        Ok(Command::Nothing) => None,
        Ok(Command::Note(_)) => None,
        Ok(Command::Put(_)) => None,
        Err(_) => None,
    }
}

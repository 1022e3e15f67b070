// Calls of a script put to a desk.
ghost use Rattle.std.specs.Prelude.{◌≡◌, map, replicate, is_some, IfSome, IfOk, vec_len, nat_le};
ghost use Rattle.report.specs.declared.verdict.Verdict.TheVariants.{Refused as Refusing};
ghost use Rattle.cell.specs.Refusals.{cell_refusal};
ghost use Rattle.desk.specs.Desks.{Tidy};
ghost use Rattle.commands.specs.Commands.{admit as admit_put, clear as clear_put, lay as lay_put, put_by, step as step_put, take as take_put};
ghost use Rattle.transcripts.specs.declared.reply.Reply.TheVariants.{Told};
ghost use Rattle.transcripts.specs.Replies.{Replied, most};

use crate::reply::{Reply, Trouble};
use cell::fault::CellFault;
use cell::setup::Setup;
use commands::command::Call;
use desk::desk::Desk;
use level::Level;
use report::verdict::Verdict;
use spelling::levels;
use spelling::written::Written;
use std::alloc::{AllocError, Global};

// The most levels that a block or an output may have here, more than a cell can use.
const MOST: usize = 1048576;

// That many levels, each the least; none where there are too many.
pub fn blank<L: Level>(heap: Global, count: usize) -> Result<Option<Vec<L>>, AllocError>
    ensures few { IfOk result (λ o. is_some o ≡ nat_le count most) }
    ensures long { IfOk result (λ o. IfSome o (λ v. vec_len v ≡ count)) }
    ensures least { IfOk result (λ o. IfSome o (λ v. map L.Level.meaning v.items ≡ replicate count L.Level.kind.least)) }
{
    if count > MOST {
        return Ok(None);
    }
    let mut levels = Vec::with_capacity(heap, count)?;
    for _i in 0..count {
        levels.push(L::least())?;
    }
    Ok(Some(levels))
}

// The refusal that a fault tells.
fn refused<L>(fault: CellFault) -> Reply<L>
    ensures { result ≡ Told (Refusing (cell_refusal fault)) }
{
    Reply::Told(Verdict::Refused(fault.refusal()))
}

// Puts a recipe in hexadecimal digits.
fn admit<S: Setup>(heap: Global, desk: &mut Desk<S>, text: &str) -> Result<Reply<S::Pixel>, Trouble>
where
    S::Pixel: Written,
    requires { Tidy S.Pixel.Level.kind S.Pixel.Level.meaning S.Selector.Rule.criterion desk.old }
    ensures { Replied S.Pixel.Level.kind S.Pixel.Level.meaning S.Selector.Rule.criterion S.Pixel.Written.spells desk.old desk.new (admit_put text.now) result }
{
    let Some(bytes) = levels::bytes(heap, text.as_bytes())? else {
        return Err(Trouble::NoBytes);
    };
    match desk.admit(&bytes) {
        Ok(sheet) => Ok(Reply::Told(Verdict::Admitted(sheet))),
        Err(fault) => Ok(refused(fault)),
    }
}

// Puts a frame as words.
fn lay<S: Setup>(heap: Global, desk: &mut Desk<S>, text: &str) -> Result<Reply<S::Pixel>, Trouble>
where
    S::Pixel: Written,
    requires { Tidy S.Pixel.Level.kind S.Pixel.Level.meaning S.Selector.Rule.criterion desk.old }
    ensures { Replied S.Pixel.Level.kind S.Pixel.Level.meaning S.Selector.Rule.criterion S.Pixel.Written.spells desk.old desk.new (lay_put text.now) result }
{
    let Some(frame) = levels::levels::<S::Pixel>(heap, text)? else {
        return Err(Trouble::NoLevels);
    };
    match desk.lay(&frame) {
        Ok(()) => Ok(Reply::Laid),
        Err(fault) => Ok(refused(fault)),
    }
}

// Steps.
fn step<S: Setup>(desk: &mut Desk<S>, count: usize) -> Result<Reply<S::Pixel>, Trouble>
where
    S::Pixel: Written,
    requires { Tidy S.Pixel.Level.kind S.Pixel.Level.meaning S.Selector.Rule.criterion desk.old }
    ensures { Replied S.Pixel.Level.kind S.Pixel.Level.meaning S.Selector.Rule.criterion S.Pixel.Written.spells desk.old desk.new (step_put count) result }
{
    match desk.step(count) {
        Ok(stepped) => Ok(Reply::Done(stepped)),
        Err(fault) => Ok(refused(fault)),
    }
}

// Takes the image into an output of that length.
fn take<S: Setup>(
    heap: Global,
    desk: &mut Desk<S>,
    length: usize,
) -> Result<Reply<S::Pixel>, Trouble>
where
    S::Pixel: Written,
    requires { Tidy S.Pixel.Level.kind S.Pixel.Level.meaning S.Selector.Rule.criterion desk.old }
    ensures { Replied S.Pixel.Level.kind S.Pixel.Level.meaning S.Selector.Rule.criterion S.Pixel.Written.spells desk.old desk.new (take_put length) result }
{
    let Some(mut out) = blank::<S::Pixel>(heap, length)? else {
        return Err(Trouble::TooLong);
    };
    match desk.take(&mut out) {
        Ok(()) => Ok(Reply::Image(out)),
        Err(fault) => Ok(refused(fault)),
    }
}

// Clears the run.
fn clear<S: Setup>(desk: &mut Desk<S>) -> Result<Reply<S::Pixel>, Trouble>
where
    S::Pixel: Written,
    requires { Tidy S.Pixel.Level.kind S.Pixel.Level.meaning S.Selector.Rule.criterion desk.old }
    ensures { Replied S.Pixel.Level.kind S.Pixel.Level.meaning S.Selector.Rule.criterion S.Pixel.Written.spells desk.old desk.new clear_put result }
{
    match desk.clear() {
        Ok(()) => Ok(Reply::Cleared),
        Err(fault) => Ok(refused(fault)),
    }
}

// Puts a call of the script to the desk.
pub fn put<S: Setup>(
    heap: Global,
    desk: &mut Desk<S>,
    call: Call<'_>,
) -> Result<Reply<S::Pixel>, Trouble>
where
    S::Pixel: Written,
    requires { Tidy S.Pixel.Level.kind S.Pixel.Level.meaning S.Selector.Rule.criterion desk.old }
    ensures { Replied S.Pixel.Level.kind S.Pixel.Level.meaning S.Selector.Rule.criterion S.Pixel.Written.spells desk.old desk.new (put_by call.entry) result }
{
    match call {
        Call::Admit(text) => admit(heap, desk, text),
        Call::Lay(text) => lay(heap, desk, text),
        Call::Step(count) => step(desk, count),
        Call::Take(length) => take(heap, desk, length),
        Call::Clear => clear(desk),
    }
}

// A whole run: a new cell, admit, lay, every record, take.
ghost use Rattle.std.specs.Prelude.{◌≡◌, map, length, Ok, Err};
ghost use Rattle.recipe.specs.Plans.{checked};
ghost use Rattle.cell.specs.Histories.{setting};
ghost use Rattle.controller.specs.Runs.{Ran, SameFrom, image_answer, number_of, run_answer, used};

use cell::calls::Cell;
use cell::fault::CellFault;
use cell::setup::Setup;

// The bytes of a record.
const RECORD: usize = 8;

// Runs the recipe on the frame and writes the image to the output. A refused run writes nothing.
fn run<S: Setup>(
    recipe: &[u8],
    width: usize,
    height: usize,
    frame: &[S::Pixel],
    block: &mut [S::Pixel],
    out: &mut [S::Pixel],
) -> Result<(), CellFault>
    ensures answer { image_answer result (map S.Pixel.Level.meaning out.new) ≡ run_answer S.Pixel.Level.kind S.Selector.Rule.criterion (setting width height (length block.old)) recipe.now (map S.Pixel.Level.meaning frame.now) (length out.old) }
    ensures output { elim result [ Ok u ↦ Unit {0} | Err e ↦ out.new ≡ out.old ] }
    ensures block { elim result [ Ok u ↦ SameFrom (used (setting width height (length block.old)) (checked S.Pixel.Level.kind.ranked recipe.now)) block.old block.new | Err e ↦ block.new ≡ block.old ] }
{
    let mut cell: Cell<S> = Cell::new(width, height, block);
    cell.admit(recipe)?;
    // Both are to be of the frame's size: where they differ, one is not.
    if out.len() != frame.len() {
        return Err(CellFault::WrongLength);
    }
    let slip = cell.lay(frame)?;
    let _ = cell.step(recipe.len() / RECORD);
    match cell.take(slip, out) {
        Ok(()) => Ok(()),
        // Every record is done, and the output is as long as the frame that was laid.
        Err((_, _slip)) => unreachable(),
    }
}

// What the call returns: 0, or the refusal's number.
fn number(answer: Result<(), CellFault>) -> u32
    ensures { result ≡ number_of answer }
{
    match answer {
        Ok(()) => 0,
        Err(fault) => u32::from(fault.refusal().number),
    }
}

// Runs the recipe on the frame: 0 and the image in the output, or the refusal's number and the output as it was.
pub fn smoothed<S: Setup>(
    recipe: &[u8],
    width: usize,
    height: usize,
    frame: &[S::Pixel],
    block: &mut [S::Pixel],
    out: &mut [S::Pixel],
) -> u32
    ensures { Ran S.Pixel.Level.kind S.Pixel.Level.meaning S.Selector.Rule.criterion (setting width height (length block.old)) recipe.now frame.now block.old block.new out.old out.new result }
{
    number(run::<S>(recipe, width, height, frame, block, out))
}

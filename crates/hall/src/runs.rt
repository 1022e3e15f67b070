//! One frame put through one recipe.
ghost use Rattle.std.specs.Prelude.{◌≡◌, map, length, Ok, Err};
ghost use Rattle.cell.specs.Histories.{setting, image_of};
ghost use Rattle.hall.specs.Runs.{one_run, run_answer};

use cell::calls::Cell;
use cell::fault::CellFault;
use cell::setup::Setup;

/// Makes a cell over the block, and leaves in the output the image that the recipe makes of the frame.
pub fn run_once<S: Setup>(
    width: usize,
    height: usize,
    block: &mut [S::Pixel],
    recipe: &[u8],
    frame: &[S::Pixel],
    out: &mut [S::Pixel],
) -> Result<(), CellFault>
    ensures answer { run_answer result (map S.Pixel.Level.meaning out.new) ≡ one_run S.Pixel.Level.kind S.Selector.Rule.criterion (setting width height (length block.old)) recipe.now (map S.Pixel.Level.meaning frame.now) (length out.old) }
    ensures output { elim result [ Ok u ↦ map S.Pixel.Level.meaning out.new ≡ image_of S.Pixel.Level.kind S.Selector.Rule.criterion (setting width height (length block.old)) recipe.now (map S.Pixel.Level.meaning frame.now) | Err e ↦ out.new ≡ out.old ] }
{
    let mut cell: Cell<S> = Cell::new(width, height, block);
    let _ = cell.admit(recipe)?;
    let slip = cell.lay(frame)?;
    // Should a record be left, take says so.
    let _ = cell.step(64);
    match cell.take(slip, out) {
        Ok(()) => Ok(()),
        Err((fault, slip)) => match cell.clear(slip) {
            Ok(()) => Err(fault),
            // The run is still open, so it can be cleared.
            Err((_, _slip)) => unreachable(),
        },
    }
}

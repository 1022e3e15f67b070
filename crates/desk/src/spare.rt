// A second, small cell, and the end of a run.
ghost use Rattle.std.specs.Prelude.{◌≡◌, true, false, length, Err, IsErr, IfErr};
ghost use Rattle.level.specs.Delivered.{masks, mask};
ghost use Rattle.rule.specs.Variance.{least_variance};
ghost use Rattle.desk.specs.Desks.{Kept};

use cell::calls::{Cell, Slip};
use cell::fault::CellFault;
use cell::setup::{Of, Setup};
use rule::LeastVariance;

// The recipe that gives the frame itself.
const FRAME: [u8; 8] = [1, 0, 0, 0, 0, 0, 0, 0];

// A cell of one mask pixel.
type Small = Of<bool, LeastVariance>;

// The small cell in a run, and the run's slip.
pub struct Spare<'a> {
    pub cell: Cell<'a, Small>,
    pub slip: Slip,
}

// Opens a run on the small cell.
pub fn lay(block: &mut [bool; 3]) -> Spare<'_>
    ensures { Kept masks mask least_variance result.cell true }
{
    let mut cell: Cell<Small> = Cell::new(1, 1, block);
    let _ = cell.admit(&FRAME);
    match cell.lay(&[false]) {
        Ok(slip) => Spare { cell, slip },
        // The recipe was admitted, and the frame has one level.
        Err(_) => unreachable(),
    }
}

// Spends a slip on an open run, which ends.
pub fn finish<S: Setup>(cell: &mut Cell<S>, slip: Slip)
    requires { Kept S.Pixel.Level.kind S.Pixel.Level.meaning S.Selector.Rule.criterion cell.old true }
    ensures { Kept S.Pixel.Level.kind S.Pixel.Level.meaning S.Selector.Rule.criterion cell.new false }
{
    match cell.clear(slip) {
        Ok(()) => {}
        // A run is open.
        Err((_, _slip)) => unreachable(),
    }
}

// What a call with the small cell's slip was refused with; the slip is spent.
pub fn refused(
    cell: &mut Cell<Small>,
    answer: Result<(), (CellFault, Slip)>,
) -> Result<(), CellFault>
    requires open { Kept masks mask least_variance cell.old true }
    requires refused { IsErr answer }
    ensures { IfErr answer (λ e. result ≡ Err e.0) }
{
    match answer {
        Ok(()) => unreachable(),
        Err((fault, slip)) => {
            finish(cell, slip);
            Err(fault)
        }
    }
}

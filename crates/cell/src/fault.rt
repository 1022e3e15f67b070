// Why a call is refused: the cell's fault holds the plan's, which holds the record's.
ghost use Rattle.std.specs.Prelude.{◌≡◌, None};
ghost use Rattle.cell.specs.Refusals.{cell_refusal};
ghost use Rattle.cell.specs.declared.fault.CellFault.TheVariants.{Recipe};

use recipe::fault::{Layer, PlanFault, Refusal};

// A fault of a call.
#[derive(Clone, Copy)]
pub enum CellFault {
    Shut,
    RunOpen,
    NoRecipe,
    NoRun,
    RecordsLeft,
    SmallBlock,
    WrongLength,
    Recipe(PlanFault),
}

impl From<PlanFault> for CellFault {
    ghost from_gives = { λ f r. r ≡ Recipe f };

    fn from(fault: PlanFault) -> CellFault {
        CellFault::Recipe(fault)
    }
}

impl CellFault {
    // What the fault tells: number, layer, and the record where a single one is at fault.
    pub fn refusal(self) -> Refusal
        ensures { result ≡ cell_refusal self }
    {
        match self {
            CellFault::Shut => of_cell(1),
            CellFault::RunOpen => of_cell(2),
            CellFault::NoRecipe => of_cell(3),
            CellFault::NoRun => of_cell(4),
            CellFault::RecordsLeft => of_cell(5),
            CellFault::SmallBlock => of_cell(19),
            CellFault::WrongLength => of_cell(20),
            CellFault::Recipe(fault) => fault.refusal(),
        }
    }
}

fn of_cell(number: u8) -> Refusal
    ensures { result ≡ record { number = number; layer = Layer.Cell; at = None } }
{
    Refusal {
        number,
        layer: Layer::Cell,
        at: None,
    }
}

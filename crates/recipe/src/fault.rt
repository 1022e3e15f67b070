// Why a recipe is refused: the plan's fault holds the record's.
ghost use Rattle.std.specs.Prelude.{◌≡◌, Some};
ghost use Rattle.recipe.specs.Refusals.{record_refusal, plan_refusal};
ghost use Rattle.recipe.specs.declared.fault.PlanFault.TheVariants.{Unreadable};

// A fault of one record, with the record's index.
#[derive(Clone, Copy)]
pub enum RecordFault {
    UnknownKind(usize),
    NotZero(usize),
    BadElement(usize),
}

// A fault of a recipe, with the record's index where a single record is at fault.
#[derive(Clone, Copy)]
pub enum PlanFault {
    BadLength,
    Unreadable(RecordFault),
    Unranked(usize),
    TooFewPlanes(usize),
    FifthPlane(usize),
    PlanesLeft,
}

impl From<RecordFault> for PlanFault {
    ghost from_gives = { λ f r. r ≡ Unreadable f };

    fn from(fault: RecordFault) -> PlanFault {
        PlanFault::Unreadable(fault)
    }
}

// Which part of the stage found a fault.
#[derive(Clone, Copy, PartialEq, Eq)]
pub enum Layer {
    Record,
    Plan,
    Cell,
}

// What a fault tells: the refusal's number, its layer, and the record where a single one is at fault.
#[derive(Clone, Copy)]
pub struct Refusal {
    pub number: u8,
    pub layer: Layer,
    pub at: Option<usize>,
}

impl RecordFault {
    pub fn refusal(self) -> Refusal
        ensures { result ≡ record_refusal self }
    {
        match self {
            RecordFault::UnknownKind(i) => of_record(12, i),
            RecordFault::NotZero(i) => of_record(13, i),
            RecordFault::BadElement(i) => of_record(14, i),
        }
    }
}

impl PlanFault {
    pub fn refusal(self) -> Refusal
        ensures { result ≡ plan_refusal self }
    {
        match self {
            PlanFault::BadLength => of_plan(11, None),
            PlanFault::Unreadable(fault) => fault.refusal(),
            PlanFault::Unranked(i) => of_plan(15, Some(i)),
            PlanFault::TooFewPlanes(i) => of_plan(16, Some(i)),
            PlanFault::FifthPlane(i) => of_plan(17, Some(i)),
            PlanFault::PlanesLeft => of_plan(18, None),
        }
    }
}

fn of_record(number: u8, index: usize) -> Refusal
    ensures { result ≡ record { number = number; layer = Layer.Record; at = Some index } }
{
    Refusal {
        number,
        layer: Layer::Record,
        at: Some(index),
    }
}

fn of_plan(number: u8, at: Option<usize>) -> Refusal
    ensures { result ≡ record { number = number; layer = Layer.Plan; at = at } }
{
    Refusal {
        number,
        layer: Layer::Plan,
        at,
    }
}

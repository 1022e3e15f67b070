// The plan checker: bytes to a plan, record by record.
ghost use Rattle.std.specs.Prelude.{◌≡◌, IfOk};
ghost use Rattle.recipe.specs.Plans.{checked};
ghost use Rattle.recipe.specs.Planned.{sheet_answer, Planned};

use crate::fault::PlanFault;
use crate::plan::Plan;
use crate::read::Record;
use crate::step::Step;
use crate::table::Table;

impl Plan {
    // Checks a recipe for levels that are ranked or not: the first fault stops.
    pub fn check(bytes: &[u8], ranked: bool) -> Result<Plan, PlanFault>
        ensures answer { sheet_answer result ≡ checked ranked bytes.now }
        ensures plan { IfOk result (Planned ranked bytes.now) }
    {
        let length = bytes.len();
        if (length < 8) | (length > 512) | (length % 8 != 0) {
            return Err(PlanFault::BadLength);
        }
        let (records, _) = bytes.as_chunks::<8>();
        let mut steps = [Step::Frame; 64];
        let mut table = Table::new();
        for (i, record) in records.iter().enumerate() {
            let step = Record { bytes: *record }.read(i)?;
            table.place(step, ranked, i)?;
            steps[i] = step;
        }
        if table.depth > 1 {
            return Err(PlanFault::PlanesLeft);
        }
        Ok(Plan {
            steps,
            count: records.len(),
            ranked,
            sheet: table.sheet(),
        })
    }
}

// A recipe's sheet, for C.
ghost use Rattle.std.specs.Prelude.{◌≡◌, true};
ghost use Rattle.recipe.specs.Plans.{checked, mapped};
ghost use Rattle.controller.specs.Runs.{Told};
ghost use Rattle.controller.specs.Written.{mark_bits, sheet_bytes};

use recipe::entry::Marks;
use recipe::plan::Plan;

// The marks as bits, in the order of their letters.
fn bits(marks: Marks) -> u8
    ensures { result ≡ mark_bits marks }
{
    u8::from(marks.below)
        + 2 * u8::from(marks.above)
        + 4 * u8::from(marks.keeps)
        + 8 * u8::from(marks.turns)
        + 16 * u8::from(marks.settles)
        + 32 * u8::from(marks.within)
}

/// Checks a recipe, for levels that have ranks, and writes its sheet: planes, reach, marks as bits.
#[unsafe(no_mangle)]
pub extern "C" fn recipe_stage_sheet(recipe: &[u8], sheet: &mut [u8; 3]) -> u32
    ensures { Told (λ byte. byte) (mapped sheet_bytes (checked true recipe.now)) sheet.old sheet.new result }
{
    match Plan::check(recipe, true) {
        Ok(plan) => {
            let told = plan.sheet;
            *sheet = [told.planes as u8, told.reach, bits(told.marks)];
            0
        }
        Err(fault) => u32::from(fault.refusal().number),
    }
}

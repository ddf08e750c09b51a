// Clear.
ghost use Rattle.sheet.specs.Calls as spec;
ghost use Rattle.sheet.specs.Calls.{Leaves};

use crate::types::{Changed, Sheet};

// "Clear empties."
pub fn clear(sheet: Sheet) -> Changed
    ensures { Leaves (spec.clear sheet) result.answer result.sheet }
{
    Changed {
        answer: Ok(()),
        sheet: Sheet::empty(),
    }
}

// The refusals of a plan's text from the state: 11, 15 and 13.
ghost use Rattle.std.specs.Prelude.{◌≡◌};
ghost use Rattle.ints.specs.Refusals.{refused_by};
ghost use Rattle.sheet.specs.Sheet.{is_empty};
ghost use Rattle.sheet_text.specs.inner.Shown.{text_refusal};

use ints::refusal::Refusal;
use plan::data::Plan;
use sheet::refusals::check_draw;
use sheet::types::Stage;

fn is_empty(stage: Stage) -> bool
    ensures { result ≡ is_empty stage }
{
    match stage {
        Stage::Empty => true,
        Stage::Loaded(_, _) => false,
        Stage::Drawn(_, _, _) => false,
    }
}

// What text line and whole text are refused by before 7 and 14. 15 "comes after 11 and before 13".
pub fn check_text(
    stage: Stage,
    tangled: bool,
    plan: Plan,
    remembered: [u16; Plan::MAX_VERTICES],
) -> Result<(), Refusal>
    ensures { refused_by result ≡ text_refusal stage tangled plan remembered }
{
    if is_empty(stage) {
        return Err(Refusal::Empty);
    }
    if !tangled {
        return Err(Refusal::Untangled);
    }
    check_draw(stage, plan, remembered)
}

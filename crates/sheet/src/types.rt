// A sheet and what its calls answer.
ghost use Rattle.std.specs.Prelude.{◌≡◌};
ghost use Rattle.sheet.specs.Sheet.{empty_sheet};

use ints::refusal::Refusal;
use plan::data::Plan;
use report::data::Drawing;

// "its stage: empty, loaded (with its vertex and segment counts), or drawn (with these and the count of placings)"
#[derive(Clone, Copy)]
pub enum Stage {
    Empty,
    Loaded(usize, usize),
    Drawn(usize, usize, usize),
}

// The stage, and the way of loading: `tangled` if it was the second, which rearranges a plan.
#[derive(Clone, Copy)]
pub struct Header {
    pub stage: Stage,
    pub tangled: bool,
}

#[derive(Clone, Copy)]
pub struct Sheet {
    pub header: Header,
    pub plan: Plan,
    pub drawing: Drawing,
    // "each vertex's number in the text"
    pub remembered: [u16; Plan::MAX_VERTICES],
}

impl Sheet {
    // The one empty sheet.
    pub fn empty() -> Self
        ensures { result ≡ empty_sheet }
    {
        Self {
            header: Header {
                stage: Stage::Empty,
                tangled: false,
            },
            plan: Plan::empty(),
            drawing: Drawing::empty(),
            remembered: [0u16; Plan::MAX_VERTICES],
        }
    }
}

// What load, draw and clear answer, beside the sheet afterwards.
#[derive(Clone, Copy)]
pub struct Changed {
    pub answer: Result<(), Refusal>,
    pub sheet: Sheet,
}

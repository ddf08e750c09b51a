// A drawing in arrays, and the counts of what is in arrays.
ghost use Rattle.std.specs.Prelude.{◌≡◌};
ghost use Rattle.report.specs.Arrays.{arrays_of, no_drawing};

use plan::data::Plan;

// Preliminary and final position of each vertex, in half steps; of each placing its pass, its level and how many boxes it has; the
// boxes of all placings one after another, each with its vertex and its position after. How many vertices and placings there are
// is the stage's to say; what lies beyond is no part of the drawing.
#[derive(Clone, Copy)]
pub struct Drawing {
    pub preliminary: [i64; Plan::MAX_VERTICES],
    pub finals: [i64; Plan::MAX_VERTICES],
    pub passes: [u16; Drawing::MAX_LISTED],
    pub levels: [u16; Drawing::MAX_LISTED],
    pub counts: [u16; Drawing::MAX_LISTED],
    pub vertices: [u16; Drawing::MAX_LISTED],
    pub positions: [i64; Drawing::MAX_LISTED],
}

impl Drawing {
    pub const MAX_LISTED: usize = 2048;

    // 0 throughout.
    pub fn empty() -> Self
        ensures { result ≡ arrays_of no_drawing }
    {
        Self {
            preliminary: [0; Plan::MAX_VERTICES],
            finals: [0; Plan::MAX_VERTICES],
            passes: [0; Drawing::MAX_LISTED],
            levels: [0; Drawing::MAX_LISTED],
            counts: [0; Drawing::MAX_LISTED],
            vertices: [0; Drawing::MAX_LISTED],
            positions: [0; Drawing::MAX_LISTED],
        }
    }
}

// How many vertices, segments and placings there are.
#[derive(Clone, Copy)]
pub struct Counts {
    pub vertices: usize,
    pub segments: usize,
    pub placings: usize,
}

// A drawing just made, and how many placings it lists.
#[derive(Clone, Copy)]
pub struct NewDrawing {
    pub drawing: Drawing,
    pub placings: usize,
}

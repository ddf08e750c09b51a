// A plan as it is stored: document 01's limits, and the arrays that they bound.
ghost use Rattle.std.specs.Prelude.{◌≡◌};
ghost use Rattle.plan.specs.Stored.{stored_plan, empty_plan};

// The vertices are numbered from 0 in reading order. Of each level `sizes` has how many vertices stand on it; of each vertex
// `vias` has whether it is a via and `halves` its half-width; of each segment `uppers` and `lowers` have its ends A and B,
// `ratings` its rating.
// How many vertices and segments there are is the stage's to say; what lies beyond is no part of the plan.
#[derive(Clone, Copy)]
pub struct Plan {
    pub levels: u32,
    pub gap: u32,
    pub spacing: u32,
    pub sizes: [u16; Plan::MAX_LEVELS],
    pub vias: [bool; Plan::MAX_VERTICES],
    pub halves: [u16; Plan::MAX_VERTICES],
    pub uppers: [u32; Plan::MAX_SEGMENTS],
    pub lowers: [u32; Plan::MAX_SEGMENTS],
    pub ratings: [u32; Plan::MAX_SEGMENTS],
}

impl Plan {
    pub const MAX_LEVELS: usize = 64;

    pub const MAX_GAP: u32 = 100;

    pub const MAX_SPACING: u32 = 10000;

    pub const MAX_HALF_WIDTH: u32 = 200;

    pub const MAX_ON_LEVEL: usize = 64;

    pub const MAX_VERTICES: usize = 1024;

    pub const MAX_SEGMENTS: usize = 2048;

    pub const MAX_RATING: u32 = 100;

    // The plan with these parts.
    pub fn new(
        levels: u32,
        gap: u32,
        spacing: u32,
        sizes: [u16; Plan::MAX_LEVELS],
        vias: [bool; Plan::MAX_VERTICES],
        halves: [u16; Plan::MAX_VERTICES],
        uppers: [u32; Plan::MAX_SEGMENTS],
        lowers: [u32; Plan::MAX_SEGMENTS],
        ratings: [u32; Plan::MAX_SEGMENTS],
    ) -> Self
        ensures { result ≡ stored_plan levels gap spacing sizes vias halves uppers lowers ratings }
    {
        Self {
            levels,
            gap,
            spacing,
            sizes,
            vias,
            halves,
            uppers,
            lowers,
            ratings,
        }
    }

    // 0 throughout.
    #[tactic(auto, unfolding(crate::specs::Stored::empty_plan))]
    pub fn empty() -> Self
        ensures { result ≡ empty_plan }
    {
        Plan::new(
            0,
            0,
            0,
            [0; Plan::MAX_LEVELS],
            [false; Plan::MAX_VERTICES],
            [0; Plan::MAX_VERTICES],
            [0; Plan::MAX_SEGMENTS],
            [0; Plan::MAX_SEGMENTS],
            [0; Plan::MAX_SEGMENTS],
        )
    }
}

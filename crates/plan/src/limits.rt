// Whether a plan's numbers are within document 01's limits.
ghost use Rattle.std.specs.Prelude.{◌≡◌, ◌&&◌, leb};
ghost use Rattle.ints.specs.Ratings.{max_rating};
ghost use Rattle.plan.specs.Limits.{within, max_levels, max_gap, max_spacing, max_half_width, max_on_level};

use crate::data::Plan;
use crate::numbers::in_range;

// "K 1 to 64; G 1 to 100; S 1 to 10,000"
pub fn numbers_fit(levels: u32, gap: u32, spacing: u32) -> bool
    ensures { result ≡ (within 1 max_levels levels && within 1 max_gap gap && within 1 max_spacing spacing) }
{
    in_range(1, Plan::MAX_LEVELS as u32, levels)
        && in_range(1, Plan::MAX_GAP, gap)
        && in_range(1, Plan::MAX_SPACING, spacing)
}

// "half-width 1 to 200"
pub fn half_width_fits(half: u32) -> bool
    ensures { result ≡ within 1 max_half_width half }
{
    in_range(1, Plan::MAX_HALF_WIDTH, half)
}

// A rating of at most 100, and of at least what is asked for.
pub fn rating_fits(least: u32, rating: u32) -> bool
    ensures { result ≡ within least max_rating rating }
{
    in_range(least, Plan::MAX_RATING, rating)
}

// "at most 64 vertices on a level", and each of them fits.
pub fn row_fits(count: usize, fit: bool) -> bool
    ensures { result ≡ (leb count max_on_level && fit) }
{
    count <= Plan::MAX_ON_LEVEL && fit
}

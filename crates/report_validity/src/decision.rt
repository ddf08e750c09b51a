// Refusal 13, of a plan: whether it is that of a text that passes checks 1 to 6. No text is written: a plan is that of a text
// exactly if its data are within the limits and pass checks 3 to 6.
ghost use Rattle.std.specs.Prelude.{◌≡◌, ◌&&◌};
ghost use Rattle.ints.specs.Ratings.{all_ratings};
ghost use Rattle.plan.specs.Limits.{within, max_on_level};
ghost use Rattle.plan.specs.Checks.{every};
ghost use Rattle.plan.specs.Acceptable.{half_holds, halves_hold, limits_hold, acceptable};
ghost use Rattle.plan.specs.Plan.{data_of};
ghost use Rattle.report.specs.Refusal13.{is_stored_plan};

use ints::total;
use plan::data::Plan;
use plan::limits::{half_width_fits, numbers_fit, rating_fits};
use plan_checks::checks::check_plan;

fn size_holds(n: u16) -> bool
    ensures { result ≡ within 1 max_on_level n }
{
    1 <= n && n <= Plan::MAX_ON_LEVEL as u16
}

// "at most 64 vertices on a level", and at least one.
fn sizes_hold(sizes: &[u16]) -> bool
    ensures { result ≡ every (within 1 max_on_level) sizes.now }
{
    sizes.iter().all(|n| size_holds(*n))
}

// A box's half-width is "1 to 200", a via's is 0.
fn half_holds(via: bool, half: u16) -> bool
    ensures { result ≡ half_holds via half }
{
    if via {
        half == 0
    } else {
        half_width_fits(u32::from(half))
    }
}

// Each vertex has its half-width.
fn halves_hold(vias: &[bool], halves: &[u16]) -> bool
    ensures { result ≡ halves_hold vias.now halves.now }
{
    vias.len() == halves.len()
        && vias
            .iter()
            .zip(halves)
            .all(|(via, half)| half_holds(*via, *half))
}

// Each rating is from 1 to 100.
fn ratings_hold(ratings: &[u32]) -> bool
    ensures { result ≡ all_ratings ratings.now }
{
    ratings.iter().all(|w| rating_fits(1, *w))
}

// Every number and count is within its limit, and the counts agree.
fn limits_hold(
    levels: u32,
    gap: u32,
    spacing: u32,
    sizes: &[u16],
    vias: &[bool],
    halves: &[u16],
    uppers: &[u32],
    lowers: &[u32],
    ratings: &[u32],
) -> bool
    ensures { result ≡ limits_hold (data_of levels gap spacing sizes.now vias.now halves.now
        uppers.now lowers.now ratings.now) }
{
    if !numbers_fit(levels, gap, spacing) {
        return false;
    }
    if sizes.len() != levels as usize {
        return false;
    }
    if !sizes_hold(sizes) {
        return false;
    }
    if total(sizes) != vias.len() {
        return false;
    }
    if !halves_hold(vias, halves) {
        return false;
    }
    if lowers.len() != uppers.len() {
        return false;
    }
    if ratings.len() != uppers.len() {
        return false;
    }
    if !ratings_hold(ratings) {
        return false;
    }
    vias.len() <= Plan::MAX_VERTICES && uppers.len() <= Plan::MAX_SEGMENTS
}

// Whether data in slices as long as the data are those of a text.
pub fn is_acceptable(
    levels: u32,
    gap: u32,
    spacing: u32,
    sizes: &[u16],
    vias: &[bool],
    halves: &[u16],
    uppers: &[u32],
    lowers: &[u32],
    ratings: &[u32],
) -> bool
    ensures { result ≡ acceptable (data_of levels gap spacing sizes.now vias.now halves.now
        uppers.now lowers.now ratings.now) }
{
    if !limits_hold(
        levels, gap, spacing, sizes, vias, halves, uppers, lowers, ratings,
    ) {
        return false;
    }
    check_plan(sizes, vias, uppers, lowers).is_ok()
}

// 13, of a plan with the stage's numbers of vertices and segments, which may be any: whether it is that of a text.
pub fn is_plan_of_text(plan: Plan, vertices: usize, segments: usize) -> bool
    ensures { result ≡ is_stored_plan plan vertices segments }
{
    let k = plan.levels as usize;
    if Plan::MAX_LEVELS < k {
        return false;
    }
    if Plan::MAX_VERTICES < vertices {
        return false;
    }
    if Plan::MAX_SEGMENTS < segments {
        return false;
    }
    let sizes = plan.sizes;
    let vias = plan.vias;
    let halves = plan.halves;
    let uppers = plan.uppers;
    let lowers = plan.lowers;
    let ratings = plan.ratings;
    is_acceptable(
        plan.levels,
        plan.gap,
        plan.spacing,
        &sizes[..k],
        &vias[..vertices],
        &halves[..vertices],
        &uppers[..segments],
        &lowers[..segments],
        &ratings[..segments],
    )
}

// Checks 3 and 4 of document 01, over slices that are as long as the data, and checks 3 to 6 in this order. Each stops at the first
// that fails.
ghost use Rattle.std.specs.Prelude.{◌≡◌, Bool, List, ℕ, length};
ghost use Rattle.ints.specs.Refusals.{first_refusal, refused_by};
ghost use Rattle.plan.specs.Checks.{check3, check4, checks_of};
ghost use Rattle.plan.specs.inner.Graph.{graph_of, Levelled, InLimits};

use crate::levels::levels;
use crate::vias::check_vias;
use ints::refusal::Refusal;
use plan::data::Plan;
use plan::questions::{comes_before, one_down};
use plan_walks::check_inner;

// 3: the ends of each segment are vertices, B one level below A. `level` has the level of every vertex.
pub fn check_ends(level: &[u16], uppers: &[u32], lowers: &[u32]) -> bool
    requires { length uppers.now ≡ length lowers.now }
    ensures { (sizes : List ℕ) (vias : List Bool) → Levelled sizes level.now → length vias ≡ length level.now
        → result ≡ check3 (graph_of sizes vias uppers.now lowers.now) }
{
    uppers
        .iter()
        .zip(lowers)
        .all(|(a, b)| one_down(level, *a, *b))
}

// 4: segments strictly rising by A, then B.
pub fn check_order(uppers: &[u32], lowers: &[u32]) -> bool
    requires { length uppers.now ≡ length lowers.now }
    ensures { (sizes : List ℕ) (vias : List Bool) → result ≡ check4 (graph_of sizes vias uppers.now lowers.now) }
{
    for i in 1..uppers.len() {
        if !comes_before(uppers[i - 1], lowers[i - 1], uppers[i], lowers[i]) {
            return false;
        }
    }
    true
}

// 3, with the level of every vertex worked out first.
pub fn check_levels(sizes: &[u16], vias: &[bool], uppers: &[u32], lowers: &[u32]) -> bool
    requires { InLimits sizes.now vias.now uppers.now lowers.now }
    ensures { result ≡ check3 (graph_of sizes.now vias.now uppers.now lowers.now) }
{
    let mut level = [0u16; Plan::MAX_VERTICES];
    let n = vias.len();
    levels(sizes, &mut level[..n]);
    check_ends(&level[..n], uppers, lowers)
}

// Checks 3 to 6 in this order: the first that fails refuses.
pub fn check_plan(
    sizes: &[u16],
    vias: &[bool],
    uppers: &[u32],
    lowers: &[u32],
) -> Result<(), Refusal>
    requires { InLimits sizes.now vias.now uppers.now lowers.now }
    ensures { refused_by result ≡ first_refusal (checks_of (graph_of sizes.now vias.now uppers.now lowers.now)) }
{
    if !check_levels(sizes, vias, uppers, lowers) {
        return Err(Refusal::Ends);
    }
    if !check_order(uppers, lowers) {
        return Err(Refusal::Order);
    }
    if !check_vias(vias, uppers, lowers) {
        return Err(Refusal::Via);
    }
    if !check_inner(vias, uppers, lowers) {
        return Err(Refusal::Crossing);
    }
    Ok(())
}

// The walk between two neighbouring levels of a text's plan (document 02, E3).
#![tactic(auto)]

ghost use Rattle.std.specs.Prelude.{◌≡◌, true, ◌≤◌, length};
ghost use Rattle.ints.specs.Refusals.{verdict_of};
ghost use Rattle.plan.specs.Limits.{max_levels};
ghost use Rattle.plan.specs.Checks.{check4};
ghost use Rattle.plan.specs.inner.Graph.{graph_of, Within};
ghost use Rattle.text.specs.Reading.{accepted};
ghost use Rattle.text_walk.specs.Walks.{walk_of, text_walk};

use ints::refusal::Refusal;
use plan::data::Plan;
use plan::walk::Walk;
use plan_walks::walk_from;
use text_read::{read_into, tangled_verdict};

// The walk from level l of a plan that passes checks 1 to 5.
fn walk_plan(
    sizes: &[u16],
    vias: &[bool],
    uppers: &[u32],
    lowers: &[u32],
    l: usize,
) -> Result<Walk, Refusal>
    requires { (length sizes.now ≤ max_levels) × Within vias.now uppers.now lowers.now
        × (check4 (graph_of sizes.now vias.now uppers.now lowers.now) ≡ true) }
    ensures { verdict_of result ≡ walk_of l (accepted (graph_of sizes.now vias.now uppers.now lowers.now)) }
{
    if l == 0 {
        return Err(Refusal::Missing);
    }
    if sizes.len() <= l {
        return Err(Refusal::Missing);
    }
    Ok(walk_from(sizes, vias, uppers, lowers, l))
}

// The walk from level l of a text's plan to the next, if the text passes checks 1 to 5 and there are two such levels.
pub fn walk_text(l: usize, text: &[u8]) -> Result<Walk, Refusal>
    ensures { verdict_of result ≡ text_walk l text.now }
{
    let mut sizes = [0u16; Plan::MAX_LEVELS];
    let mut vias = [false; Plan::MAX_VERTICES];
    let mut halves = [0u16; Plan::MAX_VERTICES];
    let mut uppers = [0u32; Plan::MAX_SEGMENTS];
    let mut lowers = [0u32; Plan::MAX_SEGMENTS];
    let mut ratings = [0u32; Plan::MAX_SEGMENTS];
    let r = read_into(
        text,
        &mut sizes,
        &mut vias,
        &mut halves,
        &mut uppers,
        &mut lowers,
        &mut ratings,
    );
    tangled_verdict(r.verdict)?;
    let s = r.scanned;
    let k = s.levels as usize;
    let v = s.vertices;
    let e = s.segments;
    walk_plan(&sizes[..k], &vias[..v], &uppers[..e], &lowers[..e], l)
}

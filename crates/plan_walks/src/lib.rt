// The walk from a level to the next (document 02, E3), and check 6 of document 01 as that walk over all levels; over slices that are
// as long as the data.
#![tactic(auto)]

ghost use Rattle.std.specs.Prelude.{◌≡◌, true, false, ◌&&◌, List, ℕ, ◌<◌, ◌≤◌, length, get_or};
ghost use Rattle.plan.specs.Limits.{max_levels};
ghost use Rattle.plan.specs.Checks.{check3, check4, check6};
ghost use Rattle.plan.specs.Walk.{walk};
ghost use Rattle.plan.specs.inner.Graph.{graph_of, Within};
ghost use Rattle.plan_walks.specs.inner.Walks.{after, ahead, walk_to};

use ints::total;
use plan::walk::Walk;

// Whether the segment from a to b joins two vias.
fn is_inner(vias: &[bool], a: u32, b: u32) -> bool
    requires { (a < length vias.now) × (b < length vias.now) }
    ensures { result ≡ (get_or vias.now a false && get_or vias.now b false) }
{
    let upper = a as usize;
    let lower = b as usize;
    vias[upper] && vias[lower]
}

// The walk over the inner segments from place `from` on, up to the first segment whose upper end does not come before `end`. It stops
// at the first descent.
fn walk_to(vias: &[bool], uppers: &[u32], lowers: &[u32], from: usize, end: usize) -> Walk
    requires { Within vias.now uppers.now lowers.now }
    ensures { result ≡ walk_to vias.now uppers.now lowers.now from end }
{
    let mut taken: usize = 0;
    let mut last: u32 = 0;
    for i in from..uppers.len() {
        let upper = uppers[i];
        let lower = lowers[i];
        if end <= upper as usize {
            return Walk {
                crossed: false,
                taken,
            };
        }
        let inner = is_inner(vias, upper, lower);
        if inner && lower < last {
            return Walk {
                crossed: true,
                taken: taken + 1,
            };
        }
        if inner {
            taken += 1;
            last = lower;
        }
    }
    Walk {
        crossed: false,
        taken,
    }
}

// An end that no u32 reaches: where it is given, the compiler leaves the test of the end out.
const NO_END: usize = 1 << 32;

// 6: no two inner segments between the same levels have their ends in opposite orders. That is so exactly if the walk, level after
// level, comes to no descent; it need not begin anew on each level, since by check 3 no segment of a level descends from one of the
// level above.
pub fn check_inner(vias: &[bool], uppers: &[u32], lowers: &[u32]) -> bool
    requires { Within vias.now uppers.now lowers.now }
    ensures { (sizes : List ℕ) → check3 (graph_of sizes vias.now uppers.now lowers.now) ≡ true
        → check4 (graph_of sizes vias.now uppers.now lowers.now) ≡ true
        → result ≡ check6 (graph_of sizes vias.now uppers.now lowers.now) }
{
    let walk = walk_to(vias, uppers, lowers, 0, NO_END);
    !walk.crossed
}

// How many segments at the front have an upper end before `end`.
fn count_before(uppers: &[u32], end: usize) -> usize
    ensures { (lowers : List ℕ) → length uppers.now ≡ length lowers → result ≡ length (ahead end (after uppers.now lowers 0)) }
{
    uppers
        .iter()
        .take_while(|upper| (**upper as usize) < end)
        .count()
}

// The walk from level l to the next.
pub fn walk_from(sizes: &[u16], vias: &[bool], uppers: &[u32], lowers: &[u32], l: usize) -> Walk
    requires { (1 ≤ l) × (l ≤ length sizes.now) × (length sizes.now ≤ max_levels) × Within vias.now uppers.now lowers.now }
    ensures { check4 (graph_of sizes.now vias.now uppers.now lowers.now) ≡ true
        → result ≡ walk (graph_of sizes.now vias.now uppers.now lowers.now) l }
{
    let start = total(&sizes[..l - 1]);
    let end = total(&sizes[..l]);
    let from = count_before(uppers, start);
    walk_to(vias, uppers, lowers, from, end)
}

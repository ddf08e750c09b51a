// The arrays of a tangled plan made those of the untangled plan.
ghost use Rattle.std.specs.Prelude.{◌≡◌};
ghost use Rattle.plan.specs.Plan.{PlanData};
ghost use Rattle.plan_untangle.specs.inner.Ordering.{Tangled, SomeTangled};
ghost use Rattle.plan_untangle.specs.inner.Arrays.{Rooms, Widths, Untangles};

use crate::order::order;
use plan::data::Plan;
use plan_renumber::whole::renumber;

// `turn`, `upper`, `places`, `codes`, `keys` and `flags` are room to work in.
fn untangle_by(
    sizes: &[u16],
    vias: &mut [bool],
    halves: &mut [u16],
    uppers: &mut [u32],
    lowers: &mut [u32],
    ratings: &mut [u32],
    numbers: &mut [u16],
    turn: &mut [u16],
    upper: &mut [u16],
    places: &mut [u16],
    codes: &mut [u32],
    keys: &mut [u32],
    flags: &mut [bool],
)
    requires { SomeTangled sizes.now vias.old uppers.old lowers.old
        × Rooms vias.old halves.old uppers.old ratings.old numbers.old turn.old upper.old places.old codes.old keys.old flags.old }
    ensures { (p : PlanData) → Tangled p sizes.now vias.old uppers.old lowers.old → p.halves ≡ halves.old
        → p.ratings ≡ ratings.old
        → Untangles p numbers.new vias.new halves.new uppers.new lowers.new ratings.new }
{
    order(
        sizes, vias, uppers, lowers, numbers, turn, upper, places, codes,
    );
    renumber(
        numbers, vias, halves, uppers, lowers, ratings, turn, flags, places, keys,
    );
}

// Untangles a plan that passes all checks but 6: its vertices are renumbered, its segments sorted anew, each with its rating, and
// `numbers` is left with the number in the text of each vertex.
pub fn untangle(
    sizes: &[u16],
    vias: &mut [bool],
    halves: &mut [u16],
    uppers: &mut [u32],
    lowers: &mut [u32],
    ratings: &mut [u32],
    numbers: &mut [u16],
)
    requires { SomeTangled sizes.now vias.old uppers.old lowers.old × Widths vias.old halves.old uppers.old ratings.old numbers.old }
    ensures { (p : PlanData) → Tangled p sizes.now vias.old uppers.old lowers.old → p.halves ≡ halves.old
        → p.ratings ≡ ratings.old
        → Untangles p numbers.new vias.new halves.new uppers.new lowers.new ratings.new }
{
    let mut turn = [0u16; Plan::MAX_VERTICES];
    let mut upper = [0u16; Plan::MAX_VERTICES];
    let mut places = [0u16; Plan::MAX_VERTICES];
    let mut codes = [0u32; Plan::MAX_VERTICES];
    let mut keys = [0u32; Plan::MAX_SEGMENTS];
    let mut flags = [false; Plan::MAX_VERTICES];
    let n = vias.len();
    let e = uppers.len();
    untangle_by(
        sizes,
        vias,
        halves,
        uppers,
        lowers,
        ratings,
        numbers,
        &mut turn[..n],
        &mut upper[..n],
        &mut places[..n],
        &mut codes[..n],
        &mut keys[..e],
        &mut flags[..n],
    );
}

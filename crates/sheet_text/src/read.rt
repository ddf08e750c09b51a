// The plan as it was read: the stored plan in its remembered numbers.
ghost use Rattle.std.specs.Prelude.{◌≡◌, true};
ghost use Rattle.plan.specs.Plan.{PlanData};
ghost use Rattle.plan_renumber.specs.Renumber.{inverse, renumbered};
ghost use Rattle.plan_renumber.specs.inner.Words.{Lists};
ghost use Rattle.sheet_data.specs.inner.Parts.{is_plan_with, are_own_with};
ghost use Rattle.sheet_text.specs.inner.Read.{Numbered, AsRead};

use plan::data::Plan;
use plan_renumber::invert;
use plan_renumber::whole::renumber;
use report::data::Counts;

// Gives each vertex of a plan's arrays its remembered number.
fn number_back(
    remembered: &[u16],
    vias: &mut [bool],
    halves: &mut [u16],
    uppers: &mut [u32],
    lowers: &mut [u32],
    ratings: &mut [u32],
)
    requires { Numbered remembered.now vias.old halves.old uppers.old lowers.old ratings.old }
    ensures { (p : PlanData) → Lists p vias.old halves.old uppers.old lowers.old ratings.old
        → Lists (renumbered p (inverse remembered.now)) vias.new halves.new uppers.new lowers.new ratings.new }
{
    let v = remembered.len();
    let e = uppers.len();
    let mut m = [0u16; Plan::MAX_VERTICES];
    invert(remembered, &mut m[..v]);
    let mut spare = [0u16; Plan::MAX_VERTICES];
    let mut flags = [false; Plan::MAX_VERTICES];
    let mut places = [0u16; Plan::MAX_VERTICES];
    let mut codes = [0u32; Plan::MAX_SEGMENTS];
    renumber(
        &m[..v],
        vias,
        halves,
        uppers,
        lowers,
        ratings,
        &mut spare[..v],
        &mut flags[..v],
        &mut places[..v],
        &mut codes[..e],
    );
}

// The plan as it was read, of a plan and remembered numbers that are not refused.
pub fn as_read(plan: Plan, remembered: [u16; Plan::MAX_VERTICES], counts: Counts) -> Plan
    requires { (is_plan_with plan counts ≡ true) × (are_own_with plan remembered counts ≡ true) }
    ensures { AsRead plan remembered counts result }
{
    let v = counts.vertices;
    let e = counts.segments;
    let sizes = plan.sizes;
    let mut vias = plan.vias;
    let mut halves = plan.halves;
    let mut uppers = plan.uppers;
    let mut lowers = plan.lowers;
    let mut ratings = plan.ratings;
    number_back(
        &remembered[..v],
        &mut vias[..v],
        &mut halves[..v],
        &mut uppers[..e],
        &mut lowers[..e],
        &mut ratings[..e],
    );
    Plan::new(
        plan.levels,
        plan.gap,
        plan.spacing,
        sizes,
        vias,
        halves,
        uppers,
        lowers,
        ratings,
    )
}

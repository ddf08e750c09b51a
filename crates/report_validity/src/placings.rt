// Each listed placing.
ghost use Rattle.std.specs.Prelude.{◌≡◌, ◌&&◌, ◌≤◌, length};
ghost use Rattle.ints.specs.Lists.{sum};
ghost use Rattle.plan.specs.Limits.{within};
ghost use Rattle.plan.specs.Plan.{PlanData};
ghost use Rattle.report_validity.specs.inner.Stored.{OfPlan, StoredLevels};
ghost use Rattle.report_validity.specs.inner.Tests.{is_run_on, are_placings};

use crate::runs::is_run;

// "a listed pass other than 1 to 3"
fn is_pass(q: u16) -> bool
    ensures { result ≡ within 1 3 q }
{
    1 <= q && q <= 3
}

fn is_placing(sizes: &[u16], vias: &[bool], pass: u16, level: u16, boxes: &[u16]) -> bool
    requires { StoredLevels sizes.now vias.now }
    ensures { (p : PlanData) → OfPlan p sizes.now vias.now → result ≡ (within 1 3 pass && is_run_on p level boxes.now) }
{
    if !is_pass(pass) {
        return false;
    }
    is_run(sizes, vias, usize::from(level), boxes)
}

// The boxes of all placings lie one after another.
pub fn are_placings(
    sizes: &[u16],
    vias: &[bool],
    passes: &[u16],
    levels: &[u16],
    counts: &[u16],
    vertices: &[u16],
) -> bool
    requires { StoredLevels sizes.now vias.now × (length levels.now ≡ length passes.now) × (length counts.now ≡ length passes.now) × (sum counts.now ≤ length vertices.now) }
    ensures { (p : PlanData) → OfPlan p sizes.now vias.now
        → result ≡ are_placings p passes.now levels.now counts.now vertices.now }
{
    let mut at: usize = 0;
    for (i, pass) in passes.iter().enumerate() {
        let end = at + usize::from(counts[i]);
        if !is_placing(sizes, vias, *pass, levels[i], &vertices[at..end]) {
            return false;
        }
        at = end;
    }
    true
}

// Whether a drawing that was handed in is one that line and mark do not refuse.
ghost use Rattle.std.specs.Prelude.{◌≡◌};
ghost use Rattle.plan.specs.Plan.{PlanData};
ghost use Rattle.report_validity.specs.inner.Stored.{is_stored_drawing, OfPlan, StoredLevels, StoredList};

use crate::placings::are_placings;
use ints::total;
use ints::within::all_within;

// "more than 2,048 placings or boxes in the placings"
const MAX_LISTED: usize = 2048;

pub fn is_drawing(
    sizes: &[u16],
    vias: &[bool],
    preliminary: &[i64],
    finals: &[i64],
    passes: &[u16],
    levels: &[u16],
    counts: &[u16],
    vertices: &[u16],
    positions: &[i64],
) -> bool
    requires { StoredLevels sizes.now vias.now × StoredList passes.now levels.now counts.now vertices.now positions.now }
    ensures { (p : PlanData) → OfPlan p sizes.now vias.now → result ≡ is_stored_drawing p
        preliminary.now finals.now passes.now levels.now counts.now vertices.now positions.now }
{
    let n = total(counts);
    if MAX_LISTED < n {
        return false;
    }
    if !all_within(preliminary) {
        return false;
    }
    if !all_within(finals) {
        return false;
    }
    if !all_within(&positions[..n]) {
        return false;
    }
    are_placings(sizes, vias, passes, levels, counts, vertices)
}

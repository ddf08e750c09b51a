// "a placing whose level and boxes are no nonempty run of the plan"
ghost use Rattle.std.specs.Prelude.{◌≡◌, ◌+◌, ◌≤◌, ◌<◌, length, take};
ghost use Rattle.ints.specs.Lists.{sum};
ghost use Rattle.plan.specs.Limits.{max_vertices};
ghost use Rattle.plan.specs.Plan.{PlanData, numbers};
ghost use Rattle.report.specs.Refusal13.{same_numbers};
ghost use Rattle.report_validity.specs.inner.Stored.{OfPlan, StoredLevels};
ghost use Rattle.report_validity.specs.inner.Tests.{starts_run, is_whole, is_run_on};

use pass_tables::runs::run_end;

// How many vertices stand on the first n levels.
fn vertices_before(sizes: &[u16], n: usize) -> usize
    requires { (n ≤ length sizes.now) × (sum sizes.now ≤ max_vertices) }
    ensures { result ≡ sum (take n sizes.now) }
{
    sizes[..n].iter().map(|s| usize::from(*s)).sum()
}

// Whether these vertices are first, first + 1 and so on.
fn is_stretch(boxes: &[u16], first: usize) -> bool
    requires { first + length boxes.now ≤ max_vertices }
    ensures { result ≡ same_numbers boxes.now (numbers first (length boxes.now)) }
{
    boxes
        .iter()
        .enumerate()
        .all(|(i, b)| usize::from(*b) == first + i)
}

fn starts_run(vias: &[bool], start: usize, first: usize) -> bool
    requires { (start ≤ first) × (first < length vias.now) }
    ensures { result ≡ starts_run vias.now start first }
{
    first == start || vias[first - 1]
}

// Whether a run with `count` boxes starts at `first`, on a level from `start` up to `to`.
fn is_whole(vias: &[bool], start: usize, to: usize, first: usize, count: usize) -> bool
    requires { to ≤ length vias.now }
    ensures { result ≡ is_whole vias.now start to first count }
{
    if first < start {
        return false;
    }
    if first >= to {
        return false;
    }
    if !starts_run(vias, start, first) {
        return false;
    }
    run_end(vias, first, to) - first == count
}

// Whether these vertices are the boxes of a nonempty run on that level.
pub fn is_run(sizes: &[u16], vias: &[bool], level: usize, boxes: &[u16]) -> bool
    requires { StoredLevels sizes.now vias.now }
    ensures { (p : PlanData) → OfPlan p sizes.now vias.now → result ≡ is_run_on p level boxes.now }
{
    if boxes.is_empty() {
        return false;
    }
    if level == 0 {
        return false;
    }
    if sizes.len() < level {
        return false;
    }
    let start = vertices_before(sizes, level - 1);
    let to = start + usize::from(sizes[level - 1]);
    let first = usize::from(boxes[0]);
    if !is_whole(vias, start, to, first, boxes.len()) {
        return false;
    }
    is_stretch(boxes, first)
}

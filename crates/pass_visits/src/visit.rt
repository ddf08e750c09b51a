// One visit: whether the run is placed, and if so its placing. The run's boxes stand from `from` up to `end` on the level from
// `start` up to `to`; it is bounded if a via stands on both sides, those at from - 1 and at `end`.
ghost use Rattle.std.specs.Prelude.{◌≡◌, ◌≤◌, length};
ghost use Rattle.pass_tables.specs.inner.Moments.{Some, Leaves};
ghost use Rattle.pass_visits.specs.inner.Visits.{Work, work, worked, Visiting, Asking, Visited, is_due_at, settled};

use pass_place::one::place_one;
use pass_tables::ready::is_ready;

// Whether pass q places the run: "Every open run is placed" by the first two; "A bounded run is placed if unsettled and ready"; the
// third "places every bounded run still unsettled, ready or not".
fn is_due(
    q: u16,
    start: usize,
    from: usize,
    end: usize,
    to: usize,
    before: &[u32],
    after: &[u32],
    counts: &[u16],
    marks: &[bool],
) -> bool
    requires { Some (Asking q start from end to before.now after.now counts.now marks.now) }
    ensures { Leaves (Asking q start from end to before.now after.now counts.now marks.now)
        (λ m. result ≡ is_due_at q m) }
{
    if from == start || end == to {
        return q != 3;
    }
    if !marks[from - 1] {
        return false;
    }
    q == 3 || is_ready(before, after, counts, from - 1, end)
}

// A bounded run that is placed is settled from now on.
fn settle(start: usize, from: usize, end: usize, to: usize, marks: &mut [bool])
    requires { from ≤ length marks.old }
    ensures { marks.new ≡ settled start from end to marks.old }
{
    if start < from && end < to {
        marks[from - 1] = false;
    }
}

// Visits the run.
pub fn visit(
    q: u16,
    start: usize,
    from: usize,
    end: usize,
    to: usize,
    first: &[u16],
    ends: &[u32],
    sums: &[u64],
    before: &[u32],
    after: &[u32],
    counts: &[u16],
    at: &mut [i64],
    apart: &mut [u64],
    marks: &mut [bool],
)
    ghost k: { Work }
    requires marks_value { work first.now ends.now sums.now before.now after.now counts.now at.old apart.old marks.old ≡ k }
    requires some { Some (Visiting q start from end to k) }
    ensures { Leaves (Visiting q start from end to k) (Visited q (worked k at.new apart.new marks.new)) }
{
    if !is_due(q, start, from, end, to, before, after, counts, marks) {
        return;
    }
    place_one(start, from, end, to, first, ends, sums, at, apart);
    settle(start, from, end, to, marks);
}

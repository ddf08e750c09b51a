// The visits of one level in one pass, from left to right.
ghost use Rattle.std.specs.Prelude.{◌≡◌};
ghost use Rattle.pass_tables.specs.inner.Moments.{Some, Leaves};
ghost use Rattle.pass_visits.specs.inner.Visits.{Work, work, Levelling, LevelDone};

use crate::visit::visit;
use pass_tables::runs::run_end;

// Visits every run of the level from `start` up to `to`.
pub fn visit_level(
    q: u16,
    start: usize,
    to: usize,
    vias: &[bool],
    first: &[u16],
    ends: &[u32],
    sums: &[u64],
    before: &[u32],
    after: &[u32],
    counts: &[u16],
    at: &mut [i64],
    apart: &mut [u64],
    marks: &mut [bool],
)
    ghost k: { Work }
    requires marks_value { work first.now ends.now sums.now before.now after.now counts.now at.old apart.old marks.old ≡ k }
    requires some { Some (Levelling q start to vias.now k) }
    ensures { Leaves (Levelling q start to vias.now k) (LevelDone q at.new apart.new marks.new) }
{
    let mut from = start;
    while from <= to {
        let end = run_end(vias, from, to);
        visit(
            q, start, from, end, to, first, ends, sums, before, after, counts, at, apart, marks,
        );
        from = end + 1;
    }
}

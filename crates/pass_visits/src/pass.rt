// One pass over the levels.
ghost use Rattle.std.specs.Prelude.{◌≡◌, true, false, ℕ, ◌≤◌, ◌<◌, length, get_or};
ghost use Rattle.plan.specs.Limits.{max_vertices};
ghost use Rattle.pass_tables.specs.inner.Joins.{Joinable};
ghost use Rattle.pass_tables.specs.inner.Moments.{Some, Leaves};
ghost use Rattle.pass_visits.specs.inner.Visits.{LevelDone};
ghost use Rattle.pass_visits.specs.inner.Passing.{PassWork, pass_work, TableRoom, TablesMade, LevelNext, PassNext, PassDone};

use crate::level::visit_level;
use pass_neighbours::order::turn;
use pass_tables::ready::{count_marks, nearest_after, nearest_before};
use plan::data::Plan;

// Whether a vertex from `from` up to `to` is marked.
fn any_marked(marks: &[bool], from: usize, to: usize) -> bool
    requires { to ≤ length marks.now }
    ensures { result ≡ false → (v : ℕ) → from ≤ v → v < to → get_or marks.now v false ≡ false }
{
    (from..to).any(|v| marks[v])
}

// The tables that tell which runs of the level from `start` up to `to` are ready, if that is asked of any: of an unsettled one, and not
// in the third pass. The level that precedes it stands from `low` up to `high`.
fn make_tables(
    q: u16,
    low: usize,
    high: usize,
    start: usize,
    to: usize,
    vias: &[bool],
    first: &[u16],
    ends: &[u32],
    marks: &[bool],
    before: &mut [u32],
    after: &mut [u32],
    counts: &mut [u16],
)
    requires { (to ≤ length vias.now) × (to ≤ length before.old) × (to ≤ length after.old) × (to ≤ length marks.now)
        × (high ≤ length marks.now) × (high ≤ length counts.old) × (length marks.now ≤ max_vertices) × Joinable vias.now first.now ends.now }
    ensures { (q ≡ 3 → ⊥) → (u : ℕ) → start ≤ u → u < to → get_or marks.now u false ≡ true
        → TablesMade low high start to vias.now first.now ends.now before.new after.new counts.new marks.now }
{
    if q == 3 {
        return;
    }
    if !any_marked(marks, start, to) {
        return;
    }
    nearest_before(vias, first, ends, start, to, before);
    nearest_after(vias, first, ends, start, to, after);
    count_marks(marks, low, high, counts);
}

// The vertices from `from` up to `to`.
#[derive(Clone, Copy)]
struct Stretch {
    from: usize,
    to: usize,
}

// Visits the runs of a level; `preceding` is the level that precedes it. The tables that tell which runs are ready are made in what is lent
// for them.
fn enter_level(
    q: u16,
    preceding: Stretch,
    level: Stretch,
    vias: &[bool],
    first: &[u16],
    ends: &[u32],
    sums: &[u64],
    before: &mut [u32],
    after: &mut [u32],
    counts: &mut [u16],
    at: &mut [i64],
    apart: &mut [u64],
    marks: &mut [bool],
)
    ghost k: { PassWork }
    requires marks_value { pass_work first.now ends.now sums.now at.old apart.old marks.old ≡ k }
    requires some { Some (LevelNext q preceding.from preceding.to level.from level.to vias.now k) × TableRoom before.old after.old counts.old }
    ensures { Leaves (LevelNext q preceding.from preceding.to level.from level.to vias.now k)
        (LevelDone q at.new apart.new marks.new) }
{
    make_tables(
        q,
        preceding.from,
        preceding.to,
        level.from,
        level.to,
        vias,
        first,
        ends,
        marks,
        before,
        after,
        counts,
    );
    visit_level(
        q, level.from, level.to, vias, first, ends, sums, before, after, counts, at, apart, marks,
    );
}

// Pass q, level by level; the levels start at `starts`.
pub fn pass(
    q: u16,
    starts: &[u16],
    vias: &[bool],
    first: &[u16],
    ends: &[u32],
    sums: &[u64],
    at: &mut [i64],
    apart: &mut [u64],
    marks: &mut [bool],
)
    ghost k: { PassWork }
    requires marks_value { pass_work first.now ends.now sums.now at.old apart.old marks.old ≡ k }
    requires some { Some (PassNext q starts.now vias.now k) }
    ensures { Leaves (PassNext q starts.now vias.now k)
        (PassDone q at.new apart.new marks.new) }
{
    let mut before = [0u32; Plan::MAX_VERTICES];
    let mut after = [0u32; Plan::MAX_VERTICES];
    let mut counts = [0u16; Plan::MAX_VERTICES];
    let n = starts.len() - 1;
    let mut low: usize = 0;
    let mut high: usize = 0;
    for k in 0..n {
        let i = turn(q, k, n);
        let start = usize::from(starts[i]);
        let to = usize::from(starts[i + 1]);
        enter_level(
            q,
            Stretch {
                from: low,
                to: high,
            },
            Stretch { from: start, to },
            vias,
            first,
            ends,
            sums,
            &mut before,
            &mut after,
            &mut counts,
            at,
            apart,
            marks,
        );
        low = start;
        high = to;
    }
}

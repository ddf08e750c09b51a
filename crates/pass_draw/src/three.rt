// The three passes one after another.
ghost use Rattle.pass_tables.specs.inner.Moments.{Some, Leaves};
ghost use Rattle.pass_visits.specs.inner.Passing.{PassDone};
ghost use Rattle.pass_list.specs.inner.Listing.{columns};
ghost use Rattle.pass_list.specs.inner.Ended.{ending, PassEnding, PassListed};
ghost use Rattle.pass_draw.specs.inner.Turn.{graph, Lent, TurnNext};
ghost use Rattle.pass_draw.specs.inner.Drawn.{Wanted, Drawn, begun, AtStart, AtFirst, Unlisted, plan_lists, Outset};

use pass_list::pass::{Listed, list_pass};
use pass_neighbours::neighbours;
use pass_neighbours::order::level_starts;
use pass_tables::distances::distances;
use pass_tables::slack::mark_loose;
use pass_visits::pass::pass;
use plan::data::Plan;

// Pass q: the neighbours that it goes by, in tables that are long enough for any plan, then its visits.
fn run_pass(
    q: u16,
    starts: &[u16],
    vias: &[bool],
    uppers: &[u32],
    lowers: &[u32],
    ratings: &[u32],
    first: &mut [u16],
    ends: &mut [u32],
    sums: &mut [u64],
    at: &mut [i64],
    apart: &mut [u64],
    marks: &mut [bool],
)
    requires { let h = graph starts.now vias.now uppers.now lowers.now ratings.now in
        Lent first.old ends.old sums.old × Some (TurnNext q h at.old apart.old marks.old) }
    ensures { let h = graph starts.now vias.now uppers.now lowers.now ratings.now in
        Leaves (TurnNext q h at.old apart.old marks.old)
        (PassDone q at.new apart.new marks.new) }
{
    let first = &mut first[..vias.len() + 1];
    let ends = &mut ends[..uppers.len()];
    let sums = &mut sums[..uppers.len() + 1];
    neighbours(q, uppers, lowers, ratings, first, ends, sums);
    pass(q, starts, vias, first, ends, sums, at, apart, marks);
}

// Lists the placed runs of pass q, if the list is wanted.
fn list_wanted(
    q: u16,
    starts: &[u16],
    vias: &[bool],
    had: &[bool],
    marks: &[bool],
    at: &[i64],
    list: Listed,
    passes: &mut [u16],
    levels: &mut [u16],
    sizes: &mut [u16],
    vertices: &mut [u16],
    positions: &mut [i64],
) -> Listed
    requires { let k = ending vias.now had.now marks.now at.now (columns passes.old levels.old sizes.old vertices.old positions.old) in
        Wanted k.list → Some (PassEnding q list.placings list.boxes starts.now k) }
    ensures { let k = ending vias.now had.now marks.now at.now (columns passes.old levels.old sizes.old vertices.old positions.old) in
        Wanted k.list → Leaves (PassEnding q list.placings list.boxes starts.now k) (PassListed q result.placings result.boxes k
        (columns passes.new levels.new sizes.new vertices.new positions.new)) }
{
    if passes.is_empty() {
        return list;
    }
    list_pass(
        q, starts, vias, had, marks, at, list, passes, levels, sizes, vertices, positions,
    )
}

// The three passes, from the first visit on; each is listed when it ends.
fn run_passes(
    starts: &[u16],
    vias: &[bool],
    uppers: &[u32],
    lowers: &[u32],
    ratings: &[u32],
    at: &mut [i64],
    apart: &mut [u64],
    marks: &mut [bool],
    passes: &mut [u16],
    levels: &mut [u16],
    sizes: &mut [u16],
    vertices: &mut [u16],
    positions: &mut [i64],
) -> Listed
    requires { let k = begun (graph starts.now vias.now uppers.now lowers.now ratings.now) at.old apart.old marks.old
        (columns passes.old levels.old sizes.old vertices.old positions.old) in
        Some (AtFirst k) }
    ensures { let k = begun (graph starts.now vias.now uppers.now lowers.now ratings.now) at.old apart.old marks.old
        (columns passes.old levels.old sizes.old vertices.old positions.old) in
        Leaves (AtFirst k) (Drawn result.placings result.boxes at.new
        (columns passes.new levels.new sizes.new vertices.new positions.new)) }
{
    let mut first = [0u16; Plan::MAX_VERTICES + 1];
    let mut ends = [0u32; Plan::MAX_SEGMENTS];
    let mut sums = [0u64; Plan::MAX_SEGMENTS + 1];
    let mut had = [false; Plan::MAX_VERTICES];
    let mut listed = Listed {
        placings: 0,
        boxes: 0,
    };
    for q in 1..=3 {
        had[..marks.len()].copy_from_slice(marks);
        run_pass(
            q, starts, vias, uppers, lowers, ratings, &mut first, &mut ends, &mut sums, at, apart,
            marks,
        );
        listed = list_wanted(
            q, starts, vias, &had, marks, at, listed, passes, levels, sizes, vertices, positions,
        );
    }
    listed
}

// The same from the sizes of the levels: where each starts is found first.
fn run_with_starts(
    lengths: &[u16],
    vias: &[bool],
    uppers: &[u32],
    lowers: &[u32],
    ratings: &[u32],
    at: &mut [i64],
    apart: &mut [u64],
    marks: &mut [bool],
    passes: &mut [u16],
    levels: &mut [u16],
    sizes: &mut [u16],
    vertices: &mut [u16],
    positions: &mut [i64],
) -> Listed
    requires { let k = begun (graph lengths.now vias.now uppers.now lowers.now ratings.now) at.old apart.old marks.old
        (columns passes.old levels.old sizes.old vertices.old positions.old) in
        Some (AtStart k) }
    ensures { let k = begun (graph lengths.now vias.now uppers.now lowers.now ratings.now) at.old apart.old marks.old
        (columns passes.old levels.old sizes.old vertices.old positions.old) in
        Leaves (AtStart k) (Drawn result.placings result.boxes at.new
        (columns passes.new levels.new sizes.new vertices.new positions.new)) }
{
    let mut starts = [0u16; Plan::MAX_LEVELS + 1];
    let starts = &mut starts[..lengths.len() + 1];
    level_starts(lengths, starts);
    run_passes(
        starts, vias, uppers, lowers, ratings, at, apart, marks, passes, levels, sizes, vertices,
        positions,
    )
}

// Draws: `at` holds the preliminary positions, and afterwards the final ones; the list of placings, if it is wanted, goes into the five arrays.
pub fn three_passes(
    gap: u32,
    lengths: &[u16],
    vias: &[bool],
    halves: &[u16],
    uppers: &[u32],
    lowers: &[u32],
    ratings: &[u32],
    at: &mut [i64],
    passes: &mut [u16],
    levels: &mut [u16],
    sizes: &mut [u16],
    vertices: &mut [u16],
    positions: &mut [i64],
) -> Listed
    requires { let l = plan_lists gap lengths.now vias.now halves.now uppers.now lowers.now ratings.now in
        Some (Outset l at.old) × (Wanted (columns passes.old levels.old sizes.old vertices.old positions.old)
        → Unlisted (columns passes.old levels.old sizes.old vertices.old positions.old)) }
    ensures { let l = plan_lists gap lengths.now vias.now halves.now uppers.now lowers.now ratings.now in
        Leaves (Outset l at.old) (Drawn result.placings result.boxes at.new
        (columns passes.new levels.new sizes.new vertices.new positions.new)) }
{
    let n = vias.len();
    let mut apart = [0u64; Plan::MAX_VERTICES];
    let mut marks = [false; Plan::MAX_VERTICES];
    let apart = &mut apart[..n];
    let marks = &mut marks[..n];
    distances(gap, lengths, halves, apart);
    mark_loose(lengths, vias, apart, at, marks);
    run_with_starts(
        lengths, vias, uppers, lowers, ratings, at, apart, marks, passes, levels, sizes, vertices,
        positions,
    )
}

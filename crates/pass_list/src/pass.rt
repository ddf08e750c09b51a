// What a pass adds to the list, read off when it ends.
ghost use Rattle.std.specs.Prelude.{◌≡◌, ◌++◌, ◌≤◌, length};
ghost use Rattle.pass_tables.specs.inner.Moments.{Some, Leaves};
ghost use Rattle.pass_list.specs.inner.Listing.{columns, Stored};
ghost use Rattle.pass_list.specs.inner.Added.{Arrays};
ghost use Rattle.pass_list.specs.inner.Ended.{placed_by, placing_if, Fits, ending, LevelEnding, LevelListed, PassEnding, PassListed};

use crate::placing::list_placing;
use pass_neighbours::order::turn;
use pass_tables::runs::run_end;

// How many placings the list has, and how many boxes in all.
#[derive(Clone, Copy)]
pub struct Listed {
    pub placings: usize,
    pub boxes: usize,
}

// Whether pass q placed the run: an open one in the first two; a bounded one if it was unsettled before and is settled now.
fn was_placed(
    q: u16,
    start: usize,
    from: usize,
    end: usize,
    to: usize,
    had: &[bool],
    marks: &[bool],
) -> bool
    requires { (start ≤ from) × (end ≤ to) × (from ≤ length had.now) × (from ≤ length marks.now) }
    ensures { result ≡ placed_by q start from end to had.now marks.now }
{
    if from == start || end == to {
        return q != 3;
    }
    had[from - 1] && !marks[from - 1]
}

// Lists a placed run that has boxes.
fn list_run(
    placed: bool,
    q: u16,
    l: u16,
    from: usize,
    end: usize,
    at: &[i64],
    list: Listed,
    passes: &mut [u16],
    levels: &mut [u16],
    sizes: &mut [u16],
    vertices: &mut [u16],
    positions: &mut [i64],
) -> Listed
    requires { let g = columns passes.old levels.old sizes.old vertices.old positions.old in
        Arrays g × (from ≤ end) × (end ≤ length at.now) × (end ≤ 1024)
        × Fits list.placings list.boxes (placing_if placed q l from end at.now) }
    ensures { let g = columns passes.old levels.old sizes.old vertices.old positions.old in
        Leaves (Stored list.placings list.boxes g) (λ before. Stored result.placings result.boxes
        (columns passes.new levels.new sizes.new vertices.new positions.new)
        (before ++ placing_if placed q l from end at.now)) }
{
    if !placed {
        return list;
    }
    if end == from {
        return list;
    }
    list_placing(
        q,
        l,
        from,
        end,
        at,
        list.placings,
        list.boxes,
        passes,
        levels,
        sizes,
        vertices,
        positions,
    );
    Listed {
        placings: list.placings + 1,
        boxes: list.boxes + (end - from),
    }
}

// Lists the placed runs of the level from `start` up to `to`.
pub fn list_level(
    q: u16,
    l: u16,
    start: usize,
    to: usize,
    vias: &[bool],
    had: &[bool],
    marks: &[bool],
    at: &[i64],
    list: Listed,
    passes: &mut [u16],
    levels: &mut [u16],
    sizes: &mut [u16],
    vertices: &mut [u16],
    positions: &mut [i64],
) -> Listed
    requires { let k = ending vias.now had.now marks.now at.now (columns passes.old levels.old sizes.old vertices.old positions.old) in
        Some (LevelEnding q l start to list.placings list.boxes k) }
    ensures { let k = ending vias.now had.now marks.now at.now (columns passes.old levels.old sizes.old vertices.old positions.old) in
        Leaves (LevelEnding q l start to list.placings list.boxes k) (LevelListed q l result.placings result.boxes k
        (columns passes.new levels.new sizes.new vertices.new positions.new)) }
{
    let mut listed = list;
    let mut from = start;
    while from <= to {
        let end = run_end(vias, from, to);
        let placed = was_placed(q, start, from, end, to, had, marks);
        listed = list_run(
            placed, q, l, from, end, at, listed, passes, levels, sizes, vertices, positions,
        );
        from = end + 1;
    }
    listed
}

// Lists the placed runs of pass q, in its order.
pub fn list_pass(
    q: u16,
    starts: &[u16],
    vias: &[bool],
    had: &[bool],
    marks: &[bool],
    at: &[i64],
    list: Listed,
    passes: &mut [u16],
    levels: &mut [u16],
    sizes: &mut [u16],
    vertices: &mut [u16],
    positions: &mut [i64],
) -> Listed
    requires { let k = ending vias.now had.now marks.now at.now (columns passes.old levels.old sizes.old vertices.old positions.old) in
        Some (PassEnding q list.placings list.boxes starts.now k) }
    ensures { let k = ending vias.now had.now marks.now at.now (columns passes.old levels.old sizes.old vertices.old positions.old) in
        Leaves (PassEnding q list.placings list.boxes starts.now k) (PassListed q result.placings result.boxes k
        (columns passes.new levels.new sizes.new vertices.new positions.new)) }
{
    let n = starts.len() - 1;
    let mut listed = list;
    for k in 0..n {
        let i = turn(q, k, n);
        let start = usize::from(starts[i]);
        let to = usize::from(starts[i + 1]);
        listed = list_level(
            q,
            (i + 1) as u16,
            start,
            to,
            vias,
            had,
            marks,
            at,
            listed,
            passes,
            levels,
            sizes,
            vertices,
            positions,
        );
    }
    listed
}

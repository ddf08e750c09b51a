// The draw over a plan's lists: preliminary and final positions and the list of placings, with all that demand 3 says of them.
ghost use Rattle.std.specs.Prelude.{◌≡◌, length};
ghost use Rattle.plan.specs.Plan.{PlanData};
ghost use Rattle.pass_draw.specs.inner.Made.{HoldsRated, Blank, Made, BlankIfWanted, MadeIfWanted};

use crate::three::three_passes;
use prelim_positions::positions::preliminary_positions;

pub fn copy_positions(from: &[i64], to: &mut [i64])
    requires { length to.old ≡ length from.now }
    ensures { to.new ≡ from.now }
{
    for (i, x) in from.iter().enumerate() {
        to[i] = *x;
    }
}

// Draws, and answers how many placings were listed. The arrays of the list are 0 before; where they have no length none is listed.
pub fn make_drawing(
    gap: u32,
    lengths: &[u16],
    vias: &[bool],
    halves: &[u16],
    uppers: &[u32],
    lowers: &[u32],
    ratings: &[u32],
    preliminary: &mut [i64],
    finals: &mut [i64],
    passes: &mut [u16],
    levels: &mut [u16],
    counts: &mut [u16],
    vertices: &mut [u16],
    positions: &mut [i64],
) -> usize
    requires { BlankIfWanted gap lengths.now vias.now halves.now uppers.now lowers.now ratings.now preliminary.old finals.old
        passes.old levels.old counts.old vertices.old positions.old }
    ensures { (p : PlanData) → HoldsRated p gap lengths.now vias.now halves.now uppers.now lowers.now ratings.now
        → MadeIfWanted p result preliminary.new finals.new passes.new levels.new counts.new vertices.new positions.new }
{
    preliminary_positions(gap, lengths, vias, halves, uppers, lowers, preliminary);
    copy_positions(preliminary, finals);
    let list = three_passes(
        gap, lengths, vias, halves, uppers, lowers, ratings, finals, passes, levels, counts,
        vertices, positions,
    );
    list.placings
}

// Draws, and answers how many placings were listed. The arrays of the list are 0 before.
pub fn draw(
    gap: u32,
    lengths: &[u16],
    vias: &[bool],
    halves: &[u16],
    uppers: &[u32],
    lowers: &[u32],
    ratings: &[u32],
    preliminary: &mut [i64],
    finals: &mut [i64],
    passes: &mut [u16],
    levels: &mut [u16],
    counts: &mut [u16],
    vertices: &mut [u16],
    positions: &mut [i64],
) -> usize
    requires { Blank gap lengths.now vias.now halves.now uppers.now lowers.now ratings.now preliminary.old finals.old
        passes.old levels.old counts.old vertices.old positions.old }
    ensures { (p : PlanData) → HoldsRated p gap lengths.now vias.now halves.now uppers.now lowers.now ratings.now
        → Made p result preliminary.new finals.new passes.new levels.new counts.new vertices.new positions.new }
{
    make_drawing(
        gap,
        lengths,
        vias,
        halves,
        uppers,
        lowers,
        ratings,
        preliminary,
        finals,
        passes,
        levels,
        counts,
        vertices,
        positions,
    )
}

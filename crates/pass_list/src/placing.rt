// One more placing in the list.
ghost use Rattle.std.specs.Prelude.{[], ◌∷◌, ◌++◌, length};
ghost use Rattle.pass_tables.specs.inner.Moments.{Leaves};
ghost use Rattle.pass_list.specs.inner.Listing.{columns, Lies, Stored};
ghost use Rattle.pass_list.specs.inner.Added.{placing_of, ListRoom, Arrays};

use crate::entries::{list_positions, list_vertices};

// Adds the placing of pass q and level l, of the boxes from `from` up to `end`, to a list of n placings with b boxes.
pub fn list_placing(
    q: u16,
    l: u16,
    from: usize,
    end: usize,
    at: &[i64],
    n: usize,
    b: usize,
    passes: &mut [u16],
    levels: &mut [u16],
    counts: &mut [u16],
    vertices: &mut [u16],
    positions: &mut [i64],
)
    requires { let g = columns passes.old levels.old counts.old vertices.old positions.old in
        Arrays g × ListRoom from end (length at.now) n b }
    ensures { let g = columns passes.old levels.old counts.old vertices.old positions.old in
        Leaves (Stored n b g) (λ list. Lies (list ++ placing_of q l from end at.now ∷ [])
        (columns passes.new levels.new counts.new vertices.new positions.new)) }
{
    let count = end - from;
    passes[n] = q;
    levels[n] = l;
    counts[n] = count as u16;
    list_vertices(from, b, b + count, vertices);
    list_positions(at, from, b, b + count, positions);
}

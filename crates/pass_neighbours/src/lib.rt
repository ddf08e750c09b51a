// Which way a pass goes: the order of its levels, and the neighbours that it goes by.
#![tactic(auto)]

pub mod order;

ghost use Rattle.run_columns.specs.inner.Sums.{ratings_between};
ghost use Rattle.pass_tables.specs.inner.Tables.{Rows, Sortable};
ghost use Rattle.pass_neighbours.specs.inner.Ends.{own_ends, far_ends};

use pass_tables::rows::rows;

// Those of pass q, on the preceding level: the one below in pass 2, the one above in the others; and the ratings of the segments to them.
pub fn neighbours(
    q: u16,
    uppers: &[u32],
    lowers: &[u32],
    ratings: &[u32],
    first: &mut [u16],
    ends: &mut [u32],
    sums: &mut [u64],
)
    requires { Sortable uppers.now lowers.now ratings.now first.old ends.old sums.old
        × Sortable lowers.now uppers.now ratings.now first.old ends.old sums.old }
    ensures { Rows (own_ends q uppers.now lowers.now) (far_ends q uppers.now lowers.now) first.new ends.new
        × Rows (own_ends q uppers.now lowers.now) ratings.now first.new (ratings_between sums.new) }
{
    if q == 2 {
        rows(uppers, lowers, ratings, first, ends, sums);
    } else {
        rows(lowers, uppers, ratings, first, ends, sums);
    }
}

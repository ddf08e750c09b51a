// The two middle ones of a box's neighbours, by sums of ratings so far, one more than there are neighbours.
ghost use Rattle.std.specs.Prelude.{◌≡◌, true, ◌+◌, ◌-◌, ◌*◌, ◌≤◌, ◌<◌, length, get_or};
ghost use Rattle.ints.specs.Ratings.{all_ratings};
ghost use Rattle.run.specs.Call.{max_neighbours};
ghost use Rattle.run_columns.specs.inner.Sums.{ratings_between};
ghost use Rattle.run_halves.specs.inner.Middles.{Reaches, total_of, AreMiddles};

#[derive(Clone, Copy)]
pub struct Middles {
    pub lower: usize,
    pub upper: usize,
}

// The first neighbour at which twice the ratings so far reach t, by a binary search: between lo and hi all the time.
fn first_reaching(sums: &[u64], t: u64) -> usize
    requires sums_value { (all_ratings (ratings_between sums.now) ≡ true) × (length sums.now ≤ max_neighbours + 1) }
    requires t_nonzero { (0 < t) × (t ≤ 2 * total_of sums.now) }
    ensures { Reaches t sums.now result }
{
    let before = sums[0];
    let mut lo: usize = 0;
    let mut hi = sums.len() - 2;
    while lo < hi {
        let mid = lo + (hi - lo) / 2;
        if 2 * (sums[mid + 1] - before) < t {
            lo = mid + 1;
        } else {
            hi = mid;
        }
    }
    lo
}

// The first at which they exceed t, if i is the first at which they reach it: the same one, or the next, since no rating is 0.
fn first_exceeding(sums: &[u64], t: u64, i: usize) -> usize
    requires sums_value { (all_ratings (ratings_between sums.now) ≡ true) × (length sums.now ≤ max_neighbours + 1) × Reaches t sums.now i }
    requires t_bound { t + 1 ≤ 2 * total_of sums.now }
    ensures { Reaches (t + 1) sums.now result }
{
    if 2 * (sums[i + 1] - sums[0]) == t {
        i + 1
    } else {
        i
    }
}

// Both, of at least one neighbour. If the total is their number, no rating is above 1, and they are known without a search.
pub fn find_middles(sums: &[u64]) -> Middles
    requires { (all_ratings (ratings_between sums.now) ≡ true) × (length sums.now ≤ max_neighbours + 1) × (1 < length sums.now) }
    ensures { AreMiddles sums.now result.lower result.upper }
{
    let n = sums.len() - 1;
    let total = sums[n] - sums[0];
    if total == n as u64 {
        return Middles {
            lower: (n - 1) / 2,
            upper: n / 2,
        };
    }
    let lower = first_reaching(sums, total);
    Middles {
        lower,
        upper: first_exceeding(sums, total, lower),
    }
}

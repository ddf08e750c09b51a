// Joining two placed halves of a run: where they overlap, the place at which they meet. All positions are in run coordinates
// but those of the neighbours, which are their box's offset further right. Ratings are handed in as sums so far, one more than there are
// neighbours.
ghost use Rattle.std.specs.Prelude.{◌≡◌, true, ◌+◌, ◌-◌, ◌≤◌, ◌<◌};
ghost use Rattle.ints.specs.Ints.{size, ◌⊏◌};
ghost use Rattle.run.specs.inner.Bisection.{cut_at, raise_to};
ghost use Rattle.run_columns.specs.inner.Columns.{Small, max_size};
ghost use Rattle.run_halves.specs.inner.Meet.{Cut, Tests, last_before, first_after, MeetAt, Joined};
ghost use Rattle.run_columns.specs.inner.Offsets.{less_near, OffsetsOf, Near};
ghost use Rattle.run_columns.specs.inner.Sums.{ratings_between, SumsOf};

use ints::plus;
use run_columns::counts::count_half;

// Whether the ratings of those at or left of a place are more than of those right of it, there and at those places beside it.
#[derive(Clone, Copy)]
struct Tested {
    more: bool,
    back: u64,
    far: u64,
}

// The test at m of the halves cut after k boxes, which have n neighbours.
fn more_up_to(
    k: usize,
    n: usize,
    z: &[i64],
    offsets: &[u64],
    counts: &[u64],
    near: &[i64],
    sums: &[u64],
    m: i64,
    back: u64,
    far: u64,
) -> Tested
    requires { Cut k n z.now counts.now near.now × OffsetsOf offsets.now z.now × Small z.now × Near near.now × (size m ≤ max_size) × (0 < far) × SumsOf sums.now near.now }
    ensures { Tests k n z.now counts.now (less_near offsets.now counts.now near.now)
        (ratings_between sums.now) m back far result.more result.back result.far }
{
    let l = count_half(
        true,
        &z[..k],
        &offsets[..k],
        &counts[..k],
        &near[..n],
        &sums[..n + 1],
        m,
        back,
        far,
    );
    let r = count_half(
        false,
        &z[k..],
        &offsets[k..],
        &counts[k..],
        &near[n..],
        &sums[n..],
        m,
        l.back,
        l.far,
    );
    Tested {
        more: l.beyond + r.beyond < l.upto + r.upto,
        back: r.back,
        far: r.far,
    }
}

// Where the halves meet: bisection between the first position b of the right half and the last one of the left half. The part
// still searched begins lo to the right of b and is w wide. A test in its middle takes half of it away, and the places beside
// the middle that have the same ratings on both sides.
fn meeting_place(
    k: usize,
    n: usize,
    z: &[i64],
    offsets: &[u64],
    counts: &[u64],
    near: &[i64],
    sums: &[u64],
) -> i64
    requires cut { Cut k n z.now counts.now near.now × OffsetsOf offsets.now z.now }
    requires small { Small z.now × Near near.now × SumsOf sums.now near.now }
    requires first_after { first_after k z.now ⊏ last_before k z.now }
    ensures { MeetAt k n z.now counts.now (less_near offsets.now counts.now near.now)
        (ratings_between sums.now) result }
{
    let b = z[k];
    let mut lo: u64 = 0;
    let mut w = z[k - 1].abs_diff(b);
    while 0 < w {
        let h = w / 2;
        let t = more_up_to(
            k,
            n,
            z,
            offsets,
            counts,
            near,
            sums,
            plus(b, lo + h),
            h,
            w - h,
        );
        if t.more {
            w = h - t.back;
        } else {
            lo += h + t.far;
            w -= h + t.far;
        }
    }
    plus(b, lo)
}

// Cuts a half at m: no box stays right of it.
fn cut(m: i64, z: &mut [i64])
    ensures { z.new ≡ cut_at m z.old }
{
    for x in z.iter_mut() {
        *x = (*x).min(m);
    }
}

// Raises a half to m: no box stays left of it.
fn raise(m: i64, z: &mut [i64])
    ensures { z.new ≡ raise_to m z.old }
{
    for x in z.iter_mut() {
        *x = (*x).max(m);
    }
}

// Joins the halves cut after k boxes, which have n neighbours. Halves that do not overlap stay.
pub fn join(
    k: usize,
    n: usize,
    offsets: &[u64],
    counts: &[u64],
    near: &[i64],
    sums: &[u64],
    z: &mut [i64],
)
    requires cut { Cut k n z.old counts.now near.now × OffsetsOf offsets.now z.old }
    requires small { Small z.old × Near near.now × SumsOf sums.now near.now }
    ensures { Joined k n z.old counts.now (less_near offsets.now counts.now near.now)
        (ratings_between sums.now) z.new }
{
    if z[k] < z[k - 1] {
        let m = meeting_place(k, n, z, offsets, counts, near, sums);
        cut(m, &mut z[..k]);
        raise(m, &mut z[k..]);
    }
}

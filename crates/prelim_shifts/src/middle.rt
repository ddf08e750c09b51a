// Of a list of offsets: the least, and the ⌈s/2⌉-th smallest.
ghost use Rattle.std.specs.Prelude.{◌≡◌, ℕ, ◌+◌, ◌≤◌, ◌<◌, length, ℤ};
ghost use Rattle.ints.specs.Ints.{size, SizedTo};
ghost use Rattle.preliminary.specs.Shift as shift;
ghost use Rattle.prelim_shifts.specs.inner.Counts.{count_to, NoneAbove};

// The least of a list that has one.
pub fn least(xs: &[i64]) -> i64
    requires { 0 < length xs.now }
    ensures { (other : ℤ) → result ≡ shift.least_or other xs.now }
{
    xs.iter().copied().min().unwrap()
}

// The greatest of a list that has one.
fn greatest(xs: &[i64]) -> i64
    requires { 0 < length xs.now }
    ensures { NoneAbove result xs.now × ((m : ℕ) → SizedTo m xs.now → size result ≤ m) }
{
    xs.iter().copied().max().unwrap()
}

// How many do not exceed z.
fn count_to(z: i64, xs: &[i64]) -> usize
    ensures { result ≡ count_to z xs.now }
{
    let mut count = 0;
    for x in xs {
        count += usize::from(*x <= z);
    }
    count
}

// The ⌈s/2⌉-th smallest, 0 if there is none: the least number that at least so many do not exceed.
pub fn middle(xs: &[i64]) -> i64
    requires { SizedTo 268435456 xs.now }
    ensures { result ≡ shift.middle xs.now }
{
    if xs.is_empty() {
        return 0;
    }
    let enough = xs.len().div_ceil(2);
    let base = least(xs);
    let mut low = 0;
    let mut high = base.abs_diff(greatest(xs));
    while low < high {
        let mid = (low + high) / 2;
        if count_to(base + mid as i64, xs) < enough {
            low = mid + 1;
        } else {
            high = mid;
        }
    }
    base + low as i64
}

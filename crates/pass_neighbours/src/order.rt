// The order in which a pass comes to the levels, and where they stand.
ghost use Rattle.std.specs.Prelude.{◌≡◌, ℕ, ◌+◌, ◌<◌, ◌≤◌, length, get_or, take};
ghost use Rattle.ints.specs.Lists.{sum};
ghost use Rattle.pass_neighbours.specs.inner.Order.{turn_of};

// The level that pass q comes to in its k-th turn, of n, counted from 0 at the top: pass 2 goes up.
pub fn turn(q: u16, k: usize, n: usize) -> usize
    requires { k < n }
    ensures { result ≡ turn_of q k n }
{
    if q == 2 { n - 1 - k } else { k }
}

// Where each level starts, and where the last one ends.
pub fn level_starts(lengths: &[u16], starts: &mut [u16])
    requires { (length starts.old ≡ length lengths.now + 1) × (sum lengths.now ≤ 1024) }
    ensures { (i : ℕ) → i ≤ length lengths.now → get_or starts.new i 0 ≡ sum (take i lengths.now) }
{
    starts[0] = 0;
    let mut from: u16 = 0;
    for (i, n) in lengths.iter().enumerate() {
        from += *n;
        starts[i + 1] = from;
    }
}

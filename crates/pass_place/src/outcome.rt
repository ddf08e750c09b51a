// What a placing changes: where the run's boxes stand, and an open run's distances.
ghost use Rattle.std.specs.Prelude.{◌≡◌, ℕ, ◌+◌, ◌-◌, ◌<◌, ◌≤◌, length};
ghost use Rattle.ints.specs.Ints.{size, ◌⊑◌};
ghost use Rattle.plan.specs.Plan.{numbers};
ghost use Rattle.passes.specs.State.{position_of, put, take_on};

// The boxes from `from` on stand at `placed` from now on. A loop, since `copy_from_slice` would need C's `memmove`.
pub fn put_back(placed: &[i64], from: usize, at: &mut [i64])
    requires { from + length placed.now ≤ length at.old }
    ensures { at.new ≡ put (numbers from (length placed.now)) placed.now at.old }
{
    for (i, x) in placed.iter().enumerate() {
        at[from + i] = *x;
    }
}

// "its distances, and that to its bound, then become those it has": of the members from `low` up to `high`.
pub fn take_on(at: &[i64], low: usize, high: usize, apart: &mut [u64])
    requires { (low ≤ high) × (high ≤ length at.now) × (length apart.old ≡ length at.now)
        × ((v : ℕ) → size (position_of at.now v) ≤ 1099511627776)
        × ((v : ℕ) → low ≤ v → v + 1 < high → position_of at.now v ⊑ position_of at.now (v + 1)) }
    ensures { apart.new ≡ take_on at.now (numbers low (high - low)) apart.old }
{
    for v in low..high.saturating_sub(1) {
        apart[v] = at[v].abs_diff(at[v + 1]);
    }
}

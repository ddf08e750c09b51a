// What "Placing one run" asks of the boxes from `from` up to `to`: how many neighbours each has on the preceding level, and where
// those stand. Old positions and distances are parts of what the passes carry along.
ghost use Rattle.std.specs.Prelude.{◌≡◌, ℕ, ◌+◌, ◌-◌, ◌<◌, ◌≤◌, length, get_or, take};
ghost use Rattle.passes.specs.State.{position_of};
ghost use Rattle.pass_tables.specs.inner.Tables.{along};

// How many neighbours each of n boxes from `from` on has, by where their rows start.
pub fn neighbour_counts(first: &[u16], from: usize, n: usize, counts: &mut [u64])
    requires { (from + n < length first.now) × (n ≤ length counts.old) × ((v : ℕ) → v + 1 < length first.now → get_or first.now v 0 ≤ get_or first.now (v + 1) 0) }
    ensures { take n counts.new ≡ along (λ (i : ℕ). get_or first.now (from + i + 1) 0 - get_or first.now (from + i) 0) 0 n }
{
    for i in 0..n {
        counts[i] = u64::from(first[from + i + 1] - first[from + i]);
    }
}

// Where n of the row ends stand, from the start `from` on.
pub fn neighbour_positions(ends: &[u32], at: &[i64], from: usize, n: usize, near: &mut [i64])
    requires { (from + n ≤ length ends.now) × (n ≤ length near.old) × ((k : ℕ) → k < length ends.now → get_or ends.now k 0 < length at.now) }
    ensures { take n near.new ≡ along (λ (i : ℕ). position_of at.now (get_or ends.now (from + i) 0)) 0 n }
{
    for (i, end) in ends[from..from + n].iter().enumerate() {
        near[i] = at[*end as usize];
    }
}

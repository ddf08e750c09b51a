// Which bounded runs have slack before any is placed. A bounded run is told by the via on its left.
ghost use Rattle.std.specs.Prelude.{◌≡◌, ◌++◌, ℕ, ◌+◌, ◌-◌, ◌<◌, ◌≤◌, length, get_or, take};
ghost use Rattle.ints.specs.Lists.{sum};
ghost use Rattle.pass_tables.specs.inner.Tables.{total, along, levelwise, loose_from, starts_loose, Measured};

use crate::runs::run_end;

// The distance of v and w, "the sum between them".
fn span(doubled: &[u64], v: usize, w: usize) -> u64
    requires { (v ≤ w) × (w ≤ length doubled.now) × (length doubled.now ≤ 1024) × ((u : ℕ) → get_or doubled.now u 0 ≤ 1000) }
    ensures { (result ≡ total (λ (i : ℕ). get_or doubled.now (v + i) 0) (w - v)) × (result ≤ 1024000) }
{
    doubled[v..w].iter().sum()
}

// Whether a bounded run with slack starts at via v, w being the next via on the level or its end `to`.
fn is_loose(doubled: &[u64], at: &[i64], v: usize, w: usize, to: usize) -> bool
    requires { (v ≤ w) × (to ≤ length doubled.now) × Measured doubled.now at.now }
    ensures { result ≡ loose_from doubled.now at.now v w to }
{
    w < to && at[w] - at[v] != span(doubled, v, w) as i64
}

// Whether a bounded run with slack starts at v.
fn starts_loose(vias: &[bool], doubled: &[u64], at: &[i64], v: usize, to: usize) -> bool
    requires { (v < to) × (to ≤ length vias.now) × (length vias.now ≡ length doubled.now) × Measured doubled.now at.now }
    ensures { result ≡ starts_loose vias.now doubled.now at.now v to }
{
    vias[v] && is_loose(doubled, at, v, run_end(vias, v + 1, to), to)
}

// Marks where such runs start on the level whose vertices stand from `from` up to `to`.
fn mark_level(
    vias: &[bool],
    doubled: &[u64],
    at: &[i64],
    from: usize,
    to: usize,
    marks: &mut [bool],
)
    requires from_le_to { (from ≤ to) × (to ≤ length vias.now) × (length vias.now ≡ length doubled.now) × Measured doubled.now at.now }
    requires marks_len { length marks.old ≡ length vias.now }
    ensures { take to marks.new ≡ take from marks.old
        ++ along (λ (v : ℕ). starts_loose vias.now doubled.now at.now v to) from (to - from) }
{
    for v in from..to {
        marks[v] = starts_loose(vias, doubled, at, v, to);
    }
}

// Marks the left via of every bounded run that has slack.
pub fn mark_loose(sizes: &[u16], vias: &[bool], doubled: &[u64], at: &[i64], marks: &mut [bool])
    requires sizes_value { (sum sizes.now ≡ length vias.now) × (length marks.old ≡ length vias.now) }
    requires vias_len { (length vias.now ≡ length doubled.now) × Measured doubled.now at.now }
    ensures { marks.new ≡ levelwise (λ (v to : ℕ). starts_loose vias.now doubled.now at.now v to) 0 sizes.now }
{
    let mut from: usize = 0;
    for size in sizes {
        let to = from + usize::from(*size);
        mark_level(vias, doubled, at, from, to, marks);
        from = to;
    }
}

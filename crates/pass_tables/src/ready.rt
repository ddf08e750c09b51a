// Which bounded runs are ready: "there is a nearest via v at or before its left bound with a via w on the preceding level
// joined to v, likewise on the right, and every bounded run between those two w's is settled". Neighbours on the preceding
// level are read row by row, as `rows` makes them.
ghost use Rattle.std.specs.Prelude.{◌≡◌, ℕ, ◌+◌, ◌-◌, ◌<◌, ◌≤◌, length, get_or};
ghost use Rattle.pass_tables.specs.inner.Joins.{Readable, joined_at, Joinable, last_in, first_in, or_else, marked_in, ready_by};

// No vertex has this number.
pub const NONE: u32 = 2048;

// The via on the preceding level that is joined to via v, NONE if there is none or v is a box.
fn joined_via(vias: &[bool], first: &[u16], ends: &[u32], v: usize) -> u32
    requires { (v < length vias.now) × Joinable vias.now first.now ends.now }
    ensures { result ≡ joined_at vias.now first.now ends.now v }
{
    if !vias[v] {
        return NONE;
    }
    let w = ends[usize::from(first[v])];
    if vias[w as usize] { w } else { NONE }
}

fn or_else(w: u32, other: u32) -> u32
    ensures { result ≡ or_else w other }
{
    if w == NONE { other } else { w }
}

// Of each vertex from `from` up to `to`, the w of the nearest joined via at or before it there.
pub fn nearest_before(
    vias: &[bool],
    first: &[u16],
    ends: &[u32],
    from: usize,
    to: usize,
    before: &mut [u32],
)
    requires { (to ≤ length vias.now) × (to ≤ length before.old) × Joinable vias.now first.now ends.now }
    ensures { (v : ℕ) → from ≤ v → v < to → get_or before.new v 0 ≡ last_in (joined_at vias.now first.now ends.now) from (v + 1 - from) }
{
    let mut last = NONE;
    for v in from..to {
        last = or_else(joined_via(vias, first, ends, v), last);
        before[v] = last;
    }
}

// The same at or after it.
pub fn nearest_after(
    vias: &[bool],
    first: &[u16],
    ends: &[u32],
    from: usize,
    to: usize,
    after: &mut [u32],
)
    requires { (to ≤ length vias.now) × (to ≤ length after.old) × Joinable vias.now first.now ends.now }
    ensures { (v : ℕ) → from ≤ v → v < to → get_or after.new v 0 ≡ first_in (joined_at vias.now first.now ends.now) v (to - v) }
{
    let mut last = NONE;
    for v in (from..to).rev() {
        last = or_else(joined_via(vias, first, ends, v), last);
        after[v] = last;
    }
}

// Of each vertex from `from` up to `to`, how many marked ones come before it there.
pub fn count_marks(marks: &[bool], from: usize, to: usize, counts: &mut [u16])
    requires { (to ≤ length marks.now) × (to ≤ length counts.old) × (length marks.now ≤ 1024) }
    ensures { (v : ℕ) → from ≤ v → v < to → get_or counts.new v 0 ≡ marked_in marks.now from (v - from) }
{
    let mut count: u16 = 0;
    for v in from..to {
        counts[v] = count;
        count += u16::from(marks[v]);
    }
}

// Whether the bounded run from via a to via b is ready: both w's are there, and no run between them is marked unsettled.
pub fn is_ready(before: &[u32], after: &[u32], counts: &[u16], a: usize, b: usize) -> bool
    requires { Readable before.now after.now counts.now a b }
    ensures { result ≡ ready_by before.now after.now counts.now a b }
{
    let u = before[a];
    let w = after[b];
    u != NONE && w != NONE && counts[u as usize] == counts[w as usize]
}

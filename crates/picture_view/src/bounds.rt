// How large the parts of a drawing are, and how far it reaches sideways.
ghost use Rattle.std.specs.Prelude.{◌≡◌, ◌+◌, ◌*◌, ◌≤◌, min, pos, ◌+ℤ◌, ◌-ℤ◌};
ghost use Rattle.ints.specs.Lists.{greatest};
ghost use Rattle.ints.specs.Ints.{size};
ghost use Rattle.ints.specs.Reach.{reach};
ghost use Rattle.picture_view.specs.Measure.{leftmost, rightmost};
ghost use Rattle.picture_view.specs.inner.Edges.{Edged};

use ints::{minus, plus};

// The greatest half-width.
fn greatest_half(halves: &[u16]) -> u16
    ensures { result ≡ greatest halves.now }
{
    halves.iter().copied().max().unwrap_or(0)
}

// u, the lesser of the spacing and the gap with twice the greatest half-width.
pub fn measure(gap: u32, spacing: u32, halves: &[u16]) -> u32
    requires { gap ≤ 100 }
    ensures { result ≡ min spacing (gap + 2 * greatest halves.now) }
{
    spacing.min(gap + 2 * greatest_half(halves) as u32)
}

// The left edge of a vertex, in half steps.
pub fn left_edge(x: i64, half: u16) -> i64
    requires { size x ≤ reach }
    ensures { result ≡ x -ℤ pos (2 * half) }
{
    minus(x, 2 * half as u64)
}

fn right_edge(x: i64, half: u16) -> i64
    requires { size x ≤ reach }
    ensures { result ≡ x +ℤ pos (2 * half) }
{
    plus(x, 2 * half as u64)
}

// The leftmost edge.
pub fn left_end(halves: &[u16], finals: &[i64]) -> i64
    requires { Edged halves.now finals.now }
    ensures { result ≡ leftmost halves.now finals.now }
{
    let mut least = left_edge(finals[0], halves[0]);
    for (v, x) in finals.iter().enumerate() {
        least = least.min(left_edge(*x, halves[v]));
    }
    least
}

// The rightmost edge.
pub fn right_end(halves: &[u16], finals: &[i64]) -> i64
    requires { Edged halves.now finals.now }
    ensures { result ≡ rightmost halves.now finals.now }
{
    let mut most = right_edge(finals[0], halves[0]);
    for (v, x) in finals.iter().enumerate() {
        most = most.max(right_edge(*x, halves[v]));
    }
    most
}

// Arithmetic on positions, and the sum of counts. A position is an i64, a distance a u64, a count a u16. Each result is the
// number that the contract names; where a sum or a cast could leave its type, `requires` bounds the sizes of what it is made of.
#![tactic(auto)]

pub mod refusal;
pub mod within;

ghost use Rattle.std.specs.Prelude.{◌≡◌, ◌+◌, ◌≤◌, ◌<◌, ◌^◌, length, ℤ, pos, ◌+ℤ◌, ◌-ℤ◌};
ghost use Rattle.std.specs.Int.Signed.{lt_z};
ghost use Rattle.ints.specs.Ints.{size, min_z, max_z, gap};
ghost use Rattle.ints.specs.Lists.{sum as sum_of};

pub fn sum(a: i64, b: i64) -> i64
    requires { size a + size b < 2 ^ 63 }
    ensures { result ≡ a +ℤ b }
{
    a + b
}

pub fn difference(a: i64, b: i64) -> i64
    requires { size a + size b < 2 ^ 63 }
    ensures { result ≡ a -ℤ b }
{
    a - b
}

// The position d to the right of a.
pub fn plus(a: i64, d: u64) -> i64
    requires { size a + d < 2 ^ 63 }
    ensures { result ≡ a +ℤ pos d }
{
    a + d as i64
}

// The position d to the left of a.
pub fn minus(a: i64, d: u64) -> i64
    requires { size a + d < 2 ^ 63 }
    ensures { result ≡ a -ℤ pos d }
{
    a - d as i64
}

pub fn lesser(a: i64, b: i64) -> i64
    ensures { result ≡ min_z a b }
{
    a.min(b)
}

pub fn greater(a: i64, b: i64) -> i64
    ensures { result ≡ max_z a b }
{
    a.max(b)
}

// How far apart two positions stand, in either order.
#[tactic(auto, unfolding(crate::specs::Ints::gap))]
pub fn apart(a: i64, b: i64) -> u64
    requires { size a + size b < 2 ^ 63 }
    ensures { result ≡ gap a b }
{
    a.abs_diff(b)
}

// Whether b stands less than d to the right of a; also where b stands to the left of a.
pub fn too_near(a: i64, b: i64, d: u64) -> bool
    requires { (size a + size b < 2 ^ 63) × (d < 2 ^ 63) }
    ensures { result ≡ lt_z (b -ℤ a) (pos d) }
{
    let between = b - a;
    let least = d as i64;
    between < least
}

pub fn wide(x: u16) -> usize
    ensures { result ≡ x }
{
    usize::from(x)
}

// The sum of all numbers of a list.
pub fn total(xs: &[u16]) -> usize
    requires { length xs.now ≤ 2048 }
    ensures { result ≡ sum_of xs.now }
{
    xs.iter().map(|x| usize::from(*x)).sum()
}

// What checks 3 to 5 ask of one segment, of two, or of one vertex.
ghost use Rattle.std.specs.Prelude.{◌≡◌};
ghost use Rattle.plan.specs.Checks.{comes_before};
ghost use Rattle.plan.specs.inner.Graph.{segment, one_down, through};

// Whether a and b are vertices, b one level below a.
pub fn one_down(level: &[u16], a: u32, b: u32) -> bool
    ensures { result ≡ one_down level.now (segment a b) }
{
    let upper = a as usize;
    let lower = b as usize;
    upper < level.len()
        && lower < level.len()
        && usize::from(level[lower]) == usize::from(level[upper]) + 1
}

// Whether the segment from a to b comes before that from c to d.
pub fn comes_before(a: u32, b: u32, c: u32, d: u32) -> bool
    ensures { result ≡ comes_before (segment a b) (segment c d) }
{
    (a, b) < (c, d)
}

// Whether a vertex, if it is a via, has one segment up and one down.
pub fn is_through(via: bool, up: u16, down: u16) -> bool
    ensures { result ≡ through via up down }
{
    !via || (up == 1 && down == 1)
}

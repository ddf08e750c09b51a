// A plan's numbers: whether one is within its limits, and one as an index.
ghost use Rattle.std.specs.Prelude.{◌≡◌};
ghost use Rattle.plan.specs.Limits.{within};

pub fn in_range(low: u32, high: u32, n: u32) -> bool
    ensures { result ≡ within low high n }
{
    (low..=high).contains(&n)
}

pub fn wide(n: u32) -> usize
    ensures { result ≡ n }
{
    n as usize
}

// "Every position lies within ±2^40."
ghost use Rattle.std.specs.Prelude.{◌≡◌};
ghost use Rattle.ints.specs.Reach.{is_within, all_within};

const REACH: i64 = 1 << 40;

pub fn is_within(x: i64) -> bool
    ensures { result ≡ is_within x }
{
    (-REACH..=REACH).contains(&x)
}

pub fn all_within(positions: &[i64]) -> bool
    ensures { result ≡ all_within positions.now }
{
    positions.iter().all(|x| is_within(*x))
}

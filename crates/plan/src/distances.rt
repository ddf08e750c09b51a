// How far siblings stand apart at least.
ghost use Rattle.std.specs.Prelude.{◌≡◌, ◌<◌, length};
ghost use Rattle.plan.specs.inner.Distances.{Narrow, distance_by};

// The distance of siblings u and v.
pub fn distance(gap: u32, u: usize, v: usize, halves: &[u16]) -> u32
    requires { Narrow gap halves.now × (u < length halves.now) × (v < length halves.now) }
    ensures { result ≡ distance_by gap halves.now u v }
{
    u32::from(halves[u]) + gap + u32::from(halves[v])
}

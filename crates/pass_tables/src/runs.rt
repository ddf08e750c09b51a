// "A run on a level is a maximal, possibly empty, stretch of boxes between neighbouring vias or a level end".
ghost use Rattle.std.specs.Prelude.{◌≡◌, ◌-◌, ◌≤◌, length};
ghost use Rattle.pass_tables.specs.inner.Tables.{next_via};

// Where a run ends whose boxes stand from `from` on, on a level that ends before `to`: at the next via, or at the level's end.
pub fn run_end(vias: &[bool], from: usize, to: usize) -> usize
    requires { (from ≤ to) × (to ≤ length vias.now) }
    ensures { result ≡ next_via vias.now from (to - from) }
{
    (from..to).find(|v| vias[*v]).unwrap_or(to)
}

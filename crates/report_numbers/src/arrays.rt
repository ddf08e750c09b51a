// A drawing's arrays in remembered numbers.
ghost use Rattle.std.specs.Prelude.{◌≡◌};
ghost use Rattle.report.specs.Numbers.{positions_by};
ghost use Rattle.report_numbers.specs.inner.Words.{Takes, Numberable, Numbered};

use ints::total;
use plan_renumber::gather;

// Positions by number. `m` has the number of each vertex.
fn positions_by(m: &[u16], xs: &[i64], out: &mut [i64])
    requires { Takes m.now xs.now out.old }
    ensures { out.new ≡ positions_by m.now xs.now }
{
    for (v, n) in m.iter().enumerate() {
        out[usize::from(*n)] = xs[v];
    }
}

// The drawing in numbers m: its positions are left in `starts` and `ends`, its boxes at the front of `names`. What lies in
// `vertices` past the boxes that are counted may be anything.
pub fn in_numbers(
    m: &[u16],
    counts: &[u16],
    preliminary: &[i64],
    finals: &[i64],
    vertices: &[u16],
    starts: &mut [i64],
    ends: &mut [i64],
    names: &mut [u16],
)
    requires { Numberable m.now counts.now preliminary.now finals.now vertices.now starts.old ends.old names.old }
    ensures { Numbered m.now counts.now preliminary.now finals.now vertices.now
        starts.new ends.new names.new }
{
    positions_by(m, preliminary, starts);
    positions_by(m, finals, ends);
    let n = total(counts);
    gather(m, &vertices[..n], &mut names[..n]);
}

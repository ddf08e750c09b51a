// One line of the report of a drawing in remembered numbers.
ghost use Rattle.text_write.specs.inner.Written.{Fronts};
ghost use Rattle.report_numbers.specs.inner.Rooms.{line_by, LineRoomBy};

use crate::arrays::in_numbers;
use plan::data::Plan;
use report::data::Drawing;
use report_lines::numbered::put_report_line;

// Line n, at the front of a buffer that has room for it: how many bytes the line has. `m` has the number of each vertex.
pub fn put_line_by(
    m: &[u16],
    spacing: u32,
    sizes: &[u16],
    preliminary: &[i64],
    finals: &[i64],
    passes: &[u16],
    levels: &[u16],
    counts: &[u16],
    vertices: &[u16],
    positions: &[i64],
    n: usize,
    out: &mut [u8],
) -> usize
    requires { LineRoomBy m.now spacing sizes.now preliminary.now finals.now passes.now levels.now counts.now vertices.now positions.now n out.old }
    ensures { Fronts (line_by m.now spacing sizes.now preliminary.now finals.now
        passes.now levels.now counts.now vertices.now positions.now n)
        out.old result out.new }
{
    let mut starts = [0i64; Plan::MAX_VERTICES];
    let mut ends = [0i64; Plan::MAX_VERTICES];
    let mut names = [0u16; Drawing::MAX_LISTED];
    let starts = &mut starts[..m.len()];
    let ends = &mut ends[..m.len()];
    in_numbers(
        m,
        counts,
        preliminary,
        finals,
        vertices,
        starts,
        ends,
        &mut names,
    );
    put_report_line(
        spacing, sizes, starts, ends, passes, levels, counts, &names, positions, n, out,
    )
}

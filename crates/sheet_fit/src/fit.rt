// What is shown in a lent buffer, if the buffer has room for it; else 14.
ghost use Rattle.plan.specs.Plan.{PlanData};
ghost use Rattle.marks.specs.Marks.{mark_count, all_numbers};
ghost use Rattle.marks.specs.inner.Asked.{AskedAll, DataOf};
ghost use Rattle.report_numbers.specs.inner.Rooms.{report_by};
ghost use Rattle.sheet.specs.Calls.{Writes};
ghost use Rattle.sheet_fit.specs.inner.Fitted.{fitted, fitted_text};
ghost use Rattle.sheet_fit.specs.inner.Fit.{report_in, FitsRoom, FitsRoomBy};

use ints::refusal::Refusal;
use marks::put::put_marks;
use plan::data::Plan;
use report::data::Drawing;
use report_lines::whole::put_report;
use report_numbers::arrays::in_numbers;
use text_write::number::put_word;

// No report is longer.
pub const MAX_REPORT: usize = 119834;

// A buffer that has room for every report.
pub fn blank() -> [u8; MAX_REPORT] {
    [0u8; MAX_REPORT]
}

// A text at the front of a lent buffer.
pub fn fit(text: &[u8], out: &mut [u8]) -> Result<usize, Refusal>
    ensures { Writes (fitted_text text.now out.old) result out.new }
{
    if out.len() < text.len() {
        return Err(Refusal::Room);
    }
    Ok(put_word(out, 0, text))
}

// All lines of a drawing that lies in slices: made in the lent buffer itself where that has room for every report, else in a buffer of its
// own, and copied.
pub fn fit_report(
    spacing: u32,
    sizes: &[u16],
    preliminary: &[i64],
    finals: &[i64],
    passes: &[u16],
    levels: &[u16],
    boxes: &[u16],
    vertices: &[u16],
    positions: &[i64],
    out: &mut [u8],
) -> Result<usize, Refusal>
    requires { FitsRoom spacing sizes.now preliminary.now finals.now passes.now levels.now boxes.now vertices.now positions.now }
    ensures { Writes (fitted_text (report_in spacing sizes.now preliminary.now finals.now
        passes.now levels.now boxes.now vertices.now positions.now)
        out.old) result out.new }
{
    if out.len() < MAX_REPORT {
        let mut room = blank();
        let length = put_report(
            spacing,
            sizes,
            preliminary,
            finals,
            passes,
            levels,
            boxes,
            vertices,
            positions,
            &mut room,
        );
        return fit(&room[..length], out);
    }
    Ok(put_report(
        spacing,
        sizes,
        preliminary,
        finals,
        passes,
        levels,
        boxes,
        vertices,
        positions,
        out,
    ))
}

// The same in remembered numbers: `m` has the number of each vertex.
pub fn fit_report_by(
    m: &[u16],
    spacing: u32,
    sizes: &[u16],
    preliminary: &[i64],
    finals: &[i64],
    passes: &[u16],
    levels: &[u16],
    boxes: &[u16],
    vertices: &[u16],
    positions: &[i64],
    out: &mut [u8],
) -> Result<usize, Refusal>
    requires { FitsRoomBy m.now spacing sizes.now preliminary.now finals.now passes.now levels.now boxes.now vertices.now positions.now }
    ensures { Writes (fitted_text (report_by m.now spacing sizes.now preliminary.now finals.now
        passes.now levels.now boxes.now vertices.now positions.now)
        out.old) result out.new }
{
    let mut starts = [0i64; Plan::MAX_VERTICES];
    let mut ends = [0i64; Plan::MAX_VERTICES];
    let mut names = [0u16; Drawing::MAX_LISTED];
    let v = m.len();
    in_numbers(
        m,
        boxes,
        preliminary,
        finals,
        vertices,
        &mut starts[..v],
        &mut ends[..v],
        &mut names,
    );
    fit_report(
        spacing,
        sizes,
        &starts[..v],
        &ends[..v],
        passes,
        levels,
        boxes,
        &names,
        positions,
        out,
    )
}

// All marks of a drawing that lies in slices, five numbers each, with how many there are.
pub fn fit_marks(
    spacing: u32,
    sizes: &[u16],
    vias: &[bool],
    halves: &[u16],
    uppers: &[u32],
    lowers: &[u32],
    finals: &[i64],
    out: &mut [f64],
) -> Result<usize, Refusal>
    requires { AskedAll spacing sizes.now vias.now halves.now uppers.now lowers.now finals.now }
    ensures { (p : PlanData) → DataOf p spacing sizes.now vias.now halves.now uppers.now
        lowers.now → Writes (fitted (mark_count p) (all_numbers p finals.now) out.old) result out.new }
{
    let n = vias.len() + uppers.len();
    if out.len() < 5 * n {
        return Err(Refusal::Room);
    }
    put_marks(spacing, sizes, vias, halves, uppers, lowers, finals, out);
    Ok(n)
}

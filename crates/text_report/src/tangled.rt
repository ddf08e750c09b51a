// The report of a text that may be tangled.
ghost use Rattle.plan.specs.inner.Held.{held_plan};
ghost use Rattle.text.specs.Reading.{tangled_reading};
ghost use Rattle.sheet.specs.Calls.{Writes};
ghost use Rattle.sheet_fit.specs.inner.Fitted.{fitted_text};
ghost use Rattle.text_report.specs.Tangled.{tangled_report_of};
ghost use Rattle.text_report.specs.inner.Numbered.{Remembers, report_numbered};

use ints::refusal::Refusal;
use pass_draw::draw::draw;
use plan::data::Plan;
use report::data::Drawing;
use sheet_fit::fit::fit_report_by;
use text_untangle::read_tangled_into;

// The report of a rearranged plan, whose vertices have these numbers in the text.
fn report_untangled(
    gap: u32,
    spacing: u32,
    sizes: &[u16],
    vias: &[bool],
    halves: &[u16],
    uppers: &[u32],
    lowers: &[u32],
    ratings: &[u32],
    numbers: &[u16],
    out: &mut [u8],
) -> Result<usize, Refusal>
    requires { Remembers (held_plan gap spacing sizes.now vias.now halves.now uppers.now lowers.now ratings.now) numbers.now }
    ensures { Writes (fitted_text (report_numbered (held_plan gap spacing sizes.now vias.now halves.now uppers.now
        lowers.now ratings.now) numbers.now) out.old) result out.new }
{
    let v = vias.len();
    let mut preliminary = [0i64; Plan::MAX_VERTICES];
    let mut finals = [0i64; Plan::MAX_VERTICES];
    let mut passes = [0u16; Drawing::MAX_LISTED];
    let mut levels = [0u16; Drawing::MAX_LISTED];
    let mut boxes = [0u16; Drawing::MAX_LISTED];
    let mut vertices = [0u16; Drawing::MAX_LISTED];
    let mut positions = [0i64; Drawing::MAX_LISTED];
    let p = draw(
        gap,
        sizes,
        vias,
        halves,
        uppers,
        lowers,
        ratings,
        &mut preliminary[..v],
        &mut finals[..v],
        &mut passes,
        &mut levels,
        &mut boxes,
        &mut vertices,
        &mut positions,
    );
    fit_report_by(
        numbers,
        spacing,
        sizes,
        &preliminary[..v],
        &finals[..v],
        &passes[..p],
        &levels[..p],
        &boxes[..p],
        &vertices,
        &positions,
        out,
    )
}

// All report lines of a text that may be tangled in a lent buffer, with their length; later bytes stay. Refused 1 to 5 or 14, the buffer
// stays as it is.
pub fn report_tangled_text(text: &[u8], out: &mut [u8]) -> Result<usize, Refusal>
    ensures { Writes (tangled_report_of (tangled_reading text.now) out.old) result out.new }
{
    let mut sizes = [0u16; Plan::MAX_LEVELS];
    let mut vias = [false; Plan::MAX_VERTICES];
    let mut halves = [0u16; Plan::MAX_VERTICES];
    let mut uppers = [0u32; Plan::MAX_SEGMENTS];
    let mut lowers = [0u32; Plan::MAX_SEGMENTS];
    let mut ratings = [0u32; Plan::MAX_SEGMENTS];
    let mut numbers = [0u16; Plan::MAX_VERTICES];
    let s = read_tangled_into(
        text,
        &mut sizes,
        &mut vias,
        &mut halves,
        &mut uppers,
        &mut lowers,
        &mut ratings,
        &mut numbers,
    )?;
    let k = s.levels as usize;
    let v = s.vertices;
    let e = s.segments;
    report_untangled(
        s.gap,
        s.spacing,
        &sizes[..k],
        &vias[..v],
        &halves[..v],
        &uppers[..e],
        &lowers[..e],
        &ratings[..e],
        &numbers[..v],
        out,
    )
}

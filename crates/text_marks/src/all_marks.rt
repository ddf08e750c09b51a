// The marks of a text.
ghost use Rattle.std.specs.Prelude.{◌≡◌, true};
ghost use Rattle.plan.specs.Acceptable.{acceptable};
ghost use Rattle.plan.specs.inner.Held.{held_plan};
ghost use Rattle.text.specs.Reading.{accepted, reading};
ghost use Rattle.sheet.specs.Calls.{Writes};
ghost use Rattle.text_marks.specs.Marks.{marks_of};

use crate::drawn::draw_positions;
use ints::refusal::Refusal;
use plan::data::Plan;
use sheet_fit::fit::fit_marks;
use text_read::read_into;

// The marks of a plan that was read.
fn marks_plan(
    gap: u32,
    spacing: u32,
    sizes: &[u16],
    vias: &[bool],
    halves: &[u16],
    uppers: &[u32],
    lowers: &[u32],
    ratings: &[u32],
    out: &mut [f64],
) -> Result<usize, Refusal>
    requires { acceptable (held_plan gap spacing sizes.now vias.now halves.now uppers.now lowers.now ratings.now) ≡ true }
    ensures { Writes (marks_of (accepted (held_plan gap spacing sizes.now vias.now halves.now uppers.now
        lowers.now ratings.now)) out.old) result out.new }
{
    let v = vias.len();
    let mut preliminary = [0i64; Plan::MAX_VERTICES];
    let mut finals = [0i64; Plan::MAX_VERTICES];
    draw_positions(
        gap,
        sizes,
        vias,
        halves,
        uppers,
        lowers,
        ratings,
        &mut preliminary[..v],
        &mut finals[..v],
    );
    fit_marks(
        spacing,
        sizes,
        vias,
        halves,
        uppers,
        lowers,
        &finals[..v],
        out,
    )
}

// All marks of the text's plan in a lent buffer, five numbers each, with how many there are; later numbers stay. Refused 1 to 6 or
// 14, the buffer stays as it is.
pub fn marks_text(text: &[u8], out: &mut [f64]) -> Result<usize, Refusal>
    ensures { Writes (marks_of (reading text.now) out.old) result out.new }
{
    let mut sizes = [0u16; Plan::MAX_LEVELS];
    let mut vias = [false; Plan::MAX_VERTICES];
    let mut halves = [0u16; Plan::MAX_VERTICES];
    let mut uppers = [0u32; Plan::MAX_SEGMENTS];
    let mut lowers = [0u32; Plan::MAX_SEGMENTS];
    let mut ratings = [0u32; Plan::MAX_SEGMENTS];
    let r = read_into(
        text,
        &mut sizes,
        &mut vias,
        &mut halves,
        &mut uppers,
        &mut lowers,
        &mut ratings,
    );
    r.verdict?;
    let s = r.scanned;
    let k = s.levels as usize;
    let v = s.vertices;
    let e = s.segments;
    marks_plan(
        s.gap,
        s.spacing,
        &sizes[..k],
        &vias[..v],
        &halves[..v],
        &uppers[..e],
        &lowers[..e],
        &ratings[..e],
        out,
    )
}

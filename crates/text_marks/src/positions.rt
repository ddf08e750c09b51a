// The positions of a text's drawing.
ghost use Rattle.plan.specs.Plan.{PlanData};
ghost use Rattle.pass_draw.specs.inner.Made.{HoldsRated, SomeRated};
ghost use Rattle.text.specs.Reading.{accepted, reading};
ghost use Rattle.sheet.specs.Calls.{Writes};
ghost use Rattle.text_marks.specs.Positions.{positions_of};

use crate::drawn::draw_positions;
use ints::refusal::Refusal;
use pass_draw::draw::copy_positions;
use plan::data::Plan;
use text_read::read_into;

// The positions of a plan that was read.
fn positions_plan(
    gap: u32,
    sizes: &[u16],
    vias: &[bool],
    halves: &[u16],
    uppers: &[u32],
    lowers: &[u32],
    ratings: &[u32],
    out: &mut [i64],
) -> Result<usize, Refusal>
    requires { SomeRated gap sizes.now vias.now halves.now uppers.now lowers.now ratings.now }
    ensures { (p : PlanData) → HoldsRated p gap sizes.now vias.now halves.now uppers.now lowers.now ratings.now
        → Writes (positions_of (accepted p) out.old) result out.new }
{
    let v = vias.len();
    if out.len() < v + v {
        return Err(Refusal::Room);
    }
    let mut finals = [0i64; Plan::MAX_VERTICES];
    draw_positions(
        gap,
        sizes,
        vias,
        halves,
        uppers,
        lowers,
        ratings,
        &mut out[..v],
        &mut finals[..v],
    );
    copy_positions(&finals[..v], &mut out[v..v + v]);
    Ok(v)
}

// Preliminary positions and then final ones of the text's plan in a lent buffer, with how many vertices it has; later numbers stay.
// Refused 1 to 6 or 14, the buffer stays as it is.
pub fn positions_text(text: &[u8], out: &mut [i64]) -> Result<usize, Refusal>
    ensures { Writes (positions_of (reading text.now) out.old) result out.new }
{
    let mut sizes = [0u16; Plan::MAX_LEVELS];
    let mut vias = [false; Plan::MAX_VERTICES];
    let mut halves = [0u16; Plan::MAX_VERTICES];
    let mut uppers = [0u32; Plan::MAX_SEGMENTS];
    let mut lowers = [0u32; Plan::MAX_SEGMENTS];
    let mut ratings = [0u32; Plan::MAX_SEGMENTS];
    let r = read_into(
        text,
        &mut sizes,
        &mut vias,
        &mut halves,
        &mut uppers,
        &mut lowers,
        &mut ratings,
    );
    r.verdict?;
    let s = r.scanned;
    let k = s.levels as usize;
    let v = s.vertices;
    let e = s.segments;
    positions_plan(
        s.gap,
        &sizes[..k],
        &vias[..v],
        &halves[..v],
        &uppers[..e],
        &lowers[..e],
        &ratings[..e],
        out,
    )
}

// The picture of a text.
ghost use Rattle.std.specs.Prelude.{◌≡◌, true};
ghost use Rattle.plan.specs.Acceptable.{acceptable};
ghost use Rattle.plan.specs.inner.Held.{held_plan};
ghost use Rattle.text.specs.Reading.{accepted, reading};
ghost use Rattle.picture_fit.specs.Fitted.{Leaves};
ghost use Rattle.picture_text.specs.Text.{picture_in};
ghost use Rattle.picture_text.specs.inner.Named.{NamedPlan};

use ints::refusal::Refusal;
use picture_fit::fit::fit_picture;
use picture_fit::types::PictureError;
use picture_names::index::index_names;
use plan::data::Plan;
use text_marks::drawn::draw_positions;
use text_read::read_into;

// The picture of a plan that was read, with names that stand where the arrays say.
fn picture_named(
    gap: u32,
    spacing: u32,
    sizes: &[u16],
    vias: &[bool],
    halves: &[u16],
    uppers: &[u32],
    lowers: &[u32],
    ratings: &[u32],
    names: &[u8],
    starts: &[u32],
    ends: &[u32],
    out: &mut [u8],
) -> Result<usize, PictureError<Refusal>>
    requires { NamedPlan (held_plan gap spacing sizes.now vias.now halves.now uppers.now lowers.now ratings.now) names.now starts.now ends.now }
    ensures { Leaves (picture_in (accepted (held_plan gap spacing sizes.now vias.now halves.now uppers.now
        lowers.now ratings.now)) names.now out.old) result out.new }
{
    let v = vias.len();
    let mut preliminary = [0i64; Plan::MAX_VERTICES];
    let mut finals = [0i64; Plan::MAX_VERTICES];
    draw_positions(
        gap,
        sizes,
        vias,
        halves,
        uppers,
        lowers,
        ratings,
        &mut preliminary[..v],
        &mut finals[..v],
    );
    fit_picture(
        gap,
        spacing,
        sizes,
        vias,
        halves,
        uppers,
        lowers,
        ratings,
        &finals[..v],
        names,
        starts,
        ends,
        out,
    )
}

// The picture of a plan that was read, with the names of a text.
fn picture_plan(
    gap: u32,
    spacing: u32,
    sizes: &[u16],
    vias: &[bool],
    halves: &[u16],
    uppers: &[u32],
    lowers: &[u32],
    ratings: &[u32],
    names: &[u8],
    out: &mut [u8],
) -> Result<usize, PictureError<Refusal>>
    requires { acceptable (held_plan gap spacing sizes.now vias.now halves.now uppers.now lowers.now ratings.now) ≡ true }
    ensures { Leaves (picture_in (accepted (held_plan gap spacing sizes.now vias.now halves.now uppers.now
        lowers.now ratings.now)) names.now out.old) result out.new }
{
    let mut starts = [0u32; Plan::MAX_VERTICES];
    let mut ends = [0u32; Plan::MAX_VERTICES];
    index_names(names, vias, &mut starts, &mut ends)?;
    picture_named(
        gap, spacing, sizes, vias, halves, uppers, lowers, ratings, names, &starts, &ends, out,
    )
}

// The picture of the text's plan, its boxes named by a text of names, in a lent buffer, with its length; later bytes stay. Refused 1 to 6 or
// 14, or for a line of the names, the buffer stays as it is.
pub fn picture_text(
    text: &[u8],
    names: &[u8],
    out: &mut [u8],
) -> Result<usize, PictureError<Refusal>>
    ensures { Leaves (picture_in (reading text.now) names.now out.old) result out.new }
{
    let mut sizes = [0u16; Plan::MAX_LEVELS];
    let mut vias = [false; Plan::MAX_VERTICES];
    let mut halves = [0u16; Plan::MAX_VERTICES];
    let mut uppers = [0u32; Plan::MAX_SEGMENTS];
    let mut lowers = [0u32; Plan::MAX_SEGMENTS];
    let mut ratings = [0u32; Plan::MAX_SEGMENTS];
    let r = read_into(
        text,
        &mut sizes,
        &mut vias,
        &mut halves,
        &mut uppers,
        &mut lowers,
        &mut ratings,
    );
    r.verdict?;
    let s = r.scanned;
    let k = s.levels as usize;
    let v = s.vertices;
    let e = s.segments;
    picture_plan(
        s.gap,
        s.spacing,
        &sizes[..k],
        &vias[..v],
        &halves[..v],
        &uppers[..e],
        &lowers[..e],
        &ratings[..e],
        names,
        out,
    )
}

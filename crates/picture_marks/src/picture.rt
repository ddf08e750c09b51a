// The picture of a plan's drawing.
ghost use Rattle.std.specs.Prelude.{length};
ghost use Rattle.plan.specs.inner.Held.{held_plan};
ghost use Rattle.text_write.specs.inner.Written.{Room, Wrote};
ghost use Rattle.picture_marks.specs.Picture.{picture_of};
ghost use Rattle.picture_marks.specs.inner.Asked.{names_in, PictureAsked};

use crate::document::put_document;
use picture_view::bounds::measure;
use plan::data::Plan;
use plan_checks::levels::heights;

// Writes the whole document at the front of a lent buffer, and answers its length. The name of vertex v is the part of `names` from
// `starts[v]` to `ends[v]`.
pub fn put_picture(
    gap: u32,
    spacing: u32,
    sizes: &[u16],
    vias: &[bool],
    halves: &[u16],
    uppers: &[u32],
    lowers: &[u32],
    ratings: &[u32],
    finals: &[i64],
    names: &[u8],
    starts: &[u32],
    ends: &[u32],
    out: &mut [u8],
) -> usize
    requires { PictureAsked (held_plan gap spacing sizes.now vias.now halves.now uppers.now lowers.now ratings.now) finals.now names.now starts.now ends.now
        × Room (picture_of (held_plan gap spacing sizes.now vias.now halves.now uppers.now lowers.now ratings.now) finals.now
        (names_in names.now starts.now ends.now (length vias.now))) out.old 0 }
    ensures { Wrote (picture_of (held_plan gap spacing sizes.now vias.now halves.now uppers.now lowers.now
        ratings.now) finals.now (names_in names.now starts.now ends.now (length vias.now)))
        out.old 0 result out.new }
{
    let mut height = [0u64; Plan::MAX_VERTICES];
    let height = &mut height[..vias.len()];
    heights(spacing, sizes, height);
    let u = measure(gap, spacing, halves);
    let high = spacing as u64 * (sizes.len() - 1) as u64 + u as u64;
    put_document(
        out, u, high, height, vias, halves, uppers, lowers, ratings, finals, names, starts, ends,
    )
}

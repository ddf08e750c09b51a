// A picture in a lent buffer, if the buffer has room for it; else 14.
ghost use Rattle.std.specs.Prelude.{◌≤◌, map, length};
ghost use Rattle.plan.specs.inner.Held.{held_plan};
ghost use Rattle.ints.specs.Lists.{sum};
ghost use Rattle.picture_marks.specs.Picture.{picture_of};
ghost use Rattle.picture_marks.specs.inner.Asked.{names_in, PictureAsked};
ghost use Rattle.picture_fit.specs.Fitted.{fitted, Leaves};

use crate::types::PictureError;
use ints::refusal::Refusal;
use picture_marks::picture::put_picture;
use text_write::number::put_word;

// No picture is longer.
pub const MAX_PICTURE: usize = 1306334;

// A text at the front of a lent buffer.
fn fit(text: &[u8], out: &mut [u8]) -> Result<usize, PictureError<Refusal>>
    ensures { Leaves (fitted text.now out.old) result out.new }
{
    if out.len() < text.len() {
        return Err(PictureError::Refused(Refusal::Room));
    }
    Ok(put_word(out, 0, text))
}

// A buffer that has room for every picture.
pub fn blank() -> [u8; MAX_PICTURE] {
    [0u8; MAX_PICTURE]
}

// The picture of a plan and a drawing that lie in slices: made in the lent buffer itself where that has room for every picture, else in
// a buffer of its own, and copied.
pub fn fit_picture(
    gap: u32,
    spacing: u32,
    sizes: &[u16],
    vias: &[bool],
    halves: &[u16],
    uppers: &[u32],
    lowers: &[u32],
    ratings: &[u32],
    finals: &[i64],
    names: &[u8],
    starts: &[u32],
    ends: &[u32],
    out: &mut [u8],
) -> Result<usize, PictureError<Refusal>>
    requires { PictureAsked (held_plan gap spacing sizes.now vias.now halves.now uppers.now lowers.now ratings.now) finals.now names.now starts.now ends.now
        × (sum (map length (names_in names.now starts.now ends.now (length vias.now))) ≤ 65536) }
    ensures { Leaves (fitted (picture_of (held_plan gap spacing sizes.now vias.now halves.now uppers.now lowers.now
        ratings.now) finals.now (names_in names.now starts.now ends.now (length vias.now)))
        out.old) result out.new }
{
    if out.len() < MAX_PICTURE {
        let mut room = blank();
        let length = put_picture(
            gap, spacing, sizes, vias, halves, uppers, lowers, ratings, finals, names, starts,
            ends, &mut room,
        );
        return fit(&room[..length], out);
    }
    Ok(put_picture(
        gap, spacing, sizes, vias, halves, uppers, lowers, ratings, finals, names, starts, ends,
        out,
    ))
}

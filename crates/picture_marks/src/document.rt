// The document of a drawing that lies in slices.
ghost use Rattle.text_write.specs.inner.Written.{Room, Wrote};
ghost use Rattle.picture_names.specs.inner.Indexed.{name_at};
ghost use Rattle.picture_marks.specs.inner.Listed.{opening_in, OpeningAsked, document_in, DocumentAsked};

use crate::walks::{put_bends, put_boxes, put_lines};
use picture_numbers::attributes::put_measured;
use picture_view::bounds::{left_end, right_end};
use picture_view::head::{put_head, put_style};
use text_write::number::put_word;

// The first lines, up to that which opens the group of lines.
fn put_opening(out: &mut [u8], measure: u32, height: u64, halves: &[u16], finals: &[i64]) -> usize
    requires { OpeningAsked measure height halves.now finals.now × Room (opening_in measure height halves.now finals.now) out.old 0 }
    ensures { Wrote (opening_in measure height halves.now finals.now) out.old 0 result out.new }
{
    let lo = left_end(halves, finals);
    let hi = right_end(halves, finals);
    let a = put_head(out, 0, lo, hi, measure, height);
    let b = put_style(out, a);
    let c = put_measured(
        out,
        b,
        b"<g class=\"lines\" stroke-width=\"",
        20 * measure as u64,
    );
    put_word(out, c, b"\">\n")
}

// The whole document, in a view so high.
pub fn put_document(
    out: &mut [u8],
    measure: u32,
    height: u64,
    heights: &[u64],
    vias: &[bool],
    halves: &[u16],
    uppers: &[u32],
    lowers: &[u32],
    ratings: &[u32],
    finals: &[i64],
    names: &[u8],
    starts: &[u32],
    ends: &[u32],
) -> usize
    requires { DocumentAsked measure height heights.now vias.now halves.now uppers.now lowers.now ratings.now finals.now names.now starts.now ends.now
        × Room (document_in measure height heights.now vias.now halves.now uppers.now lowers.now ratings.now finals.now
        (name_at names.now starts.now ends.now)) out.old 0 }
    ensures { Wrote (document_in measure height heights.now vias.now halves.now uppers.now lowers.now
        ratings.now finals.now (name_at names.now starts.now ends.now)) out.old 0 result out.new }
{
    let a = put_opening(out, measure, height, halves, finals);
    let b = put_lines(out, a, measure, heights, uppers, lowers, ratings, finals);
    let c = put_word(out, b, b"</g>\n<g class=\"bends\">\n");
    let d = put_bends(out, c, measure, heights, vias, finals);
    let e = put_measured(
        out,
        d,
        b"</g>\n<g class=\"boxes\" stroke-width=\"",
        20 * measure as u64,
    );
    let f = put_word(out, e, b"\">\n");
    let g = put_boxes(
        out, f, measure, heights, vias, halves, finals, names, starts, ends,
    );
    put_word(out, g, b"</g>\n</svg>\n")
}

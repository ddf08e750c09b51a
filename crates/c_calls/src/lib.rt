// The calls for C and Rust: numbers and slices alone.
#![tactic(auto)]

ghost use Rattle.run.specs.Call.{call_of};
ghost use Rattle.text.specs.Reading.{reading, tangled_reading};
ghost use Rattle.text_write.specs.Again.{rewritten};
ghost use Rattle.script_told.specs.Scripts.{script_of};
ghost use Rattle.sheet_text.specs.Back.{text_back};
ghost use Rattle.text_marks.specs.Marks.{marks_of};
ghost use Rattle.text_marks.specs.Positions.{positions_of};
ghost use Rattle.text_report.specs.Tangled.{tangled_report_of};
ghost use Rattle.text_report.specs.Texts.{report_of};
ghost use Rattle.text_untangle.specs.Text.{untangled_text};
ghost use Rattle.picture_text.specs.Text.{picture_in};
ghost use Rattle.c_codes.specs.Code.{Codes};
ghost use Rattle.c_codes.specs.Again as again;
ghost use Rattle.c_codes.specs.Picture as picture;
ghost use Rattle.c_codes.specs.Untangled as untangled;
ghost use Rattle.c_codes.specs.Run.{bound_of, Answers};

use c_codes::{bound, code, picture_code, run_code};
use picture_text::whole::picture_text;
use place_run::call::place_run;
use script_run::script::answers;
use sheet_text::back::text_back;
use text_marks::all_marks::marks_text;
use text_marks::positions::positions_text;
use text_report::tangled::report_tangled_text;
use text_report::whole::report_text;
use text_untangle::again::untangle_text;
use text_write::again::rewrite;

// How many bytes all report lines of the text's plan have, which are at the front of the buffer; -N if the text is refused with N,
// -14 if the buffer is shorter than the lines. Where it is negative the buffer stays as it is.
#[unsafe(no_mangle)]
pub extern "C" fn report_c(text: &[u8], out: &mut [u8]) -> i64
    ensures { Codes (report_of (reading text.now) out.old) result out.new }
{
    let answer = report_text(text, out);
    code(answer)
}

// How many marks the drawing of the text's plan has, which are at the front of the buffer, five numbers each; -N if the text is
// refused with N, -14 if the buffer is shorter than the marks. Where it is negative the buffer stays as it is.
#[unsafe(no_mangle)]
pub extern "C" fn marks_c(text: &[u8], out: &mut [f64]) -> i64
    ensures { Codes (marks_of (reading text.now) out.old) result out.new }
{
    let answer = marks_text(text, out);
    code(answer)
}

// How many vertices the text's plan has: of V vertices the preliminary positions are in out[0..V] and the final ones in out[V..2V]; -N
// if the text is refused with N, -14 if the buffer is shorter than that. Where it is negative the buffer stays as it is.
#[unsafe(no_mangle)]
pub extern "C" fn draw_c(text: &[u8], out: &mut [i64]) -> i64
    ensures { Codes (positions_of (reading text.now) out.old) result out.new }
{
    let answer = positions_text(text, out);
    code(answer)
}

// How many bytes of the plan's text were written, -N if the text is refused with N, -14 if the buffer is too short for the
// plan's text. Where it is negative the buffer stays as it is.
#[unsafe(no_mangle)]
pub extern "C" fn reread_c(text: &[u8], out: &mut [u8]) -> i64
    ensures { again.Codes (rewritten (reading text.now) out.old) result out.new }
{
    let answer = rewrite(text, out);
    code(answer)
}

// What `report_c` gives, of a text that may be tangled: the report of the rearranged plan in the numbers of the text, refused with 1 to 5
// or 14 only.
#[unsafe(no_mangle)]
pub extern "C" fn report_tangled_c(text: &[u8], out: &mut [u8]) -> i64
    ensures { Codes (tangled_report_of (tangled_reading text.now) out.old) result out.new }
{
    let answer = report_tangled_text(text, out);
    code(answer)
}

// How many bytes the text has again, loaded by E1's way and given back in the numbers of the text; else as for `report_tangled_c`.
#[unsafe(no_mangle)]
pub extern "C" fn text_back_c(text: &[u8], out: &mut [u8]) -> i64
    ensures { Codes (text_back text.now out.old) result out.new }
{
    let answer = text_back(text, out);
    code(answer)
}

// How many bytes the text of the rearranged plan has, which is at the front of the first buffer, and at the front of the second stands the
// number in the text of each vertex; -N if the text is refused with N, -14 if a buffer is too short. Where it is negative both stay as they are.
#[unsafe(no_mangle)]
pub extern "C" fn untangle_c(text: &[u8], out: &mut [u8], numbers: &mut [u16]) -> i64
    ensures { untangled.Codes (untangled_text (tangled_reading text.now) out.old numbers.old) result out.new numbers.new }
{
    let answer = untangle_text(text, out, numbers);
    code(answer)
}

// How many bytes the picture of the text's plan has, its boxes named by a text of names, which is at the front of the buffer; -N if the text
// is refused with N, -(100 + L) if line L is the first of the names that is refused, or the names are too long, L then 0; -14 if the
// buffer is shorter than the picture. Where it is negative the buffer stays as it is.
#[unsafe(no_mangle)]
pub extern "C" fn picture_c(text: &[u8], names: &[u8], out: &mut [u8]) -> i64
    ensures { picture.Codes (picture_in (reading text.now) names.now out.old) result out.new }
{
    let answer = picture_text(text, names, out);
    picture_code(answer)
}

// How many bytes the answers to a script's commands have, which are at the front of the buffer; -14 if the buffer is shorter than the
// answers. Where it is negative the buffer stays as it is.
#[unsafe(no_mangle)]
pub extern "C" fn script_c(script: &[u8], out: &mut [u8]) -> i64
    ensures { Codes (script_of script.now out.old) result out.new }
{
    let answer = answers(script, out);
    code(answer)
}

// 0 if the run is accepted, 8 if it is refused. A flag that is not 0 means that there is that bound.
#[unsafe(no_mangle)]
pub extern "C" fn place_run_c(
    r: u64,
    has_left: u32,
    left: i64,
    has_right: u32,
    right: i64,
    old: &[i64],
    distances: &[u64],
    counts: &[u64],
    neighbours: &[i64],
    ratings: &[u64],
    answer: &mut [i64],
) -> u32
    ensures { Answers (call_of (record {
      boxes = r;
      left = bound_of has_left left;
      right = bound_of has_right right;
      old = old.now;
      distances = distances.now;
      counts = counts.now;
      neighbours = neighbours.now;
      ratings = ratings.now;
    }) answer.old) result answer.new }
{
    let answered = place_run(
        r,
        bound(has_left, left),
        bound(has_right, right),
        old,
        distances,
        counts,
        neighbours,
        ratings,
        answer,
    );
    run_code(answered)
}

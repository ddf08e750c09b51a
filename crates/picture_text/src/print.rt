// What the program picture prints.
ghost use Rattle.std.specs.Prelude.{◌≤◌, length};
ghost use Rattle.text.specs.Reading.{reading};
ghost use Rattle.text_write.specs.inner.Written.{Fronts};
ghost use Rattle.picture_marks.specs.inner.Asked.{max_picture};
ghost use Rattle.picture_text.specs.Printed.{names_refused_line, printed};

use crate::whole::picture_text;
use picture_fit::types::PictureError;
use picture_names::types::BadLine;
use text_write::again::refuse;
use text_write::number::{put_then, put_word};

// "(names refused at line L)"
fn refuse_names(line: u32, out: &mut [u8]) -> usize
    requires { max_picture ≤ length out.old }
    ensures { Fronts (names_refused_line line) out.old result out.new }
{
    let at = put_word(out, 0, b"(names refused at line ");
    put_then(out, at, u64::from(line), b")\n")
}

// The picture, or the one line that says what was refused, at the front of a buffer that has room for every picture: how many bytes.
pub fn print(text: &[u8], names: &[u8], out: &mut [u8]) -> usize
    requires { max_picture ≤ length out.old }
    ensures { Fronts (printed (reading text.now) names.now) out.old result out.new }
{
    match picture_text(text, names, out) {
        Ok(n) => n,
        Err(PictureError::Refused(refusal)) => refuse(refusal.number(), out),
        Err(PictureError::Names(BadLine(line))) => refuse_names(line, out),
    }
}

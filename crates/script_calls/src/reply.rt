// What a call replied, as the line of its answer in a lent buffer.
ghost use Rattle.std.specs.Prelude.{◌≡◌, take};
ghost use Rattle.text_write.specs.inner.Written.{Room, Wrote};
ghost use Rattle.script_answers.specs.Answers.{text as texted, line_of};
ghost use Rattle.script_calls.specs.inner.Answered.{reply_line, AnswerRoom, Fitted};

use calls::types::Reply;
use ints::refusal::Refusal;
use script_answers::answers::{say_done, say_mark, say_refused, say_text};

// The text of n bytes at the front of a buffer.
fn say_front(out: &mut [u8], at: usize, buffer: &[u8], n: usize) -> usize
    requires { Room (line_of (texted (take n buffer.now))) out.old at }
    ensures { Wrote (line_of (texted (take n buffer.now))) out.old at result out.new }
{
    if n < buffer.len() {
        return say_text(out, at, &buffer[..n]);
    }
    say_text(out, at, buffer)
}

// The reply's line.
pub fn say_reply(out: &mut [u8], at: usize, reply: Result<Reply, Refusal>, buffer: &[u8]) -> usize
    requires { AnswerRoom buffer.now out.old at }
    ensures { Fitted (reply_line reply buffer.now) out.old at result out.new }
{
    match reply {
        Ok(Reply::Done) => say_done(out, at),
        Ok(Reply::Written(n)) => say_front(out, at, buffer, n),
        Ok(Reply::Given(mark)) => say_mark(out, at, mark),
        Err(refusal) => say_refused(out, at, refusal.number()),
    }
}

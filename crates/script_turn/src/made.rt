// A call of a sheet made, and its answer.
ghost use Rattle.calls.specs.Step.{lent};
ghost use Rattle.script_calls.specs.inner.Answered.{AnswerRoom, AnswersCall};

use calls::step::step;
use calls::types::Call;
use script_calls::reply::say_reply;
use sheet::types::Sheet;

// The sheet afterwards, the position past the answer, and whether the call was refused.
#[derive(Clone, Copy)]
pub struct Answered {
    pub sheet: Sheet,
    pub next: usize,
    pub refused: bool,
}

// Makes a call and writes its answer from the position `at` on.
pub fn answer_call(
    call: Call,
    text: &[u8],
    buffer: &mut [u8],
    numbers: &mut [f64],
    sheet: Sheet,
    out: &mut [u8],
    at: usize,
) -> Answered
    requires { AnswerRoom buffer.old out.old at }
    ensures { AnswersCall call (lent text.now buffer.old numbers.old) sheet out.old at
        result.next result.refused result.sheet out.new buffer.new numbers.new }
{
    let after = step(call, text, buffer, numbers, sheet);
    let reply = after.reply;
    let left = after.sheet;
    let next = say_reply(out, at, reply, buffer);
    Answered {
        sheet: left,
        next,
        refused: reply.is_err(),
    }
}

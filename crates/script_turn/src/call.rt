// Commands that are calls: an answer at the front of a lent buffer.
ghost use Rattle.std.specs.Prelude.{◌≡◌, false, cond, [], ◌+◌, ◌≤◌, ◌<◌, ltb, length};
ghost use Rattle.calls.specs.Step.{step};
ghost use Rattle.script_commands.specs.Table.{long_enough};
ghost use Rattle.script_answers.specs.inner.Lengths.{max_answer};
ghost use Rattle.script_calls.specs.Said.{call_said};
ghost use Rattle.script_told.specs.Turns.{lending, most_answers};
ghost use Rattle.script_told.specs.inner.One.{Single};
ghost use Rattle.script_turn.specs.inner.One.{Tells, Nth};

use crate::made::{Answered, answer_call};
use calls::types::Call;
use script_told::types::OneAnswer;
use sheet::types::Sheet;

// No line has more bytes.
pub const LONG_ENOUGH: usize = 1421;

// No sheet has more lines, of the report or of the text, or marks, with the refusal after them.
const MOST_ANSWERS: usize = 3075;

// A call with a text and a buffer of `room` bytes.
fn ask(sheet: Sheet, call: Call, text: &[u8], room: usize, out: &mut [u8]) -> Answered
    requires { (room ≤ long_enough) × (max_answer ≤ length out.old) }
    ensures { Tells (call_said call (lending text.now room) sheet) (step call (lending text.now room) sheet).sheet
        out.old result.next result.refused result.sheet out.new }
{
    let mut buffer = [0u8; LONG_ENOUGH];
    let mut numbers = [0.0f64; 1];
    answer_call(
        call,
        text,
        &mut buffer[..room],
        &mut numbers[..0],
        sheet,
        out,
        0,
    )
}

// One call.
pub fn one_call(sheet: Sheet, call: Call, text: &[u8], room: usize, out: &mut [u8]) -> OneAnswer
    requires { (room ≤ long_enough) × (max_answer ≤ length out.old) }
    ensures { Single (call_said call (lending text.now room) sheet) (step call (lending text.now room) sheet).sheet
        out.old result.sheet result.written result.more out.new }
{
    let answered = ask(sheet, call, text, room, out);
    let left = answered.sheet;
    OneAnswer {
        sheet: left,
        written: answered.next,
        more: false,
    }
}

// Whether an answer follows answer n: not after a refusal.
fn goes_on(refused: bool, n: usize) -> bool
    requires { n < most_answers }
    ensures { result ≡ cond refused false (ltb (n + 1) most_answers) }
{
    if refused {
        return false;
    }
    n + 1 < MOST_ANSWERS
}

// Call n of those up to a refusal.
pub fn next_call(sheet: Sheet, call: Call, n: usize, room: usize, out: &mut [u8]) -> OneAnswer
    requires { (n < most_answers) × (room ≤ long_enough) × (max_answer ≤ length out.old) }
    ensures { Nth (call_said call (lending [] room) sheet) n (step call (lending [] room) sheet).sheet
        out.old result.sheet result.written result.more out.new }
{
    let answered = ask(sheet, call, b"", room, out);
    let left = answered.sheet;
    OneAnswer {
        sheet: left,
        written: answered.next,
        more: goes_on(answered.refused, n),
    }
}

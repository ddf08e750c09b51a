// The walk of a text, and its answer.
ghost use Rattle.std.specs.Prelude.{◌+◌, ◌≤◌, length};
ghost use Rattle.text_walk.specs.Walks.{text_walk};
ghost use Rattle.script_answers.specs.Answers.{line_of};
ghost use Rattle.script_answers.specs.inner.Lengths.{max_answer};
ghost use Rattle.script_calls.specs.Said.{walk_said};
ghost use Rattle.script_calls.specs.inner.Answered.{Fitted};

use script_answers::answers::{say_refused, say_walk};
use text_walk::walk_text;

// Walks from level l of a text's plan to the next, and writes the answer from the position `at` on.
pub fn answer_walk(l: usize, text: &[u8], out: &mut [u8], at: usize) -> usize
    requires { at + max_answer ≤ length out.old }
    ensures { Fitted (line_of (walk_said (text_walk l text.now))) out.old at result out.new }
{
    match walk_text(l, text) {
        Ok(walk) => say_walk(out, at, walk),
        Err(refusal) => say_refused(out, at, refusal.number()),
    }
}

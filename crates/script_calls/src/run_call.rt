// The call place-run, and its answer.
ghost use Rattle.std.specs.Prelude.{◌+◌, ◌≤◌, length};
ghost use Rattle.run.specs.Call.{call_of};
ghost use Rattle.script_answers.specs.inner.Lengths.{max_answer};
ghost use Rattle.script_calls.specs.inner.Answered.{AnswersRun};

use place_run::call::place_run;
use script_answers::answers::{say_positions, say_refused};

// Places a run of r boxes into `answer`, and writes the answer from the position `at` on.
pub fn answer_run(
    r: u64,
    left: Option<i64>,
    right: Option<i64>,
    old: &[i64],
    distances: &[u64],
    counts: &[u64],
    neighbours: &[i64],
    ratings: &[u64],
    answer: &mut [i64],
    out: &mut [u8],
    at: usize,
) -> usize
    requires { at + max_answer ≤ length out.old }
    ensures { AnswersRun (call_of (record {
      boxes = r;
      left = left;
      right = right;
      old = old.now;
      distances = distances.now;
      counts = counts.now;
      neighbours = neighbours.now;
      ratings = ratings.now;
    }) answer.old) out.old at result out.new answer.new }
{
    match place_run(
        r, left, right, old, distances, counts, neighbours, ratings, answer,
    ) {
        Ok(()) => say_positions(out, at, answer),
        Err(refusal) => say_refused(out, at, refusal.number()),
    }
}

// The other commands: an answer at the front of a lent buffer.
ghost use Rattle.std.specs.Prelude.{◌≡◌, ◌≤◌, min, pos, length, replicate};
ghost use Rattle.run.specs.Call.{call_of};
ghost use Rattle.script_runs.specs.inner.Filled.{buffers, request_with, Within};
ghost use Rattle.script_poke.specs.Poked as pokes;
ghost use Rattle.script_answers.specs.Answers.{unknown as not_known, stage as standing, line_of};
ghost use Rattle.script_answers.specs.inner.Lengths.{max_answer};
ghost use Rattle.text_walk.specs.Walks.{text_walk};
ghost use Rattle.script_calls.specs.Said.{walk_said, run_said};
ghost use Rattle.script_calls.specs.inner.Answered.{Fitted};
ghost use Rattle.script_told.specs.Turns.{poke_said};
ghost use Rattle.script_told.specs.inner.One.{Single};

use crate::types::OneAnswer;
use script_answers::answers::{say_done, say_stage, say_unknown};
use script_calls::run_call::answer_run;
use script_calls::walk_call::answer_walk;
use script_commands::types::Poke;
use script_poke::poke::poke;
use script_runs::types::RunRequest;
use sheet::types::{Sheet, Stage};

// A run's answer buffer of this length is too long, as every longer one is.
const TOO_MANY: usize = 65;

pub fn unknown(sheet: Sheet, out: &mut [u8]) -> OneAnswer
    requires { max_answer ≤ length out.old }
    ensures { Single not_known sheet out.old result.sheet result.written result.more out.new }
{
    OneAnswer {
        sheet,
        written: say_unknown(out, 0),
        more: false,
    }
}

fn tell_stage(stage: Stage, out: &mut [u8]) -> usize
    requires { max_answer ≤ length out.old }
    ensures { Fitted (line_of (standing stage)) out.old 0 result out.new }
{
    match stage {
        Stage::Empty => say_stage(out, 0, Stage::Empty),
        Stage::Loaded(v, e) => say_stage(out, 0, Stage::Loaded(v, e)),
        Stage::Drawn(v, e, p) => say_stage(out, 0, Stage::Drawn(v, e, p)),
    }
}

pub fn show_stage(sheet: Sheet, out: &mut [u8]) -> OneAnswer
    requires { max_answer ≤ length out.old }
    ensures { Single (standing sheet.header.stage) sheet out.old result.sheet result.written result.more out.new }
{
    let header = sheet.header;
    let stage = header.stage;
    OneAnswer {
        sheet,
        written: tell_stage(stage, out),
        more: false,
    }
}

pub fn alter(sheet: Sheet, what: Poke, out: &mut [u8]) -> OneAnswer
    requires { max_answer ≤ length out.old }
    ensures { Single (poke_said (pokes.poke what sheet)) (pokes.poke what sheet).sheet out.old result.sheet result.written result.more out.new }
{
    let poked = poke(sheet, what);
    let left = poked.sheet;
    if !poked.known {
        return unknown(left, out);
    }
    OneAnswer {
        sheet: left,
        written: say_done(out, 0),
        more: false,
    }
}

// The lesser of a length and a limit.
pub fn at_most(room: usize, limit: usize) -> usize
    ensures { result ≡ min room limit }
{
    if room < limit {
        return room;
    }
    limit
}

pub fn walk(sheet: Sheet, l: usize, text: &[u8], out: &mut [u8]) -> OneAnswer
    requires { max_answer ≤ length out.old }
    ensures { Single (walk_said (text_walk l text.now)) sheet out.old result.sheet result.written result.more out.new }
{
    OneAnswer {
        sheet,
        written: answer_walk(l, text, out, 0),
        more: false,
    }
}

// Places a run whose lists lie in lent buffers.
pub fn place(
    sheet: Sheet,
    run: RunRequest,
    old: &[i64],
    distances: &[u64],
    counts: &[u64],
    neighbours: &[i64],
    ratings: &[u64],
    out: &mut [u8],
) -> OneAnswer
    requires { Within (buffers old.now distances.now counts.now neighbours.now ratings.now) run × (max_answer ≤ length out.old) }
    ensures { Single (run_said (call_of (request_with run (buffers old.now distances.now counts.now neighbours.now
        ratings.now)) (replicate run.room (pos 0)))) sheet out.old result.sheet result.written result.more out.new }
{
    let left = run.left;
    let right = run.right;
    let o = run.old;
    let d = run.distances;
    let c = run.counts;
    let m = run.neighbours;
    let w = run.ratings;
    let mut answer = [0i64; TOO_MANY];
    let room = at_most(run.room as usize, TOO_MANY);
    let written = answer_run(
        run.boxes,
        left,
        right,
        &old[..o],
        &distances[..d],
        &counts[..c],
        &neighbours[..m],
        &ratings[..w],
        &mut answer[..room],
        out,
        0,
    );
    OneAnswer {
        sheet,
        written,
        more: false,
    }
}

// One answer of one command.
ghost use Rattle.script_runs.specs.inner.Filled.{buffers};
ghost use Rattle.script_commands.specs.inner.Held.{lent, command_in};
ghost use Rattle.script_told.specs.Turns.{turn_of};
ghost use Rattle.script_turn.specs.inner.One.{Asked, Answers};

use crate::call::{LONG_ENOUGH, next_call, one_call};
use calls::types::Call;
use script_commands::types::Command;
use script_told::other::{alter, at_most, place, show_stage, unknown, walk};
use script_told::types::OneAnswer;
use sheet::types::Sheet;

// Answer n of a command, at the front of `out`; the text of a load or a walk and the lists of a run lie in lent buffers.
pub fn turn(
    sheet: Sheet,
    command: Command,
    text: &[u8],
    old: &[i64],
    distances: &[u64],
    counts: &[u64],
    neighbours: &[i64],
    ratings: &[u64],
    n: usize,
    out: &mut [u8],
) -> OneAnswer
    requires { Asked command (lent text.now (buffers old.now distances.now counts.now neighbours.now ratings.now)) sheet n out.old }
    ensures { Answers (turn_of (command_in command (lent text.now (buffers old.now distances.now
        counts.now neighbours.now ratings.now))) sheet) n out.old result.sheet result.written result.more out.new }
{
    match command {
        Command::Skip => OneAnswer {
            sheet,
            written: 0,
            more: false,
        },
        Command::Unknown => unknown(sheet, out),
        Command::Load(size) => one_call(sheet, Call::Load, &text[..size], 0, out),
        Command::LoadTangled(size) => one_call(sheet, Call::LoadTangled, &text[..size], 0, out),
        Command::Draw => one_call(sheet, Call::Draw, b"", 0, out),
        Command::Clear => one_call(sheet, Call::Clear, b"", 0, out),
        Command::Stage => show_stage(sheet, out),
        Command::Line(k, room) => one_call(
            sheet,
            Call::Line(k),
            b"",
            at_most(room, LONG_ENOUGH),
            out,
        ),
        Command::Lines => next_call(sheet, Call::Line(n), n, LONG_ENOUGH, out),
        Command::TextLine(k, room) => one_call(
            sheet,
            Call::TextLine(k),
            b"",
            at_most(room, LONG_ENOUGH),
            out,
        ),
        Command::Texts => next_call(sheet, Call::TextLine(n), n, LONG_ENOUGH, out),
        Command::Mark(k) => one_call(sheet, Call::Mark(k), b"", 0, out),
        Command::Marks => next_call(sheet, Call::Mark(n), n, 0, out),
        Command::Walk(l, size) => walk(sheet, l, &text[..size], out),
        Command::PlaceRun(run) => place(
            sheet, run, old, distances, counts, neighbours, ratings, out,
        ),
        Command::Poke(what) => alter(sheet, what, out),
    }
}

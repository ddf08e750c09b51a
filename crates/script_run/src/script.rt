// The answers of a script.
ghost use Rattle.std.specs.Prelude.{◌≤◌, length, is_some};
ghost use Rattle.std.specs.Option.{unwrap_or};
ghost use Rattle.sheet.specs.Calls.{Writes};
ghost use Rattle.script_runs.specs.inner.Filled.{buffers};
ghost use Rattle.script_commands.specs.Table.{command_of};
ghost use Rattle.script_commands.specs.inner.Held.{lent, command_in};
ghost use Rattle.script_told.specs.Turns.{turn_of};
ghost use Rattle.script_told.specs.Scripts.{script_answers, script_of};
ghost use Rattle.script_told.specs.inner.Laid.{Lays, InRoom};
ghost use Rattle.script_run.specs.inner.Laid as laid;
ghost use Rattle.script_run.specs.inner.Laid.{Answering};

use crate::types::Turned;
use ints::refusal::Refusal;
use script_commands::read::command;
use script_commands::types::Command;
use script_told::lay::lay;
use script_turn::turn::turn;
use script_words::parts::end_of;
use sheet::types::Sheet;

// A length is told in 63 bits.
const MAX_LENGTH: usize = 9223372036854775807;

// One byte more than a text may have; and the longest answer.
pub const TEXT_ROOM: usize = 65537;

pub const ANSWER_ROOM: usize = 1500;

// All answers of a command, one after another by way of a buffer.
fn each_answer(
    sheet: Sheet,
    command: Command,
    text: &[u8],
    old: &[i64],
    distances: &[u64],
    counts: &[u64],
    neighbours: &[i64],
    ratings: &[u64],
    buffer: &mut [u8],
    out: &mut [u8],
    at: usize,
    room: usize,
    write: bool,
) -> Turned
    requires { Answering command (lent text.now (buffers old.now distances.now counts.now neighbours.now ratings.now)) buffer.old room at out.old }
    ensures { laid.Turned (turn_of (command_in command (lent text.now (buffers old.now distances.now
        counts.now neighbours.now ratings.now))) sheet) write room out.old at result.sheet (is_some result.laid) (unwrap_or result.laid 0) out.new }
{
    let mut kept = sheet;
    let mut to = at;
    let mut n = 0;
    // No `for n in 0..`: it would have no value at its end, which is never reached.
    loop {
        let one = turn(
            kept, command, text, old, distances, counts, neighbours, ratings, n, buffer,
        );
        kept = one.sheet;
        let written = one.written;
        match lay(&buffer[..written], out, to, room, write) {
            Some(end) => to = end,
            None => {
                return Turned {
                    sheet: kept,
                    laid: None,
                };
            }
        }
        if !one.more {
            return Turned {
                sheet: kept,
                laid: Some(to),
            };
        }
        n += 1;
    }
}

// The answers to a line. A text or a list that its buffer has no room for is refused as it is cut.
fn answer_line(
    sheet: Sheet,
    line: &[u8],
    out: &mut [u8],
    at: usize,
    room: usize,
    write: bool,
) -> Turned
    requires { InRoom room at out.old }
    ensures { laid.Turned (turn_of (command_of line.now) sheet) write room out.old at result.sheet (is_some result.laid) (unwrap_or result.laid 0) out.new }
{
    let mut text = [0u8; TEXT_ROOM];
    let mut old = [0i64; 65];
    let mut distances = [0u64; 66];
    let mut counts = [0u64; 65];
    let mut neighbours = [0i64; 2049];
    let mut ratings = [0u64; 2049];
    let mut buffer = [0u8; ANSWER_ROOM];
    let said = command(
        line,
        &mut text,
        &mut old,
        &mut distances,
        &mut counts,
        &mut neighbours,
        &mut ratings,
    );
    each_answer(
        sheet,
        said,
        &text,
        &old,
        &distances,
        &counts,
        &neighbours,
        &ratings,
        &mut buffer,
        out,
        at,
        room,
        write,
    )
}

// The answers to all lines.
fn each_line(script: &[u8], out: &mut [u8], room: usize, write: bool) -> Option<usize>
    requires { room ≤ length out.old }
    ensures { Lays (script_answers script.now) write room out.old 0 (is_some result) (unwrap_or result 0) out.new }
{
    let mut sheet = Sheet::empty();
    let mut at: usize = 0;
    let mut from: usize = 0;
    loop {
        let end = end_of(script, b'\n', from);
        let turned = answer_line(sheet, &script[from..end], out, at, room, write);
        at = turned.laid?;
        sheet = turned.sheet;
        if end >= script.len() {
            return Some(at);
        }
        from = end + 1;
    }
}

// The answers of a script in a lent buffer, with their length; later bytes stay. Refused 14, the buffer stays as it is.
pub fn answers(script: &[u8], out: &mut [u8]) -> Result<usize, Refusal>
    ensures { Writes (script_of script.now out.old) result out.new }
{
    let room = out.len().min(MAX_LENGTH);
    if each_line(script, out, room, false).is_none() {
        return Err(Refusal::Room);
    }
    each_line(script, out, room, true).ok_or(Refusal::Room)
}

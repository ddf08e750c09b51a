// Reads a script from standard input, carries out its commands on a sheet, and writes their answers to standard output as it goes.
#![tactic(auto)]

ghost use Rattle.std.specs.Prelude.{◌≡◌, ◌≤◌, ◌<◌, length, IfOk, OnOk};
ghost use Rattle.std.specs.Io.KnownBytes.{Appends};
ghost use Rattle.script_runs.specs.inner.Filled.{buffers};
ghost use Rattle.script_commands.specs.Table.{command_of};
ghost use Rattle.script_commands.specs.inner.Held.{lent, command_in, Inside};
ghost use Rattle.script_answers.specs.inner.Lengths.{max_answer};
ghost use Rattle.script_told.specs.Turns.{turn_of, bytes_of};

use script_commands::read::command;
use script_commands::types::Command;
use script_run::script::{ANSWER_ROOM, TEXT_ROOM};
use script_turn::turn::turn;
use script_words::parts::end_of;
use sheet::types::Sheet;
use std::io;
use std::io::{Read, Write};
use streams::read_full;

// The room for one line: a load of 65,536 bytes, each written as an escape, takes an eighth of it. A line that fills it is no command.
const LINE_ROOM: usize = 2097152;

// More lines than anybody can send.
const MOST_LINES: u64 = 18446744073709551615;

// Where a line begins and ends in the room, and up to where the room is filled.
#[derive(Clone, Copy)]
struct Span {
    from: usize,
    end: usize,
    to: usize,
}

// The sheet after a line, and what is left in the room.
#[derive(Clone, Copy)]
struct Answered {
    sheet: Sheet,
    from: usize,
    to: usize,
}

// Writes all answers of a command: the sheet afterwards.
fn print_answers<W: Write>(
    output: &mut W,
    sheet: Sheet,
    command: Command,
    text: &[u8],
    old: &[i64],
    distances: &[u64],
    counts: &[u64],
    neighbours: &[i64],
    ratings: &[u64],
    buffer: &mut [u8],
) -> io::Result<Sheet>
    requires { Inside (lent text.now (buffers old.now distances.now counts.now neighbours.now ratings.now)) command × (max_answer ≤ length buffer.old) }
    ensures sheet { IfOk result (λ s. s ≡ (turn_of (command_in command (lent text.now
        (buffers old.now distances.now counts.now neighbours.now ratings.now))) sheet).sheet) }
    ensures answers { OnOk result (Appends (W.contents output.old) (W.contents output.new)
        (bytes_of (turn_of (command_in command (lent text.now
        (buffers old.now distances.now counts.now neighbours.now ratings.now))) sheet).said)) }
{
    let mut kept = sheet;
    let mut n = 0;
    // No `for n in 0..`: it would have no value at its end, which is never reached.
    loop {
        let one = turn(
            kept, command, text, old, distances, counts, neighbours, ratings, n, buffer,
        );
        kept = one.sheet;
        let written = one.written;
        output.write_all(&buffer[..written])?;
        if !one.more {
            return Ok(kept);
        }
        n += 1;
    }
}

// Carries out the command on a line.
fn answer_line<W: Write>(output: &mut W, sheet: Sheet, line: &[u8]) -> io::Result<Sheet>
    ensures sheet { IfOk result (λ s. s ≡ (turn_of (command_of line.now) sheet).sheet) }
    ensures answers { OnOk result (Appends (W.contents output.old) (W.contents output.new)
        (bytes_of (turn_of (command_of line.now) sheet).said)) }
{
    let mut text = [0u8; TEXT_ROOM];
    let mut old = [0i64; 65];
    let mut distances = [0u64; 66];
    let mut counts = [0u64; 65];
    let mut neighbours = [0i64; 2049];
    let mut ratings = [0u64; 2049];
    let mut buffer = [0u8; ANSWER_ROOM];
    let said = command(
        line,
        &mut text,
        &mut old,
        &mut distances,
        &mut counts,
        &mut neighbours,
        &mut ratings,
    );
    print_answers(
        output,
        sheet,
        said,
        &text,
        &old,
        &distances,
        &counts,
        &neighbours,
        &ratings,
        &mut buffer,
    )
}

// Moves what is left to the front: how many bytes.
fn shift(room: &mut [u8], from: usize, to: usize) -> usize
    requires { (from ≤ to) × (to ≤ length room.old) }
    ensures { result ≤ length room.new }
{
    let n = to - from;
    room.copy_within(from..to, 0);
    n
}

// Fills the room behind what is left: up to where it is filled then.
fn refill<R: Read>(input: &mut R, room: &mut [u8], from: usize, to: usize) -> io::Result<usize>
    requires { (from ≤ to) × (to ≤ length room.old) }
    ensures { IfOk result (λ n. n ≤ length room.new) }
{
    let kept = shift(room, from, to);
    let more = read_full(input, &mut room[kept..])?;
    Ok(kept + more)
}

// The next line.
fn next<R: Read>(input: &mut R, room: &mut [u8], from: usize, to: usize) -> io::Result<Span>
    requires { (from ≤ to) × (to ≤ length room.old) }
    ensures { IfOk result (λ s. (s.from ≤ s.end) × (s.end ≤ s.to) × (s.to ≤ length room.new)) }
{
    let end = from + end_of(&room[from..to], b'\n', 0);
    if end < to {
        return Ok(Span { from, end, to });
    }
    let filled = refill(input, room, from, to)?;
    Ok(Span {
        from: 0,
        end: end_of(&room[..filled], b'\n', 0),
        to: filled,
    })
}

// What follows a line.
fn after(end: usize, to: usize) -> usize
    requires { end ≤ to }
    ensures { result ≤ to }
{
    if end < to {
        return end + 1;
    }
    to
}

// Passes over the rest of a line that fills the room, which is no command, or over a remark: what follows it.
fn pass_over<R: Read, W: Write>(input: &mut R, output: &mut W, room: &mut [u8]) -> io::Result<Span>
    requires { 0 < length room.old }
    ensures { IfOk result (λ s. (s.from ≤ s.to) × (s.to ≤ length room.new)) }
{
    if room[0] != b'#' {
        output.write_all(b"unknown\n")?;
    }
    for _ in 0..MOST_LINES {
        let to = refill(input, room, 0, 0)?;
        let end = end_of(&room[..to], b'\n', 0);
        if end < to {
            return Ok(Span {
                from: end + 1,
                end,
                to,
            });
        }
        if to < room.len() {
            return Ok(Span {
                from: to,
                end: to,
                to,
            });
        }
    }
    Ok(Span {
        from: 0,
        end: 0,
        to: 0,
    })
}

// Carries out the command on the line from `a` up to `e`, or passes over it if it fills the room.
fn answer_next<R: Read, W: Write>(
    input: &mut R,
    output: &mut W,
    sheet: Sheet,
    room: &mut [u8],
    a: usize,
    e: usize,
    to: usize,
) -> io::Result<Answered>
    requires { (a ≤ e) × (a < to) × (e ≤ to) × (to ≤ length room.old) }
    ensures { IfOk result (λ s. (s.from ≤ s.to) × (s.to ≤ length room.new)) }
{
    if e - a == room.len() {
        let left = pass_over(input, output, room)?;
        return Ok(Answered {
            sheet,
            from: left.from,
            to: left.to,
        });
    }
    let next_sheet = answer_line(output, sheet, &room[a..e])?;
    let from = after(e, to);
    Ok(Answered {
        sheet: next_sheet,
        from,
        to,
    })
}

// The answers to all lines.
fn serve<R: Read, W: Write>(input: &mut R, output: &mut W, room: &mut [u8]) -> io::Result<()> {
    let mut sheet = Sheet::empty();
    let mut from: usize = 0;
    let mut to: usize = 0;
    for _ in 0..MOST_LINES {
        let span = next(input, room, from, to)?;
        let a = span.from;
        let e = span.end;
        to = span.to;
        if a == to {
            return Ok(());
        }
        let answered = answer_next(input, output, sheet, room, a, e, to)?;
        sheet = answered.sheet;
        from = answered.from;
        to = answered.to;
    }
    Ok(())
}

fn main(rt: HostRuntime) -> io::Result<()> {
    let mut room = [0u8; LINE_ROOM];
    serve(&mut rt.stdin(), &mut rt.stdout(), &mut room)
}

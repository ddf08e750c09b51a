// Reading a line of a script.
ghost use Rattle.std.specs.Prelude.{◌≡◌, List, ◌++◌, ℕ};
ghost use Rattle.script_words.specs.Parts.{words};
ghost use Rattle.script_texts.specs.Texts.{unescaped};
ghost use Rattle.script_runs.specs.inner.Filled.{Buffers, buffers};
ghost use Rattle.script_commands.specs.Commands.{load as strict_load, load_tangled};
ghost use Rattle.script_commands.specs.Table.{calls, plan_pokes, loading_pokes, drawing_pokes, said_by, is_skipped, loading, walking, placing, command_of};
ghost use Rattle.script_commands.specs.inner.Held.{lent, Commands, Bare};

use crate::types::{Command, Poke};
use script_forms::forms::{first_form, signed_at, whole_at};
use script_runs::runs::{is_request, request};
use script_texts::texts::unescape;
use script_texts::types::Text;
use script_words::numbers::{is_whole, number};
use script_words::parts::end_of;
use text_scan::scanners::word_at;

// No line has more bytes.
pub const LONG_ENOUGH: usize = 1421;

// "empty lines and lines that begin with `#` are skipped"
fn is_skipped(line: &[u8]) -> bool
    ensures { result ≡ is_skipped line.now }
{
    if line.len() == 0 {
        return true;
    }
    line[0] == b'#'
}

// "alters the stored record": the drawing,
fn said_by_drawing_pokes(line: &[u8]) -> Command
    ensures { Bare (said_by drawing_pokes line.now) result }
{
    let forms =
        b"poke 1 pre N Z\npoke 1 pos N Z\npoke 1 pass N N\npoke 1 level N N\npoke 1 box N N N Z";
    match first_form(forms, line) {
        0 => Command::Poke(Poke::Preliminary(whole_at(line, 3), signed_at(line, 4))),
        1 => Command::Poke(Poke::Final(whole_at(line, 3), signed_at(line, 4))),
        2 => Command::Poke(Poke::Pass(whole_at(line, 3), whole_at(line, 4))),
        3 => Command::Poke(Poke::Level(whole_at(line, 3), whole_at(line, 4))),
        4 => Command::Poke(Poke::Listed(
            whole_at(line, 3),
            whole_at(line, 4),
            whole_at(line, 5),
            signed_at(line, 6),
        )),
        _ => Command::Unknown,
    }
}

// what is remembered of the loading,
fn said_by_loading_pokes(line: &[u8]) -> Command
    ensures { Bare (said_by (loading_pokes ++ drawing_pokes) line.now) result }
{
    let forms = b"poke 1 mem N N\npoke 1 tangled 0\npoke 1 tangled 1";
    match first_form(forms, line) {
        0 => Command::Poke(Poke::Remembered(whole_at(line, 3), whole_at(line, 4))),
        1 => Command::Poke(Poke::Tangled(false)),
        2 => Command::Poke(Poke::Tangled(true)),
        _ => said_by_drawing_pokes(line),
    }
}

// the stage and the plan.
fn said_by_pokes(line: &[u8]) -> Command
    ensures { Bare (said_by (plan_pokes ++ loading_pokes ++ drawing_pokes) line.now) result }
{
    let forms =
        b"poke 1 stage empty\npoke 1 stage loaded N N\npoke 1 stage drawn N N N\npoke 1 k N\npoke 1 g N\npoke 1 s N\npoke 1 size N N\npoke 1 vertex N box N\npoke 1 vertex N via N\npoke 1 seg N N N\npoke 1 seg N N N N";
    match first_form(forms, line) {
        0 => Command::Poke(Poke::Empty),
        1 => Command::Poke(Poke::Loaded(whole_at(line, 4), whole_at(line, 5))),
        2 => Command::Poke(Poke::Drawn(whole_at(line, 4), whole_at(line, 5), whole_at(line, 6))),
        3 => Command::Poke(Poke::Levels(whole_at(line, 3))),
        4 => Command::Poke(Poke::Gap(whole_at(line, 3))),
        5 => Command::Poke(Poke::Spacing(whole_at(line, 3))),
        6 => Command::Poke(Poke::Size(whole_at(line, 3), whole_at(line, 4))),
        7 => Command::Poke(Poke::Vertex(whole_at(line, 3), false, whole_at(line, 5))),
        8 => Command::Poke(Poke::Vertex(whole_at(line, 3), true, whole_at(line, 5))),
        9 => Command::Poke(Poke::Segment(
            whole_at(line, 3),
            whole_at(line, 4),
            whole_at(line, 5),
            1,
        )),
        10 => Command::Poke(Poke::Segment(
            whole_at(line, 3),
            whole_at(line, 4),
            whole_at(line, 5),
            whole_at(line, 6),
        )),
        _ => said_by_loading_pokes(line),
    }
}

// A call of the sheet, or a poke.
fn said(line: &[u8]) -> Command
    ensures { Bare (said_by (calls ++ plan_pokes ++ loading_pokes ++ drawing_pokes) line.now) result }
{
    let forms =
        b"draw 1\nclear 1\nstage 1\nline 1 N\nline 1 N N\nlines 1\nmark 1 N\nmarks 1\ntext 1 N\ntext 1 N N\ntexts 1";
    match first_form(forms, line) {
        0 => Command::Draw,
        1 => Command::Clear,
        2 => Command::Stage,
        3 => Command::Line(whole_at(line, 2), LONG_ENOUGH),
        4 => Command::Line(whole_at(line, 2), whole_at(line, 3)),
        5 => Command::Lines,
        6 => Command::Mark(whole_at(line, 2)),
        7 => Command::Marks,
        8 => Command::TextLine(whole_at(line, 2), LONG_ENOUGH),
        9 => Command::TextLine(whole_at(line, 2), whole_at(line, 3)),
        10 => Command::Texts,
        _ => said_by_pokes(line),
    }
}

// "TEXT goes to the line's end": a strict load,
fn load(escaped: &[u8], text: &mut [u8]) -> Command
    ensures { (b : Buffers) → Commands (loading strict_load (unescaped escaped.now)) (lent text.old b) result (lent text.new b) }
{
    let r = unescape(escaped, text);
    match r {
        Text::Bytes(n) => Command::Load(n),
        Text::Bad => Command::Unknown,
    }
}

// a tangled one.
fn load_tangled(escaped: &[u8], text: &mut [u8]) -> Command
    ensures { (b : Buffers) → Commands (loading load_tangled (unescaped escaped.now)) (lent text.old b) result
        (lent text.new b) }
{
    let r = unescape(escaped, text);
    match r {
        Text::Bytes(n) => Command::LoadTangled(n),
        Text::Bad => Command::Unknown,
    }
}

// What follows walk: a level, and a text.
fn walk(given: &[u8], text: &mut [u8]) -> Command
    ensures { (b : Buffers) → Commands (walking given.now) (lent text.old b) result (lent text.new b) }
{
    let end = end_of(given, b' ', 0);
    if !is_whole(number(&given[..end])) {
        return Command::Unknown;
    }
    if given.len() <= end {
        return Command::Unknown;
    }
    let r = unescape(&given[end + 1..], text);
    match r {
        Text::Bytes(n) => Command::Walk(whole_at(given, 0), n),
        Text::Bad => Command::Unknown,
    }
}

// What follows placerun.
fn place_run(
    given: &[u8],
    old: &mut [i64],
    distances: &mut [u64],
    counts: &mut [u64],
    neighbours: &mut [i64],
    ratings: &mut [u64],
) -> Command
    ensures { (text : List ℕ) → Commands (placing (words given.now))
        (lent text (buffers old.old distances.old counts.old neighbours.old ratings.old)) result
        (lent text (buffers old.new distances.new counts.new neighbours.new ratings.new)) }
{
    if !is_request(given) {
        return Command::Unknown;
    }
    Command::PlaceRun(request(given, old, distances, counts, neighbours, ratings))
}

// What a line says; the text of a load or a walk and the lists of a run in lent buffers, what they have no room for left out.
pub fn command(
    line: &[u8],
    text: &mut [u8],
    old: &mut [i64],
    distances: &mut [u64],
    counts: &mut [u64],
    neighbours: &mut [i64],
    ratings: &mut [u64],
) -> Command
    ensures { Commands (command_of line.now)
        (lent text.old (buffers old.old distances.old counts.old neighbours.old ratings.old)) result
        (lent text.new (buffers old.new distances.new counts.new neighbours.new ratings.new)) }
{
    if is_skipped(line) {
        return Command::Skip;
    }
    if word_at(line, 0, b"load 1 strict ") {
        return load(&line[14..], text);
    }
    if word_at(line, 0, b"load 1 tangled ") {
        return load_tangled(&line[15..], text);
    }
    if word_at(line, 0, b"walk ") {
        return walk(&line[5..], text);
    }
    if word_at(line, 0, b"placerun ") {
        return place_run(&line[9..], old, distances, counts, neighbours, ratings);
    }
    said(line)
}

// The words of a stage and of positions, written from a position of a lent buffer on. Each answers the position past what it wrote.
ghost use Rattle.std.specs.Prelude.{◌++◌, ◌+◌, ◌≤◌, length};
ghost use Rattle.text.specs.Bytes.{bytes};
ghost use Rattle.text.specs.Decimal.{signed};
ghost use Rattle.text_write.specs.inner.Written.{Room, Wrote};
ghost use Rattle.script_answers.specs.Answers.{position_words};
ghost use Rattle.script_answers.specs.inner.Lengths.{max_stage, WroteStage};

use sheet::types::Stage;
use text_write::number::{put_decimal, put_marked, put_then, put_word};

// "loaded V E"
fn put_loaded(out: &mut [u8], at: usize, vertices: usize, segments: usize) -> usize
    requires { at + max_stage ≤ length out.old }
    ensures { WroteStage (Stage.Loaded vertices segments) out.old at result out.new }
{
    let v = put_word(out, at, b"loaded ");
    let e = put_then(out, v, vertices as u64, b" ");
    put_decimal(out, e, segments as u64)
}

// "drawn V E P"
fn put_drawn(out: &mut [u8], at: usize, vertices: usize, segments: usize, placings: usize) -> usize
    requires { at + max_stage ≤ length out.old }
    ensures { WroteStage (Stage.Drawn vertices segments placings) out.old at result out.new }
{
    let v = put_word(out, at, b"drawn ");
    let e = put_then(out, v, vertices as u64, b" ");
    let p = put_then(out, e, segments as u64, b" ");
    put_decimal(out, p, placings as u64)
}

// A stage.
pub fn put_stage(out: &mut [u8], at: usize, stage: Stage) -> usize
    requires { at + max_stage ≤ length out.old }
    ensures { WroteStage stage out.old at result out.new }
{
    match stage {
        Stage::Empty => put_word(out, at, b"empty"),
        Stage::Loaded(v, e) => put_loaded(out, at, v, e),
        Stage::Drawn(v, e, p) => put_drawn(out, at, v, e, p),
    }
}

// " x"
fn put_position(out: &mut [u8], at: usize, x: i64) -> usize
    requires { Room (bytes " " ++ signed x) out.old at }
    ensures { Wrote (bytes " " ++ signed x) out.old at result out.new }
{
    let next = put_word(out, at, b" ");
    put_marked(out, next, x < 0, x.unsigned_abs())
}

// Positions, each with a space before it.
pub fn put_positions(out: &mut [u8], from: usize, xs: &[i64]) -> usize
    requires { Room (position_words xs.now) out.old from }
    ensures { Wrote (position_words xs.now) out.old from result out.new }
{
    let mut at = from;
    for x in xs {
        at = put_position(out, at, *x);
    }
    at
}

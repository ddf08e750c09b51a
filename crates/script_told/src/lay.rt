// Answers laid into a buffer from a position on, as far as a room goes: counted, and written if that is asked for.
ghost use Rattle.std.specs.Prelude.{is_some};
ghost use Rattle.std.specs.Option.{unwrap_or};
ghost use Rattle.script_told.specs.inner.Laid.{Lays, InRoom};

use text_write::number::put_word;

// One answer: the position past it, if it ends within the room.
pub fn lay(answer: &[u8], out: &mut [u8], at: usize, room: usize, write: bool) -> Option<usize>
    requires { InRoom room at out.old }
    ensures { Lays answer.now write room out.old at (is_some result) (unwrap_or result 0) out.new }
{
    if room - at < answer.len() {
        return None;
    }
    if !write {
        return Some(at + answer.len());
    }
    Some(put_word(out, at, answer))
}

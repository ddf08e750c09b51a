// A plan text read and written again.
ghost use Rattle.std.specs.Prelude.{◌≡◌, ◌≤◌, length};
ghost use Rattle.plan.specs.Stored.{plan_data};
ghost use Rattle.text.specs.Reading.{reading};
ghost use Rattle.text.specs.Writing.{text_of};
ghost use Rattle.text_write.specs.inner.Written.{Fronts};
ghost use Rattle.text_write.specs.inner.Data.{line_of, LineRoom};
ghost use Rattle.text_write.specs.inner.Stored.{StoredLimits, StoredPlan};
ghost use Rattle.text_write.specs.Again.{refused_line, Leaves, text_if_short, rewritten};

use crate::lines::{line as write_line, text as write_text};
use crate::number::{put_then, put_word};
use ints::refusal::Refusal;
use plan::data::Plan;
use text_read::read;

// "(refused N)", at the front of the buffer: how many bytes it has.
pub fn refuse(n: u32, out: &mut [u8]) -> usize
    requires { 21 ≤ length out.old }
    ensures { Fronts (refused_line n) out.old result out.new }
{
    let at = put_word(out, 0, b"(refused ");
    put_then(out, at, u64::from(n), b")\n")
}

// Line n of the text of a plan with these numbers of vertices and segments that is within its limits, at the front of a buffer
// that has room for it.
pub fn stored_line(plan: Plan, vertices: usize, segments: usize, n: usize, out: &mut [u8]) -> usize
    requires { StoredLimits plan vertices segments × LineRoom (plan_data plan vertices segments) n out.old 0 }
    ensures { Fronts (line_of (plan_data plan vertices segments) n) out.old result out.new }
{
    write_line(
        plan.levels,
        plan.gap,
        plan.spacing,
        &plan.sizes[..plan.levels as usize],
        &plan.vias[..vertices],
        &plan.halves[..vertices],
        &plan.uppers[..segments],
        &plan.lowers[..segments],
        &plan.ratings[..segments],
        n,
        out,
    )
}

// The whole text of such a plan.
pub fn stored_text(plan: Plan, vertices: usize, segments: usize, out: &mut [u8]) -> usize
    requires { StoredLimits plan vertices segments × (length (text_of (plan_data plan vertices segments)) ≤ length out.old) }
    ensures { Fronts (text_of (plan_data plan vertices segments)) out.old result out.new }
{
    write_text(
        plan.levels,
        plan.gap,
        plan.spacing,
        &plan.sizes[..plan.levels as usize],
        &plan.vias[..vertices],
        &plan.halves[..vertices],
        &plan.uppers[..segments],
        &plan.lowers[..segments],
        &plan.ratings[..segments],
        out,
    )
}

// The text of such a plan, which has n bytes, if the buffer has room for it.
fn text_if_short(
    plan: Plan,
    vertices: usize,
    segments: usize,
    n: usize,
    out: &mut [u8],
) -> Result<usize, Refusal>
    requires { StoredPlan plan vertices segments × (n ≡ length (text_of (plan_data plan vertices segments))) }
    ensures { Leaves (text_if_short (text_of (plan_data plan vertices segments)) out.old) result out.new }
{
    if out.len() < n {
        return Err(Refusal::Room);
    }
    Ok(stored_text(plan, vertices, segments, out))
}

// The plan's text again, at the front of the buffer, if it has room for it: how many bytes were written. Else the buffer stays as it is.
pub fn rewrite(text: &[u8], out: &mut [u8]) -> Result<usize, Refusal>
    ensures { Leaves (rewritten (reading text.now) out.old) result out.new }
{
    let r = read(text)?;
    text_if_short(r.plan, r.vertices, r.segments, text.len(), out)
}

// The text of the plan of a text that may be tangled, untangled.
ghost use Rattle.std.specs.Prelude.{◌≡◌, ◌≤◌, length, take};
ghost use Rattle.ints.specs.Lists.{over};
ghost use Rattle.plan.specs.Plan.{PlanData};
ghost use Rattle.plan.specs.Stored.{plan_data};
ghost use Rattle.text.specs.Reading.{accepted, tangled_reading};
ghost use Rattle.text.specs.Writing.{text_of};
ghost use Rattle.text_write.specs.inner.Stored.{StoredPlan};
ghost use Rattle.text_untangle.specs.Text.{untangled_text, Leaves};
ghost use Rattle.text_untangle.specs.inner.Held.{WithNumbers, IsUntangled};

use crate::read_tangled;
use ints::refusal::Refusal;
use plan::data::Plan;
use plan_renumber::whole::copy;
use text_write::again::stored_text;

// "A text of an acceptable plan has at most 51,738 bytes".
const MAX_TEXT: usize = 51738;

// How many bytes the text of a stored plan has.
fn text_length(plan: Plan, vertices: usize, segments: usize) -> usize
    requires { StoredPlan plan vertices segments }
    ensures { result ≡ length (text_of (plan_data plan vertices segments)) }
{
    let mut buffer = [0u8; MAX_TEXT];
    stored_text(plan, vertices, segments, &mut buffer)
}

// The first n numbers at the front of a buffer.
fn put_numbers(m: &[u16], n: usize, out: &mut [u16])
    requires { (n ≤ length m.now) × (n ≤ length out.old) }
    ensures { out.new ≡ over (take n m.now) out.old }
{
    copy(&m[..n], &mut out[..n]);
}

// The text of a stored plan and the numbers of its vertices, if both buffers have room.
fn put_both(
    plan: Plan,
    vertices: usize,
    segments: usize,
    m: &[u16],
    out: &mut [u8],
    numbers: &mut [u16],
) -> Result<usize, Refusal>
    requires { WithNumbers plan vertices segments m.now }
    ensures { (p : PlanData) → IsUntangled p plan vertices segments m.now
        → Leaves (untangled_text (accepted p) out.old numbers.old) result out.new numbers.new }
{
    if out.len() < text_length(plan, vertices, segments) {
        return Err(Refusal::Room);
    }
    if numbers.len() < vertices {
        return Err(Refusal::Room);
    }
    put_numbers(m, vertices, numbers);
    Ok(stored_text(plan, vertices, segments, out))
}

// The text of the untangled plan at the front of one buffer, and each vertex's number in the text at the front of the other, if
// both have room. Else both stay as they are.
pub fn untangle_text(text: &[u8], out: &mut [u8], numbers: &mut [u16]) -> Result<usize, Refusal>
    ensures { Leaves (untangled_text (tangled_reading text.now) out.old numbers.old) result out.new numbers.new }
{
    let r = read_tangled(text)?;
    put_both(r.plan, r.vertices, r.segments, &r.numbers, out, numbers)
}

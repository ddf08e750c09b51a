// Reading a plan text that may be tangled, and untangling its plan.
#![tactic(auto)]

pub mod again;

ghost use Rattle.std.specs.Prelude.{◌≡◌, length};
ghost use Rattle.plan.specs.Limits.{max_vertices};
ghost use Rattle.plan.specs.Plan.{PlanData};
ghost use Rattle.ints.specs.Refusals.{verdict_of};
ghost use Rattle.text.specs.Reading.{tangled_reading};
ghost use Rattle.text_read.specs.inner.Taken.{Arrays};
ghost use Rattle.text_untangle.specs.Untangled.{untangled_answer};
ghost use Rattle.text_untangle.specs.inner.Fronts.{TangledIn, SomeTangledIn, UntangledIn, FindsTangled};

use ints::refusal::Refusal;
use plan::data::Plan;
use plan_untangle::untangle::untangle;
use text_read::form::Scanned;
use text_read::{read_into, tangled_verdict};

// What reading a text that may be tangled gives: the untangled plan, with its numbers of vertices and segments, and each vertex's number
// in the text.
#[derive(Clone, Copy)]
pub struct ReadTangled {
    pub vertices: usize,
    pub segments: usize,
    pub plan: Plan,
    pub numbers: [u16; Plan::MAX_VERTICES],
}

// Untangles a plan whose data stand at the front of arrays.
fn untangle_fronts(
    s: Scanned,
    sizes: &[u16],
    vias: &mut [bool],
    halves: &mut [u16],
    uppers: &mut [u32],
    lowers: &mut [u32],
    ratings: &mut [u32],
    numbers: &mut [u16],
)
    requires { SomeTangledIn s sizes.now vias.old halves.old uppers.old lowers.old ratings.old numbers.old }
    ensures { (p : PlanData) → TangledIn p s sizes.now vias.old halves.old uppers.old
        lowers.old ratings.old numbers.old
        → UntangledIn p s vias.old halves.old uppers.old lowers.old ratings.old numbers.old
        vias.new halves.new uppers.new lowers.new ratings.new numbers.new }
{
    let k = s.levels as usize;
    let v = s.vertices;
    let e = s.segments;
    untangle(
        &sizes[..k],
        &mut vias[..v],
        &mut halves[..v],
        &mut uppers[..e],
        &mut lowers[..e],
        &mut ratings[..e],
        &mut numbers[..v],
    );
}

// Reads a plan text that may be tangled into lent arrays. What passes checks 1 to 5 is in their first places, rearranged, and in
// `numbers` each vertex's number in the text; the rest is as it was.
pub fn read_tangled_into(
    text: &[u8],
    sizes: &mut [u16],
    vias: &mut [bool],
    halves: &mut [u16],
    uppers: &mut [u32],
    lowers: &mut [u32],
    ratings: &mut [u32],
    numbers: &mut [u16],
) -> Result<Scanned, Refusal>
    requires { Arrays sizes.old vias.old halves.old uppers.old lowers.old ratings.old × (length numbers.old ≡ max_vertices) }
    ensures { FindsTangled text.now result sizes.old vias.old halves.old uppers.old
        lowers.old ratings.old numbers.old sizes.new vias.new halves.new
        uppers.new lowers.new ratings.new numbers.new }
{
    let r = read_into(text, sizes, vias, halves, uppers, lowers, ratings);
    tangled_verdict(r.verdict)?;
    let scanned = r.scanned;
    untangle_fronts(
        scanned, sizes, vias, halves, uppers, lowers, ratings, numbers,
    );
    Ok(scanned)
}

// Reads a plan text that may be tangled.
pub fn read_tangled(text: &[u8]) -> Result<ReadTangled, Refusal>
    ensures { verdict_of result ≡ untangled_answer (tangled_reading text.now) }
{
    let mut sizes = [0u16; Plan::MAX_LEVELS];
    let mut vias = [false; Plan::MAX_VERTICES];
    let mut halves = [0u16; Plan::MAX_VERTICES];
    let mut uppers = [0u32; Plan::MAX_SEGMENTS];
    let mut lowers = [0u32; Plan::MAX_SEGMENTS];
    let mut ratings = [0u32; Plan::MAX_SEGMENTS];
    let mut numbers = [0u16; Plan::MAX_VERTICES];
    let s = read_tangled_into(
        text,
        &mut sizes,
        &mut vias,
        &mut halves,
        &mut uppers,
        &mut lowers,
        &mut ratings,
        &mut numbers,
    )?;
    Ok(ReadTangled {
        vertices: s.vertices,
        segments: s.segments,
        plan: Plan::new(
            s.levels, s.gap, s.spacing, sizes, vias, halves, uppers, lowers, ratings,
        ),
        numbers,
    })
}

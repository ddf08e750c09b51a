// Reading a plan text: checks 1 to 6 of document 01, "in this order".
#![tactic(auto)]

pub mod form;

ghost use Rattle.std.specs.Prelude.{◌≡◌, true};
ghost use Rattle.ints.specs.Refusals.{first_refusal, refused_by, verdict_of};
ghost use Rattle.text.specs.Reading.{reading};
ghost use Rattle.text_read.specs.Answer.{answer_of};
ghost use Rattle.text_read.specs.inner.Failed.{Fronts, checks_in};
ghost use Rattle.text_read.specs.inner.Taken.{Arrays, Finds, tangled_refusal};

use crate::form::{Scanned, scan};
use ints::refusal::Refusal;
use plan::data::Plan;
use plan_checks::checks::check_plan;

// "over 65,536 bytes" is no plan text.
pub const MAX_BYTES: usize = 65536;

// A plan, with its numbers of vertices and segments.
#[derive(Clone, Copy)]
pub struct ReadText {
    pub vertices: usize,
    pub segments: usize,
    pub plan: Plan,
}

// What reading a text into lent arrays finds: the refusal of the first check that fails, and the text's numbers and counts.
#[derive(Clone, Copy)]
pub struct Found {
    pub verdict: Result<(), Refusal>,
    pub scanned: Scanned,
}

// The first check that a scanned text fails refuses it.
fn verdict_on(
    s: Scanned,
    sizes: &[u16],
    vias: &[bool],
    uppers: &[u32],
    lowers: &[u32],
) -> Result<(), Refusal>
    requires { s.form ≡ true → s.limits ≡ true → Fronts s sizes.now vias.now uppers.now lowers.now }
    ensures { refused_by result ≡ first_refusal (checks_in s sizes.now vias.now uppers.now lowers.now) }
{
    if !s.form {
        return Err(Refusal::Form);
    }
    if !s.limits {
        return Err(Refusal::Limit);
    }
    let k = s.levels as usize;
    let n = s.vertices;
    let e = s.segments;
    check_plan(&sizes[..k], &vias[..n], &uppers[..e], &lowers[..e])
}

// Reads a plan text into lent arrays. What passes the checks is in their first places, and the rest is as it was.
pub fn read_into(
    text: &[u8],
    sizes: &mut [u16],
    vias: &mut [bool],
    halves: &mut [u16],
    uppers: &mut [u32],
    lowers: &mut [u32],
    ratings: &mut [u32],
) -> Found
    requires { Arrays sizes.old vias.old halves.old uppers.old lowers.old ratings.old }
    ensures { Finds text.now result sizes.old vias.old halves.old uppers.old
        lowers.old ratings.old sizes.new vias.new halves.new uppers.new
        lowers.new ratings.new }
{
    if MAX_BYTES < text.len() {
        return Found {
            verdict: Err(Refusal::Form),
            scanned: Scanned {
                form: false,
                limits: false,
                levels: 0,
                gap: 0,
                spacing: 0,
                vertices: 0,
                segments: 0,
            },
        };
    }
    let scanned = scan(text, sizes, vias, halves, uppers, lowers, ratings);
    let verdict = verdict_on(scanned, sizes, vias, uppers, lowers);
    Found { verdict, scanned }
}

// What the second way of reading finds, which skips check 6.
pub fn tangled_verdict(verdict: Result<(), Refusal>) -> Result<(), Refusal>
    ensures { refused_by result ≡ tangled_refusal (refused_by verdict) }
{
    match verdict {
        Err(Refusal::Crossing) => Ok(()),
        _ => verdict,
    }
}

// Reads a plan text.
pub fn read(text: &[u8]) -> Result<ReadText, Refusal>
    ensures { verdict_of result ≡ answer_of (reading text.now) }
{
    let mut sizes = [0u16; Plan::MAX_LEVELS];
    let mut vias = [false; Plan::MAX_VERTICES];
    let mut halves = [0u16; Plan::MAX_VERTICES];
    let mut uppers = [0u32; Plan::MAX_SEGMENTS];
    let mut lowers = [0u32; Plan::MAX_SEGMENTS];
    let mut ratings = [0u32; Plan::MAX_SEGMENTS];
    let r = read_into(
        text,
        &mut sizes,
        &mut vias,
        &mut halves,
        &mut uppers,
        &mut lowers,
        &mut ratings,
    );
    r.verdict?;
    let s = r.scanned;
    Ok(ReadText {
        vertices: s.vertices,
        segments: s.segments,
        plan: Plan::new(
            s.levels, s.gap, s.spacing, sizes, vias, halves, uppers, lowers, ratings,
        ),
    })
}

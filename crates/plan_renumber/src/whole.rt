// The arrays of a plan made those of the plan numbered anew.
ghost use Rattle.std.specs.Prelude.{◌≡◌, length};
ghost use Rattle.plan.specs.Plan.{PlanData};
ghost use Rattle.plan_renumber.specs.Renumber.{renumbered};
ghost use Rattle.plan_renumber.specs.inner.Words.{Lists, Renumberable};

use crate::{gather, gather_flags, move_segments};

// Copies one list over another that is as long. A loop, and no call of `copy_from_slice`, which would need C's `memmove`.
fn copy_to<T: Copy>(xs: &[T], out: &mut [T])
    requires { length out.old ≡ length xs.now }
    ensures { out.new ≡ xs.now }
{
    for (i, x) in xs.iter().enumerate() {
        out[i] = *x;
    }
}

pub fn copy(xs: &[u16], out: &mut [u16])
    requires { length out.old ≡ length xs.now }
    ensures { out.new ≡ xs.now }
{
    copy_to(xs, out);
}

// Numbers a plan's vertices anew by m. `spare`, `flags`, `places` and `codes` are room to work in.
pub fn renumber(
    m: &[u16],
    vias: &mut [bool],
    halves: &mut [u16],
    uppers: &mut [u32],
    lowers: &mut [u32],
    ratings: &mut [u32],
    spare: &mut [u16],
    flags: &mut [bool],
    places: &mut [u16],
    codes: &mut [u32],
)
    requires { Renumberable m.now vias.old halves.old uppers.old lowers.old ratings.old spare.old flags.old places.old codes.old }
    ensures { (p : PlanData) → Lists p vias.old halves.old uppers.old lowers.old ratings.old
        → Lists (renumbered p m.now) vias.new halves.new uppers.new lowers.new ratings.new }
{
    copy_to(vias, flags);
    gather_flags(flags, m, vias);
    copy_to(halves, spare);
    gather(spare, m, halves);
    move_segments(m, places, uppers, lowers, ratings, codes);
}

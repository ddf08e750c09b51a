// The order of a tangled plan's vertices: each level from the second down rearranged by the order that the one above has by then.
ghost use Rattle.std.specs.Prelude.{◌≡◌, cond, ◌&&◌, ◌≤◌, length};
ghost use Rattle.plan.specs.Plan.{PlanData, numbers};
ghost use Rattle.plan.specs.Limits.{max_vertices};
ghost use Rattle.plan_untangle.specs.Order.{order as order_of};
ghost use Rattle.plan_untangle.specs.inner.Ordering.{Tangled, SomeTangled, Endable, Ended, Turnable, Turned, Ordering, SomeOrdering, ShareRoom, Tables};

use crate::share::share_level;
use plan_checks::levels::levels;

// Writes the numbers from 0 on.
pub fn count_up(out: &mut [u16])
    requires { length out.old ≤ max_vertices }
    ensures { out.new ≡ numbers 0 (length out.old) }
{
    for (i, x) in out.iter_mut().enumerate() {
        *x = i as u16;
    }
}

// Writes the upper end of each segment over its lower end's number: from the last, so that of several the first stays.
fn upper_ends(uppers: &[u32], lowers: &[u32], upper: &mut [u16])
    requires { Endable uppers.now lowers.now upper.old }
    ensures { Ended uppers.now lowers.now upper.new }
{
    for i in (0..uppers.len()).rev() {
        let v = lowers[i] as usize;
        upper[v] = uppers[i] as u16;
    }
}

fn turn_of(via: bool, under: bool, l: u16) -> u16
    ensures { result ≡ cond (via && under) l 0 }
{
    if via && under { l } else { 0 }
}

// Leaves the level of each via whose upper end is a via, and 0 for every other vertex.
fn set_turns(vias: &[bool], upper: &[u16], turn: &mut [u16])
    requires { Turnable vias.now upper.now turn.old }
    ensures { Turned vias.now upper.now turn.old turn.new }
{
    for (v, t) in turn.iter_mut().enumerate() {
        let u = usize::from(upper[v]);
        *t = turn_of(vias[v], vias[u], *t);
    }
}

// Rearranges each level from the second down.
fn share_levels(
    sizes: &[u16],
    turn: &[u16],
    upper: &[u16],
    order: &mut [u16],
    places: &mut [u16],
    codes: &mut [u32],
)
    requires { SomeOrdering sizes.now turn.now upper.now order.old × ShareRoom order.old places.old codes.old }
    ensures { (p : PlanData) → Ordering p sizes.now turn.now upper.now order.old → order.new ≡ order_of p }
{
    let mut first: usize = 0;
    for l in 2..=sizes.len() {
        first += usize::from(sizes[l - 2]);
        let end = first + usize::from(sizes[l - 1]);
        share_level(turn, l as u16, upper, order, first, end, places, codes);
    }
}

// The order of a tangled plan. `turn`, `upper`, `places` and `codes` are room to work in.
pub fn order(
    sizes: &[u16],
    vias: &[bool],
    uppers: &[u32],
    lowers: &[u32],
    order: &mut [u16],
    turn: &mut [u16],
    upper: &mut [u16],
    places: &mut [u16],
    codes: &mut [u32],
)
    requires { SomeTangled sizes.now vias.now uppers.now lowers.now × Tables vias.now order.old turn.old upper.old places.old codes.old }
    ensures { (p : PlanData) → Tangled p sizes.now vias.now uppers.now lowers.now → order.new ≡ order_of p }
{
    levels(sizes, turn);
    count_up(upper);
    upper_ends(uppers, lowers, upper);
    set_turns(vias, upper, turn);
    count_up(order);
    share_levels(sizes, turn, upper, order, places, codes);
}

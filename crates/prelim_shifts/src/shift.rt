// Shifting classes: "Then classes, lowest number first, shift as a whole".
ghost use Rattle.std.specs.Prelude.{◌≡◌, ◌-◌, ◌≤◌, ◌<◌, length};
ghost use Rattle.ints.specs.Ints.{size, SizedTo};
ghost use Rattle.plan.specs.Limits.{max_levels, max_segments};
ghost use Rattle.prelim_classes.specs.inner.Links.{Rising, chain};
ghost use Rattle.preliminary.specs.Shift as spec;
ghost use Rattle.prelim_shifts.specs.inner.Counts.{moved_at};
ghost use Rattle.prelim_shifts.specs.inner.Shifts as lists;

use crate::collect::{offsets, slacks};
use crate::keys::{link_pairs, link_segments};
use crate::middle::{least, middle};
use plan::data::Plan;
use prelim_classes::links::{NONE, bucket};

// One for each class, and one for none.
const HEADS: usize = 65;

// Moves the vertices along a chain d to the right.
fn move_all(d: i64, first: usize, link: &[u16], xs: &mut [i64])
    requires { Rising link.now × (length xs.old ≡ length link.now) × SizedTo 134217728 xs.old × (size d ≤ 268435456) }
    ensures { xs.new ≡ moved_at d (chain link.now first) xs.old }
{
    let mut v = first;
    while v < link.len() {
        xs[v] += d;
        v = usize::from(link[v]);
    }
}

// By how much class c shifts: the least of the slacks along a chain of pairs; without one the middle of the offsets along a
// chain of segments.
fn shift_of(
    c: u32,
    gap: u32,
    pair: usize,
    pair_link: &[u16],
    order: &[u16],
    right: &[u16],
    halves: &[u16],
    segment: usize,
    segment_link: &[u16],
    uppers: &[u32],
    lowers: &[u32],
    classes: &[u32],
    xs: &[i64],
    buffer: &mut [i64],
) -> i64
    requires shiftable { lists.Shiftable gap halves.now order.now right.now uppers.now lowers.now classes.now }
    requires rising { Rising pair_link.now × (length pair_link.now ≡ length order.now) × Rising segment_link.now
        × (length segment_link.now ≡ length uppers.now) × (length buffer.old ≡ max_segments) }
    requires xs_len { (length xs.now ≡ length classes.now) × SizedTo 134217728 xs.now × lists.BelowAt (length xs.now) right.now (chain pair_link.now pair) }
    ensures { result ≡ spec.least_or
        (spec.middle (lists.offsets c classes.now xs.now uppers.now lowers.now (chain segment_link.now segment)))
        (lists.slacks gap halves.now xs.now order.now right.now (chain pair_link.now pair)) }
{
    let pairs = slacks(gap, pair, pair_link, order, right, halves, xs, buffer);
    if pairs > 0 {
        return least(&buffer[..pairs]);
    }
    let segments = offsets(
        c,
        segment,
        segment_link,
        uppers,
        lowers,
        classes,
        xs,
        buffer,
    );
    middle(&buffer[..segments])
}

// Shifts the classes, one after another; the heads have an entry for each, and one for none.
fn shift_each(
    gap: u32,
    pair_head: &[u16],
    pair_link: &[u16],
    order: &[u16],
    right: &[u16],
    halves: &[u16],
    segment_head: &[u16],
    segment_link: &[u16],
    uppers: &[u32],
    lowers: &[u32],
    member_head: &[u16],
    member_link: &[u16],
    classes: &[u32],
    xs: &mut [i64],
)
    requires shiftable { lists.Shiftable gap halves.now order.now right.now uppers.now lowers.now classes.now }
    requires linked { lists.Linked order.now right.now uppers.now lowers.now classes.now pair_head.now pair_link.now
        segment_head.now segment_link.now member_head.now member_link.now }
    requires xs_len { (length xs.old ≡ length classes.now) × lists.Spread 1 512000 classes.now xs.old }
    ensures { lists.Shifted (length pair_head.now - 1) gap halves.now order.now right.now
        uppers.now lowers.now classes.now xs.old xs.new }
{
    let mut buffer = [0i64; Plan::MAX_SEGMENTS];
    for c in 1..pair_head.len() {
        let d = shift_of(
            c as u32,
            gap,
            usize::from(pair_head[c]),
            pair_link,
            order,
            right,
            halves,
            usize::from(segment_head[c]),
            segment_link,
            uppers,
            lowers,
            classes,
            xs,
            &mut buffer,
        );
        move_all(d, usize::from(member_head[c]), member_link, xs);
    }
}

// Shifts the classes from 1 to `levels`.
pub fn shift(
    levels: usize,
    gap: u32,
    order: &[u16],
    right: &[u16],
    halves: &[u16],
    uppers: &[u32],
    lowers: &[u32],
    classes: &[u32],
    xs: &mut [i64],
)
    requires shiftable { lists.Shiftable gap halves.now order.now right.now uppers.now lowers.now classes.now }
    requires levels_le_max_levels { (levels ≤ max_levels) × (length xs.old ≡ length classes.now) × lists.Spread 1 512000 classes.now xs.old }
    ensures { lists.Shifted levels gap halves.now order.now right.now
        uppers.now lowers.now classes.now xs.old xs.new }
{
    let n = classes.len();
    let m = uppers.len();
    let mut pair_head = [NONE; HEADS];
    let mut pair_link = [0u16; Plan::MAX_VERTICES];
    link_pairs(order, right, classes, &mut pair_head, &mut pair_link[..n]);
    let mut segment_head = [NONE; HEADS];
    let mut segment_link = [0u16; Plan::MAX_SEGMENTS];
    link_segments(
        uppers,
        lowers,
        classes,
        &mut segment_head,
        &mut segment_link[..m],
    );
    let mut member_head = [NONE; HEADS];
    let mut member_link = [0u16; Plan::MAX_VERTICES];
    bucket(classes, &mut member_head, &mut member_link[..n]);
    let k = levels + 1;
    shift_each(
        gap,
        &pair_head[..k],
        &pair_link[..n],
        order,
        right,
        halves,
        &segment_head,
        &segment_link[..m],
        uppers,
        lowers,
        &member_head,
        &member_link[..n],
        classes,
        xs,
    );
}

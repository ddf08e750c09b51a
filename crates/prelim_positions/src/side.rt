// x₋ on levels in the order in hand: strands classed, placed and shifted.
ghost use Rattle.std.specs.Prelude.{length};
ghost use Rattle.prelim_classes.specs.inner.Strands.{SomeStrung};
ghost use Rattle.prelim_positions.specs.inner.Sides.{SideIs, SideRoom};

use prelim_classes::arrange::arrange;
use prelim_classes::classes::class;
use prelim_classes::stand::stand;
use prelim_shifts::shift::shift;

// The positions; `order`, `right` and `classes` are to work on.
pub fn side(
    reversed: bool,
    gap: u32,
    sizes: &[u16],
    halves: &[u16],
    next: &[u16],
    top: &[u16],
    uppers: &[u32],
    lowers: &[u32],
    order: &mut [u16],
    right: &mut [u16],
    classes: &mut [u32],
    xs: &mut [i64],
)
    requires some_strung { SomeStrung gap sizes.now halves.now next.now top.now uppers.now lowers.now }
    requires side_room { SideRoom (length next.now) order.old right.old classes.old xs.old }
    ensures { SideIs reversed gap sizes.now halves.now next.now top.now
        uppers.now lowers.now xs.new }
{
    arrange(reversed, sizes, order, right);
    class(sizes, order, next, top, classes);
    stand(gap, halves, next, top, order, right, classes, xs);
    shift(
        sizes.len(),
        gap,
        order,
        right,
        halves,
        uppers,
        lowers,
        classes,
        xs,
    );
}

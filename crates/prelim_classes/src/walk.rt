// Walks along a strand, from its topmost vertex down: `next` has of each vertex the one below it in its strand.
ghost use Rattle.std.specs.Prelude.{◌≡◌, fold, length, set};
ghost use Rattle.prelim_classes.specs.inner.Links.{Rising, chain};
ghost use Rattle.preliminary.specs.Classes as classes;
ghost use Rattle.preliminary.specs.Place.{mark_all};

// Writes x at each vertex of the strand.
fn write<T: Copy>(x: T, top: usize, next: &[u16], out: &mut [T])
    requires { Rising next.now × (length out.old ≡ length next.now) }
    ensures { out.new ≡ fold (λ xs v. set xs v x) out.old (chain next.now top) }
{
    let mut v = top;
    while v < next.len() {
        out[v] = x;
        v = usize::from(next[v]);
    }
}

// Writes c at each vertex of the strand.
pub fn give(c: u32, top: usize, next: &[u16], out: &mut [u32])
    requires { Rising next.now × (length out.old ≡ length next.now) }
    ensures { out.new ≡ classes.give c (chain next.now top) out.old }
{
    write(c, top, next, out);
}

// Marks each vertex of the strand.
pub fn mark(top: usize, next: &[u16], begun: &mut [bool])
    requires { Rising next.now × (length begun.old ≡ length next.now) }
    ensures { begun.new ≡ mark_all (chain next.now top) begun.old }
{
    write(true, top, next, begun);
}

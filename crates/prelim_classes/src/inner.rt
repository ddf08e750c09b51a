// Strands by their inner segments: the vertex below each, and the topmost.
ghost use Rattle.std.specs.Prelude.{◌≡◌, false, cond, ◌&&◌, ◌+◌, ◌≤◌, ◌<◌, length, get_or, set, replicate};
ghost use Rattle.plan.specs.Limits.{max_vertices};
ghost use Rattle.plan.specs.inner.Graph.{Within};
ghost use Rattle.prelim_classes.specs.inner.Strands.{InnerLinks, Tops, StrandLists};

// Links a to b, if both are vias.
fn link_inner(a: usize, b: usize, vias: &[bool], link: &mut [u16])
    requires { (a < length vias.now) × (b < length vias.now) × (length vias.now ≤ max_vertices) × (length link.old ≡ length vias.now) }
    ensures { link.new ≡ cond (get_or vias.now a false && get_or vias.now b false) (set link.old a b) link.old }
{
    if vias[a] && vias[b] {
        link[a] = b as u16;
    }
}

// Links each via to the via at the other end of its inner segment, from one list of ends to the other.
pub fn link_vias(vias: &[bool], from: &[u32], to: &[u32], link: &mut [u16])
    requires { Within vias.now from.now to.now × (link.old ≡ replicate (length vias.now) 2048) }
    ensures { InnerLinks vias.now from.now to.now link.new }
{
    for i in (0..from.len()).rev() {
        link_inner(from[i] as usize, to[i] as usize, vias, link);
    }
}

// The topmost vertex of v's strand. Of the vertices before v `top` has the topmost, of v itself the vertex above it.
fn top_of(v: usize, top: &[u16]) -> u16
    requires { (v < length top.now) × (length top.now ≤ max_vertices) }
    ensures value { get_or top.now v 0 < v → result ≡ get_or top.now (get_or top.now v 0) 0 }
    ensures value_2 { v ≤ get_or top.now v 0 → result ≡ v }
{
    let u = usize::from(top[v]);
    if u < v { top[u] } else { v as u16 }
}

// Writes the topmost vertex of every strand where the vertex above it stood.
pub fn tops(top: &mut [u16])
    requires { length top.old ≤ max_vertices }
    ensures { Tops top.old top.new }
{
    for v in 0..top.len() {
        top[v] = top_of(v, top);
    }
}

// Of each vertex the one below it in its strand, and the topmost.
pub fn strands(vias: &[bool], uppers: &[u32], lowers: &[u32], next: &mut [u16], top: &mut [u16])
    requires within { Within vias.now uppers.now lowers.now }
    requires next_value { (next.old ≡ replicate (length vias.now) 2048) × (top.old ≡ replicate (length vias.now) 2048) }
    ensures { StrandLists vias.now uppers.now lowers.now next.new top.new }
{
    link_vias(vias, uppers, lowers, next);
    link_vias(vias, lowers, uppers, top);
    tops(top);
}

// Where in a names text the name of each box stands.
ghost use Rattle.std.specs.Prelude.{◌≡◌, ◌&&◌, [], ◌≤◌, eqb, length, get_or, replicate};
ghost use Rattle.picture_names.specs.Names.{is_box, names_of, lines_named, max_names};
ghost use Rattle.picture_names.specs.inner.Indexed.{Indexed, HoldsNames, Takes};

use crate::line::read_line;
use crate::types::BadLine;
use script_words::parts::end_of;

// Whether vertex v is a box without a name.
fn is_free(vias: &[bool], starts: &[u32], ends: &[u32], v: usize) -> bool
    requires { (length vias.now ≤ length starts.now) × (length vias.now ≤ length ends.now) }
    ensures { result ≡ (is_box vias.now v && eqb (get_or starts.now v 0) (get_or ends.now v 0)) }
{
    if v >= vias.len() {
        return false;
    }
    if vias[v] {
        return false;
    }
    starts[v] == ends[v]
}

// A line that stands between two places of the text: whether it names a box that has no name yet; if so, the place of the name.
fn index_line(
    names: &[u8],
    vias: &[bool],
    starts: &mut [u32],
    ends: &mut [u32],
    from: usize,
    to: usize,
) -> bool
    requires vias_in_bounds { (length vias.now ≤ length starts.old) × (length vias.now ≤ length ends.old) }
    requires from_le_to { (from ≤ to) × (to ≤ length names.now) × (length names.now ≤ max_names) }
    ensures { Takes vias.now names.now from to starts.old ends.old starts.new ends.new result }
{
    let l = read_line(&names[from..to]);
    if !l.found {
        return false;
    }
    let v = l.value as usize;
    if !is_free(vias, starts, ends, v) {
        return false;
    }
    starts[v] = (from + l.next) as u32;
    ends[v] = to as u32;
    true
}

// All lines, one after another. What follows the last LF is no line.
fn index_lines(
    names: &[u8],
    vias: &[bool],
    starts: &mut [u32],
    ends: &mut [u32],
) -> Result<(), BadLine>
    requires vias_in_bounds { (length vias.now ≤ length starts.old) × (length vias.now ≤ length ends.old) }
    requires names_len_bound { length names.now ≤ max_names }
    requires holds_names { HoldsNames names.now starts.old ends.old (replicate (length vias.now) []) }
    ensures { Indexed (lines_named vias.now names.now) names.now starts.new ends.new result }
{
    let mut from: usize = 0;
    let mut line: u32 = 1;
    loop {
        let to = end_of(names, b'\n', from);
        if to >= names.len() {
            if from < to {
                return Err(BadLine(line));
            }
            return Ok(());
        }
        if !index_line(names, vias, starts, ends, from, to) {
            return Err(BadLine(line));
        }
        from = to + 1;
        line += 1;
    }
}

// For every vertex where its name begins and ends, if the text is good; for a vertex without a name both are the same.
pub fn index_names(
    names: &[u8],
    vias: &[bool],
    starts: &mut [u32],
    ends: &mut [u32],
) -> Result<(), BadLine>
    requires { (length vias.now ≤ length starts.old) × (length vias.now ≤ length ends.old) }
    ensures { Indexed (names_of vias.now names.now) names.now starts.new ends.new result }
{
    if names.len() > 65536 {
        return Err(BadLine(0));
    }
    // No vertex has a place.
    starts.fill(0);
    ends.fill(0);
    index_lines(names, vias, starts, ends)
}

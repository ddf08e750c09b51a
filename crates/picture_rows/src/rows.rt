// Rows of a name.
ghost use Rattle.std.specs.Prelude.{◌≡◌, ◌-◌, ◌≤◌, ◌<◌, length};
ghost use Rattle.picture_rows.specs.Rows as spec;
ghost use Rattle.picture_rows.specs.Rows.{cut_end, is_whole};
ghost use Rattle.picture_rows.specs.inner.Found.{stops, FirstRow};

use crate::columns::columns_of;
use script_words::parts::end_of;

// A row of a name: where it ends, whether it is cut, and where what comes after it begins.
#[derive(Clone, Copy)]
pub struct Row {
    pub end: usize,
    pub cut: bool,
    pub next: usize,
}

// Whether a front can end before a byte: before spaces alone, or before every character.
fn is_stop(words: bool, b: u8) -> bool
    ensures { result ≡ stops words b }
{
    if words { b == b' ' } else { 0 < columns_of(b) }
}

// The end of the longest front of at most so many columns; 0 if there is none.
fn longest(name: &[u8], words: bool, most: usize) -> usize
    ensures { (result ≡ spec.longest (stops words) most name.now) × (result ≤ length name.now) }
{
    let mut end: usize = 0;
    let mut wide: usize = 0;
    for (i, b) in name.iter().enumerate() {
        wide += columns_of(*b);
        // Behind a name stands a space.
        let next = name.get(i + 1).copied().unwrap_or(b' ');
        if is_stop(words, next) && wide <= most {
            end = i + 1;
        }
    }
    end
}

// The end of a row that is cut.
fn cut_end(name: &[u8], most: usize) -> usize
    ensures { (result ≡ cut_end most name.now) × (result ≤ length name.now) }
{
    let end = longest(name, false, most);
    if end == 0 {
        return 0;
    }
    let before = end - 1;
    if name[before] == b' ' {
        return before;
    }
    end
}

// Whether whole words make the row.
fn is_whole(left: u32, end: usize, name: &[u8]) -> bool
    requires { 0 < left }
    ensures { result ≡ is_whole (left - 1) end name.now }
{
    if left == 1 {
        return end == name.len();
    }
    0 < end
}

// The first of at most so many rows.
pub fn first_row(name: &[u8], cols: usize, left: u32) -> Row
    requires { (0 < length name.now) × (0 < left) × (0 < cols) }
    ensures { FirstRow cols left name.now result.end result.cut result.next }
{
    let end = longest(name, true, cols);
    if is_whole(left, end, name) {
        return Row {
            end,
            cut: false,
            next: end + 1,
        };
    }
    let word = end_of(name, b' ', 0);
    let room = if left == 1 { name.len() } else { word };
    Row {
        end: cut_end(&name[..room], cols - 1),
        cut: true,
        next: word + 1,
    }
}

// How many rows a name has.
pub fn count_rows(name: &[u8], cols: usize, most: u32) -> u32
    requires { 0 < cols }
    ensures { result ≡ length (spec.rows cols most name.now) }
{
    let mut start: usize = 0;
    for count in 0..most {
        if name.len() <= start {
            return count;
        }
        start += first_row(&name[start..], cols, most - count).next;
    }
    most
}

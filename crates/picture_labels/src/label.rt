// The title and the label of a box, written from a position of a lent buffer on. Each answers the position past what it wrote.
ghost use Rattle.std.specs.Prelude.{◌≤◌, ◌<◌, ◌^◌};
ghost use Rattle.ints.specs.Ints as ints;
ghost use Rattle.text.specs.Decimal.{decimal};
ghost use Rattle.text_write.specs.inner.Written.{Room, Wrote};
ghost use Rattle.picture_rows.specs.Rows.{rows};
ghost use Rattle.picture_labels.specs.Label.{title_of, element_of, elements, number_size, name_size, rows_of, centred, label_of};
ghost use Rattle.picture_labels.specs.inner.Limits.{InLimits};

use crate::element::{put_row, put_start};
use crate::sizes::{columns_in, name_size, number_size};
use picture_rows::escape::put_escaped;
use picture_rows::rows::{count_rows, first_row};
use text_write::number::{put_decimal, put_then};

// The number, and the name if there is one.
pub fn put_title(out: &mut [u8], at: usize, number: u32, name: &[u8]) -> usize
    requires { Room (title_of number name.now) out.old at }
    ensures { Wrote (title_of number name.now) out.old at result out.new }
{
    if name.is_empty() {
        return put_decimal(out, at, number as u64);
    }
    let next = put_then(out, at, number as u64, b" ");
    put_escaped(out, next, name)
}

// Rows of a name, at most three, the first at the place `first`, each two places below the one before it.
fn put_rows(
    out: &mut [u8],
    from: usize,
    x: i64,
    y: u64,
    size: u64,
    first: u32,
    name: &[u8],
    cols: usize,
) -> usize
    requires { (ints.size x ≤ 2 ^ 42) × (y ≤ 2 ^ 42) × (first ≤ 3) × (0 < cols) × Room (elements x y size first (rows cols 3 name.now)) out.old from }
    ensures { Wrote (elements x y size first (rows cols 3 name.now)) out.old from result out.new }
{
    let mut at = from;
    let mut start: usize = 0;
    for count in 0..3 {
        if name.len() <= start {
            return at;
        }
        let r = first_row(&name[start..], cols, 3 - count);
        let end = start + r.end;
        let k = first + 2 * count;
        at = put_row(out, at, x, y, size, k, &name[start..end], r.cut);
        start += r.next;
    }
    at
}

// The label of a box without a name.
fn put_number(
    out: &mut [u8],
    at: usize,
    x: i64,
    y: u64,
    hw: u16,
    measure: u32,
    number: u32,
) -> usize
    requires { InLimits x y hw measure number × Room (element_of x y (number_size hw measure number) 2 (decimal number)) out.old at }
    ensures { Wrote (element_of x y (number_size hw measure number) 2 (decimal number)) out.old at result out.new }
{
    let size = number_size(hw, measure, number);
    let next = put_start(out, at, x, y, size, 2);
    put_then(out, next, number as u64, b"</text>")
}

// The label of a box with a name.
fn put_name(out: &mut [u8], at: usize, x: i64, y: u64, hw: u16, measure: u32, name: &[u8]) -> usize
    requires { InLimits x y hw measure 0 × Room (centred x y (name_size hw measure name.now) (rows_of hw measure name.now)) out.old at }
    ensures { Wrote (centred x y (name_size hw measure name.now) (rows_of hw measure name.now)) out.old at result out.new }
{
    let size = name_size(hw, measure, name);
    let cols = columns_in(hw, size);
    let count = count_rows(name, cols, 3);
    put_rows(out, at, x, y, size, 3 - count, name, cols)
}

// The label of a box: its name in rows, or its number.
pub fn put_label(
    out: &mut [u8],
    at: usize,
    x: i64,
    y: u64,
    hw: u16,
    measure: u32,
    number: u32,
    name: &[u8],
) -> usize
    requires { InLimits x y hw measure number × Room (label_of x y hw measure number name.now) out.old at }
    ensures { Wrote (label_of x y hw measure number name.now) out.old at result out.new }
{
    if name.is_empty() {
        return put_number(out, at, x, y, hw, measure, number);
    }
    put_name(out, at, x, y, hw, measure, name)
}

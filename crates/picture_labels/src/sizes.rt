// How high the letters of a label are, in thousandths of a step, and how many columns a row has.
ghost use Rattle.std.specs.Prelude.{◌≡◌, ◌≤◌, ◌<◌, ◌*◌, min, max, length};
ghost use Rattle.text.specs.Decimal.{decimal};
ghost use Rattle.picture_rows.specs.Rows as rows;
ghost use Rattle.picture_labels.specs.Label.{number_size, name_size, columns_in};

use picture_rows::columns::widest;

// How many digits a number has.
fn digits(n: u32) -> u64
    requires { n < 10000 }
    ensures { (result ≡ length (decimal n)) × (1 ≤ result) }
{
    if n < 10 {
        return 1;
    }
    if n < 100 {
        return 2;
    }
    if n < 1000 {
        return 3;
    }
    4
}

// The height of a number's letters.
pub fn number_size(hw: u16, measure: u32, number: u32) -> u64
    requires { number < 10000 }
    ensures { result ≡ number_size hw measure number }
{
    (200 * measure as u64).min(3000 * hw as u64 / digits(number))
}

// The columns of the widest word, at least 1 and at most 12.
fn asked(name: &[u8]) -> u64
    ensures { (result ≡ max 1 (min 12 (rows.widest name.now))) × (1 ≤ result) × (result ≤ 12) }
{
    widest(name).clamp(1, 12) as u64
}

// The height of a name's letters.
pub fn name_size(hw: u16, measure: u32, name: &[u8]) -> u64
    ensures { result ≡ name_size hw measure name.now }
{
    (100 * measure as u64).min(3000 * hw as u64 / asked(name))
}

// The columns of a row.
pub fn columns_in(hw: u16, size: u64) -> usize
    requires { 0 < size }
    ensures { result ≡ columns_in hw size }
{
    (3000 * hw as u64 / size) as usize
}

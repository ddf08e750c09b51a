// How wide names are.
ghost use Rattle.std.specs.Prelude.{◌≡◌, cond, ◌≤◌};
ghost use Rattle.picture_rows.specs.Rows as spec;
ghost use Rattle.picture_rows.specs.Rows.{columns_of};

// Columns of a byte.
#[tactic(auto, unfolding(crate::specs::Rows::columns_of))]
pub fn columns_of(b: u8) -> usize
    ensures { (result ≡ columns_of b) × (result ≤ 2) }
{
    if b < 0x80 {
        return 1;
    }
    if b < 0xC0 {
        return 0;
    }
    if b < 0xE0 {
        return 1;
    }
    2
}

pub fn chosen(test: bool, a: usize, b: usize) -> usize
    ensures { result ≡ cond test a b }
{
    if test { a } else { b }
}

// The columns of the widest word: `wide` are those of the word so far.
pub fn widest(name: &[u8]) -> usize
    ensures { result ≡ spec.widest name.now }
{
    let mut most: usize = 0;
    let mut wide: usize = 0;
    for b in name {
        if *b == b' ' {
            most = most.max(wide);
            wide = 0;
        } else {
            wide += columns_of(*b);
        }
    }
    most.max(wide)
}

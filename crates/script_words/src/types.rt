// What a word says: a number without a sign, a number below 0, or no number of 64 bits.
#[derive(Clone, Copy)]
pub enum Number {
    Whole(u64),
    Negative(i64),
    Other,
}

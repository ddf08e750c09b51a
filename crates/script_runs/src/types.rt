// What the words of a command placerun are made of, and what they say.

// Which numbers may stand in a list: without a sign, with a sign, or all of 64 bits.
#[derive(Clone, Copy)]
pub enum Kind {
    Unsigned,
    Signed,
    Any,
}

// A request whose lists lie at the front of lent buffers: how long each of them is. And the length of the answer buffer.
#[derive(Clone, Copy)]
pub struct RunRequest {
    pub boxes: u64,
    pub left: Option<i64>,
    pub right: Option<i64>,
    pub old: usize,
    pub distances: usize,
    pub counts: usize,
    pub neighbours: usize,
    pub ratings: usize,
    pub room: u64,
}

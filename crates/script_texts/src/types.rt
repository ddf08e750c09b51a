// What an escaped text stands for: so many bytes at the front of a lent buffer, or nothing.
#[derive(Clone, Copy)]
pub enum Text {
    Bytes(usize),
    Bad,
}

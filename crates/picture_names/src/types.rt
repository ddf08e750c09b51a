// What was seen of a name up to some byte.
#[derive(Clone, Copy)]
pub enum Seen {
    // Nothing, or a space: a word has to begin.
    Start,
    // A whole character that is no space.
    Inside,
    // A character that lacks so many bytes from 80 to BF.
    One,
    Two,
    Three,
    // First bytes of characters whose second byte is not any from 80 to BF.
    AfterE0,
    AfterED,
    AfterEF,
    AfterEFBF,
    AfterF0,
    AfterF4,
    // What is no front of a name.
    Bad,
}

// The first line of the names, from 1, that is refused; 0 for names that are too long.
#[derive(Clone, Copy, Debug, PartialEq, Eq)]
pub struct BadLine(pub u32);

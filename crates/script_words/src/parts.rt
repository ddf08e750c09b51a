// The parts of a line between separators.
ghost use Rattle.std.specs.Prelude.{◌≡◌, [], ◌≤◌, length, get_or};
ghost use Rattle.script_words.specs.Parts as spec;
ghost use Rattle.script_words.specs.Parts.{parts, word_at};
ghost use Rattle.script_words.specs.inner.Ends.{PartEnds};

// Where the part that begins at `from` ends.
pub fn end_of(s: &[u8], sep: u8, from: usize) -> usize
    requires { from ≤ length s.now }
    ensures { PartEnds sep s.now from result }
{
    match s[from..].iter().position(|b| *b == sep) {
        Some(n) => from + n,
        None => s.len(),
    }
}

// Part k, counted from 0; empty if there is none.
pub fn part(s: &[u8], sep: u8, k: usize) -> &[u8]
    ensures { result.now ≡ get_or (parts sep s.now) k [] }
{
    s.split(|b| *b == sep).nth(k).unwrap_or(&[])
}

// Word k.
pub fn word(line: &[u8], k: usize) -> &[u8]
    ensures { result.now ≡ word_at line.now k }
{
    part(line, b' ', k)
}

pub fn same(a: &[u8], b: &[u8]) -> bool
    ensures { result ≡ spec.same a.now b.now }
{
    a == b
}

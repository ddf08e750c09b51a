// What stands at a position of a plan text: words, numbers, vertices and lines. A position is at most the text's length.
ghost use Rattle.std.specs.Prelude.{◌≡◌, ◌+◌, ◌≤◌, ◌<◌, length, get_or, true, ◌&&◌};
ghost use Rattle.text.specs.Parser.{is_digit, number};
ghost use Rattle.text.specs.Form.{box, segment_line};
ghost use Rattle.text_scan.specs.inner.Scanned.{Finds, HasWord, MoreDigits, number_then, vertex, vertex_of, MayRate, segment_of, plan_line, header_of, Ends};

// A number, and the position past it.
#[derive(Clone, Copy)]
pub struct FoundNumber {
    pub found: bool,
    pub value: u32,
    pub next: usize,
}

// Whether a word stands at a position.
pub fn word_at(text: &[u8], at: usize, word: &[u8]) -> bool
    requires { at ≤ length text.now }
    ensures { HasWord word.now text.now at result }
{
    text[at..].starts_with(word)
}

// The byte at a position, 0 past the end.
fn byte_at(text: &[u8], at: usize) -> u8
    ensures { result ≡ get_or text.now at 0 }
{
    text.get(at).copied().unwrap_or(0)
}

fn is_digit(b: u8) -> bool
    ensures { result ≡ is_digit b }
{
    b.is_ascii_digit()
}

// The digits from a position on, at most four, after a first digit.
fn more_digits(text: &[u8], from: usize, first: u32) -> FoundNumber
    requires { (from ≤ length text.now) × (first < 10) }
    ensures { MoreDigits text.now from first result.found result.value result.next }
{
    let mut value = first;
    let end = from + 4;
    for at in from..end {
        let b = byte_at(text, at);
        if !is_digit(b) {
            return FoundNumber {
                found: true,
                value,
                next: at,
            };
        }
        value = value * 10 + u32::from(b - b'0');
    }
    FoundNumber {
        found: true,
        value,
        next: end,
    }
}

// The digit that no other follows.
const ZERO: u8 = b'0';

// "Numbers are decimal, one to five digits, no leading zero except 0 itself."
pub fn number_at(text: &[u8], at: usize) -> FoundNumber
    requires { at ≤ length text.now }
    ensures { Finds number text.now at result.found result.value result.next }
{
    let b = byte_at(text, at);
    if !is_digit(b) {
        return FoundNumber {
            found: false,
            value: 0,
            next: at,
        };
    }
    if b == ZERO {
        return FoundNumber {
            found: true,
            value: 0,
            next: at + 1,
        };
    }
    more_digits(text, at + 1, u32::from(b - b'0'))
}

// A number with a word after it.
pub fn number_then(text: &[u8], at: usize, word: &[u8]) -> FoundNumber
    requires { at ≤ length text.now }
    ensures { Finds (number_then word.now) text.now at result.found result.value result.next }
{
    let n = number_at(text, at);
    if !n.found {
        return n;
    }
    if !word_at(text, n.next, word) {
        return FoundNumber {
            found: false,
            value: 0,
            next: at,
        };
    }
    FoundNumber {
        found: true,
        value: n.value,
        next: n.next + word.len(),
    }
}

// A vertex of a level line, and the position past it. A via's half-width is 0.
#[derive(Clone, Copy)]
pub struct FoundVertex {
    pub found: bool,
    pub via: bool,
    pub half: u32,
    pub next: usize,
}

// " (box 3)"
fn box_at(text: &[u8], at: usize) -> FoundVertex
    requires { at ≤ length text.now }
    ensures { Finds box text.now at result.found (vertex_of result) result.next }
{
    if !word_at(text, at, b" (box ") {
        return FoundVertex {
            found: false,
            via: false,
            half: 0,
            next: at,
        };
    }
    let n = number_then(text, at + 6, b")");
    FoundVertex {
        found: n.found,
        via: false,
        half: n.value,
        next: n.next,
    }
}

// " (box 3)" or " (via)"
pub fn vertex_at(text: &[u8], at: usize) -> FoundVertex
    requires { at ≤ length text.now }
    ensures { Finds vertex text.now at result.found (vertex_of result) result.next }
{
    let b = box_at(text, at);
    if b.found {
        return b;
    }
    if word_at(text, at, b" (via)") {
        return FoundVertex {
            found: true,
            via: true,
            half: 0,
            next: at + 6,
        };
    }
    FoundVertex {
        found: false,
        via: true,
        half: 0,
        next: at,
    }
}

// " W", where a rating is written; else the position stays.
fn rating_at(text: &[u8], at: usize) -> FoundNumber
    requires { at ≤ length text.now }
    ensures { MayRate text.now at result.found result.value result.next }
{
    let none = FoundNumber {
        found: false,
        value: 0,
        next: at,
    };
    if !word_at(text, at, b" ") {
        return none;
    }
    let w = number_at(text, at + 1);
    if w.found { w } else { none }
}

// A segment's ends, whether a rating is written and which, and the position past its line.
#[derive(Clone, Copy)]
pub struct FoundSegment {
    pub found: bool,
    pub upper: u32,
    pub lower: u32,
    pub rated: bool,
    pub rating: u32,
    pub next: usize,
}

// "(seg A B)" or "(seg A B W)"
pub fn segment_at(text: &[u8], at: usize) -> FoundSegment
    requires { at ≤ length text.now }
    ensures { Finds segment_line text.now at result.found (segment_of result) result.next }
{
    let none = FoundSegment {
        found: false,
        upper: 0,
        lower: 0,
        rated: false,
        rating: 0,
        next: at,
    };
    if !word_at(text, at, b"(seg ") {
        return none;
    }
    let a = number_then(text, at + 5, b" ");
    if !a.found {
        return none;
    }
    let b = number_at(text, a.next);
    if !b.found {
        return none;
    }
    let w = rating_at(text, b.next);
    if !word_at(text, w.next, b")\n") {
        return none;
    }
    FoundSegment {
        found: true,
        upper: a.value,
        lower: b.value,
        rated: w.found,
        rating: w.value,
        next: w.next + 2,
    }
}

// K, G and S of a plan, and the position past their line.
#[derive(Clone, Copy)]
pub struct FoundHeader {
    pub found: bool,
    pub levels: u32,
    pub gap: u32,
    pub spacing: u32,
    pub next: usize,
}

// "(plan K G S)"
pub fn header_at(text: &[u8], at: usize) -> FoundHeader
    requires { at ≤ length text.now }
    ensures { Finds plan_line text.now at result.found (header_of result) result.next }
{
    let none = FoundHeader {
        found: false,
        levels: 0,
        gap: 0,
        spacing: 0,
        next: at,
    };
    if !word_at(text, at, b"(plan ") {
        return none;
    }
    let k = number_then(text, at + 6, b" ");
    if !k.found {
        return none;
    }
    let g = number_then(text, k.next, b" ");
    if !g.found {
        return none;
    }
    let s = number_then(text, g.next, b")\n");
    FoundHeader {
        found: s.found,
        levels: k.value,
        gap: g.value,
        spacing: s.value,
        next: s.next,
    }
}

// "Last, `(end)`", and nothing after it.
pub fn ends(text: &[u8], at: usize) -> bool
    requires { at ≤ length text.now }
    ensures { Ends text.now at result }
{
    if !word_at(text, at, b"(end)\n") {
        return false;
    }
    at + 6 == text.len()
}

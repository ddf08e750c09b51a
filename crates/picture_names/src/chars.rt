// Names byte by byte.
ghost use Rattle.std.specs.Prelude.{◌≡◌};
ghost use Rattle.picture_names.specs.Chars as spec;
ghost use Rattle.picture_names.specs.Chars.{begun_four, begun_wide, is_name, is_whole, seen_more};

use crate::types::Seen;

// First bytes of four.
#[tactic(auto, unfolding(crate::specs::Chars::begun_four))]
fn begun_four(b: u8) -> Seen
    ensures { result ≡ begun_four b }
{
    match b {
        0..=0xF0 => Seen::AfterF0,
        0xF1..=0xF3 => Seen::Three,
        0xF4 => Seen::AfterF4,
        _ => Seen::Bad,
    }
}

// First bytes of three or four.
#[tactic(auto, unfolding(crate::specs::Chars::begun_wide))]
fn begun_wide(b: u8) -> Seen
    ensures { result ≡ begun_wide b }
{
    match b {
        0..=0xE0 => Seen::AfterE0,
        0xE1..=0xEC => Seen::Two,
        0xED => Seen::AfterED,
        0xEE => Seen::Two,
        0xEF => Seen::AfterEF,
        _ => begun_four(b),
    }
}

// A character's first byte.
#[tactic(auto, unfolding(crate::specs::Chars::begun))]
fn begun(b: u8) -> Seen
    ensures { result ≡ spec.begun b }
{
    match b {
        0..=0x20 => Seen::Bad,
        0x21..=0x7E => Seen::Inside,
        0x7F..=0xC1 => Seen::Bad,
        0xC2..=0xDF => Seen::One,
        _ => begun_wide(b),
    }
}

// A byte from lo to hi.
#[tactic(auto, unfolding(crate::specs::Chars::ranged))]
fn ranged(lo: u8, hi: u8, b: u8, next: Seen) -> Seen
    ensures { result ≡ spec.ranged lo hi b next }
{
    if lo <= b && b <= hi { next } else { Seen::Bad }
}

// After a character that is no space.
#[tactic(auto, unfolding(crate::specs::Chars::seen_more))]
fn within_word(b: u8) -> Seen
    ensures { result ≡ seen_more Seen.Inside b }
{
    if b == b' ' { Seen::Start } else { begun(b) }
}

#[tactic(auto, unfolding(crate::specs::Chars::seen_more))]
fn after_ef(b: u8) -> Seen
    ensures { result ≡ seen_more Seen.AfterEF b }
{
    if b == 0xBF {
        return Seen::AfterEFBF;
    }
    ranged(0x80, 0xBE, b, Seen::One)
}

// One byte more.
#[tactic(auto, unfolding(crate::specs::Chars::seen_more))]
fn more(s: Seen, b: u8) -> Seen
    ensures { result ≡ seen_more s b }
{
    match s {
        Seen::Start => begun(b),
        Seen::Inside => within_word(b),
        Seen::One => ranged(0x80, 0xBF, b, Seen::Inside),
        Seen::Two => ranged(0x80, 0xBF, b, Seen::One),
        Seen::Three => ranged(0x80, 0xBF, b, Seen::Two),
        Seen::AfterE0 => ranged(0xA0, 0xBF, b, Seen::One),
        Seen::AfterED => ranged(0x80, 0x9F, b, Seen::One),
        Seen::AfterEF => after_ef(b),
        Seen::AfterEFBF => ranged(0x80, 0xBD, b, Seen::Inside),
        Seen::AfterF0 => ranged(0x90, 0xBF, b, Seen::Two),
        Seen::AfterF4 => ranged(0x80, 0x8F, b, Seen::Two),
        Seen::Bad => Seen::Bad,
    }
}

fn is_whole(s: Seen) -> bool
    ensures { result ≡ is_whole s }
{
    matches!(s, Seen::Inside)
}

pub fn is_name(name: &[u8]) -> bool
    ensures { result ≡ is_name name.now }
{
    is_whole(name.iter().fold(Seen::Start, |s, b| more(s, *b)))
}

// Whether what was found is within its limits: the questions of check 2 that are asked line by line.
ghost use Rattle.std.specs.Prelude.{◌≡◌, true, ◌&&◌};
ghost use Rattle.text.specs.Reading.{half_in_limit, rating_in_limit, rating_of};
ghost use Rattle.text_scan.specs.inner.Scanned.{vertex_of, segment_of, header_in_limits};

use crate::scanners::{FoundHeader, FoundSegment, FoundVertex};
use plan::data::Plan;
use plan::limits::{half_width_fits, numbers_fit, rating_fits};

// "half-width 1 to 200"
pub fn half_fits(v: FoundVertex) -> bool
    ensures { result ≡ half_in_limit (vertex_of v) }
{
    v.via || half_width_fits(v.half)
}

// The half-width that is stored of a vertex within the limits.
pub fn half_of(v: FoundVertex) -> u16
    ensures { half_in_limit (vertex_of v) ≡ true → result ≡ (vertex_of v).half }
{
    if v.via {
        return 0;
    }
    if v.half <= Plan::MAX_HALF_WIDTH {
        return v.half as u16;
    }
    0
}

// The least rating that is written.
const LEAST_WRITTEN: u32 = 2;

// "with W from 2 to 100; without one it has rating 1, never written."
pub fn rating_in_limit(s: FoundSegment) -> bool
    ensures { result ≡ rating_in_limit (segment_of s).rating }
{
    !s.rated || rating_fits(LEAST_WRITTEN, s.rating)
}

pub fn rating_of(s: FoundSegment) -> u32
    ensures { result ≡ rating_of (segment_of s).rating }
{
    if s.rated { s.rating } else { 1 }
}

pub fn both(a: bool, b: bool) -> bool
    ensures { result ≡ a && b }
{
    a && b
}

// K, G and S, and K level lines.
pub fn header_fits(h: FoundHeader, lines: usize) -> bool
    ensures { result ≡ header_in_limits h lines }
{
    numbers_fit(h.levels, h.gap, h.spacing) && lines == h.levels as usize
}

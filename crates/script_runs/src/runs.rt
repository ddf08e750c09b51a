// A command placerun: whether its words are a request, and which.
ghost use Rattle.std.specs.Prelude.{◌≡◌, length};
ghost use Rattle.script_words.specs.Parts.{words};
ghost use Rattle.script_runs.specs.Runs.{is_said, may_bound, may_room, bound_in, boxes_in, room_in, ratings_in, request_in, has_parts, has_options, has_numbers, has_lists, is_request};
ghost use Rattle.script_runs.specs.inner.Filled.{Fills, buffers, Asks};

use crate::lists::{is_list, ones_in, signeds_in, wholes_in};
use crate::names::{times, value};
use crate::types::{Kind, RunRequest};
use script_words::numbers::{is_signed, is_whole, number, signed, whole};

fn is_once(given: &[u8], name: &[u8]) -> bool
    ensures { result ≡ is_said name.now (words given.now) }
{
    times(given, name) == 1
}

// r, the old positions, the neighbours' counts and positions and the distances are said once;
#[tactic(auto, unfolding(crate::specs::Runs::has_parts))]
fn has_parts(given: &[u8]) -> bool
    ensures { result ≡ has_parts (words given.now) }
{
    is_once(given, b"r=")
        && is_once(given, b"old=")
        && is_once(given, b"counts=")
        && is_once(given, b"nbrs=")
        && is_once(given, b"dist=")
}

// the bounds, the ratings and the answer's length at most once, and nothing else.
#[tactic(auto, unfolding(crate::specs::Runs::has_options))]
fn has_options(given: &[u8]) -> bool
    ensures { result ≡ has_options (words given.now) }
{
    let left = times(given, b"left=");
    if left > 1 {
        return false;
    }
    let right = times(given, b"right=");
    if right > 1 {
        return false;
    }
    let ratings = times(given, b"ratings=");
    if ratings > 1 {
        return false;
    }
    let answer = times(given, b"answer=");
    answer <= 1 && times(given, b"") == 5 + left + right + ratings + answer
}

fn may_bound(given: &[u8], name: &[u8]) -> bool
    ensures { result ≡ may_bound name.now (words given.now) }
{
    !is_once(given, name) || is_signed(number(value(given, name)))
}

fn may_room(given: &[u8]) -> bool
    ensures { result ≡ may_room (words given.now) }
{
    !is_once(given, b"answer=") || is_whole(number(value(given, b"answer=")))
}

#[tactic(auto, unfolding(crate::specs::Runs::has_numbers))]
fn has_numbers(given: &[u8]) -> bool
    ensures { result ≡ has_numbers (words given.now) }
{
    is_whole(number(value(given, b"r=")))
        && may_bound(given, b"left=")
        && may_bound(given, b"right=")
        && may_room(given)
}

#[tactic(auto, unfolding(crate::specs::Runs::has_lists))]
fn has_lists(given: &[u8]) -> bool
    ensures { result ≡ has_lists (words given.now) }
{
    is_list(Kind::Signed, value(given, b"old="))
        && is_list(Kind::Unsigned, value(given, b"counts="))
        && is_list(Kind::Signed, value(given, b"nbrs="))
        && is_list(Kind::Any, value(given, b"dist="))
        && is_list(Kind::Any, value(given, b"ratings="))
}

// Whether the words are a request.
#[tactic(auto, unfolding(crate::specs::Runs::is_request))]
pub fn is_request(given: &[u8]) -> bool
    ensures { result ≡ is_request (words given.now) }
{
    has_parts(given) && has_options(given) && has_numbers(given) && has_lists(given)
}

fn bound_in(given: &[u8], name: &[u8]) -> Option<i64>
    ensures { result ≡ bound_in name.now (words given.now) }
{
    is_once(given, name).then(|| signed(number(value(given, name))))
}

fn boxes_in(given: &[u8]) -> u64
    ensures { result ≡ boxes_in (words given.now) }
{
    whole(number(value(given, b"r=")))
}

fn room_in(given: &[u8]) -> u64
    ensures { result ≡ room_in (words given.now) }
{
    if is_once(given, b"answer=") {
        return whole(number(value(given, b"answer=")));
    }
    boxes_in(given)
}

// The ratings that are said, or a 1 for each neighbour, at the front of a buffer, as many as it has room for: how many there are.
fn ratings_in(given: &[u8], out: &mut [u64]) -> usize
    ensures { Fills (ratings_in (words given.now)) (length out.old) result out.new }
{
    if is_once(given, b"ratings=") {
        return wholes_in(value(given, b"ratings="), out);
    }
    ones_in(value(given, b"nbrs="), out)
}

// The request that the words are, its lists in the lent buffers, as far as they have room.
pub fn request(
    given: &[u8],
    old: &mut [i64],
    distances: &mut [u64],
    counts: &mut [u64],
    neighbours: &mut [i64],
    ratings: &mut [u64],
) -> RunRequest
    ensures { Asks (request_in (words given.now)) (room_in (words given.now))
        (buffers old.old distances.old counts.old neighbours.old ratings.old) result
        (buffers old.new distances.new counts.new neighbours.new ratings.new) }
{
    let left = bound_in(given, b"left=");
    let right = bound_in(given, b"right=");
    RunRequest {
        boxes: boxes_in(given),
        left,
        right,
        old: signeds_in(value(given, b"old="), old),
        distances: wholes_in(value(given, b"dist="), distances),
        counts: wholes_in(value(given, b"counts="), counts),
        neighbours: signeds_in(value(given, b"nbrs="), neighbours),
        ratings: ratings_in(given, ratings),
        room: room_in(given),
    }
}

// Reads requests for place-run, a line each, and prints for each 0 or 8 and the answer buffer afterwards. A request is r, then flag
// and value of either bound, then old positions, distances, neighbour counts, neighbours, ratings and the answer buffer, each
// as its length and its numbers. One blank or line end stands after each number. A number that its type does not hold becomes the
// nearest one that it holds.
#![tactic(auto)]

ghost use Rattle.std.specs.Prelude.{◌≤◌};

use ints::refusal::Refusal;
use place_run::call::place_run;
use std::io;
use std::io::Write;
use streams::read_full;

// Where the number after the one at `from` starts.
fn next(text: &[u8], from: usize) -> usize {
    for at in from..text.len() {
        if text[at] <= 32 {
            return at + 1;
        }
    }
    from.max(text.len())
}

// Where the number stands that is n after the one at `from`.
fn after(text: &[u8], from: usize, n: usize) -> usize {
    let mut at = from;
    for _ in 0..n {
        at = next(text, at);
    }
    at
}

// v with the digit b after it.
fn with_digit(v: u64, b: u8) -> u64 {
    if !b.is_ascii_digit() {
        return v;
    }
    v.saturating_mul(10).saturating_add(u64::from(b - b'0'))
}

// The number at `from` with no regard to its sign.
fn size(text: &[u8], from: usize) -> u64 {
    let mut v = 0;
    for at in from..text.len() {
        if text[at] <= 32 {
            return v;
        }
        v = with_digit(v, text[at]);
    }
    v
}

fn is_negative(text: &[u8], from: usize) -> bool {
    text.get(from) == Some(&b'-')
}

fn position(text: &[u8], from: usize) -> i64 {
    let n = size(text, from);
    if is_negative(text, from) {
        0i64.saturating_sub_unsigned(n)
    } else {
        0i64.saturating_add_unsigned(n)
    }
}

// A bound's flag stands at `from`, its value after it.
fn bound(text: &[u8], from: usize) -> Option<i64> {
    let x = position(text, next(text, from));
    if size(text, from) == 0 { None } else { Some(x) }
}

// The length at `from`, or `most` if it is greater.
fn length_at(text: &[u8], from: usize, most: usize) -> usize
    ensures { result ≤ most }
{
    size(text, from).min(most as u64) as usize
}

// Fills out with the numbers from `from` on, and answers where the next one starts.
fn positions(text: &[u8], from: usize, out: &mut [i64]) -> usize {
    let mut at = from;
    for x in out.iter_mut() {
        *x = position(text, at);
        at = next(text, at);
    }
    at
}

fn sizes(text: &[u8], from: usize, out: &mut [u64]) -> usize {
    let mut at = from;
    for x in out.iter_mut() {
        *x = size(text, at);
        at = next(text, at);
    }
    at
}

fn print_outcome<W: Write>(
    output: &mut W,
    answer: Result<(), Refusal>,
    buffer: &[i64],
) -> io::Result<()> {
    match answer {
        Ok(()) => output.write_all(b"0")?,
        Err(r) => write!(output, "{}", r.number())?,
    }
    for x in buffer {
        write!(output, " {x}")?;
    }
    output.write_all(b"\n")
}

// Answers the request at `from` and answers where the next one starts. The slices are as long as the request's lists.
fn answered<W: Write>(
    output: &mut W,
    text: &[u8],
    from: usize,
    old: &mut [i64],
    distances: &mut [u64],
    counts: &mut [u64],
    neighbours: &mut [i64],
    ratings: &mut [u64],
    answer: &mut [i64],
) -> io::Result<usize> {
    let r = size(text, from);
    let left = bound(text, after(text, from, 1));
    let right = bound(text, after(text, from, 3));
    let at_distances = positions(text, after(text, from, 6), old);
    let at_counts = sizes(text, next(text, at_distances), distances);
    let at_neighbours = sizes(text, next(text, at_counts), counts);
    let at_ratings = positions(text, next(text, at_neighbours), neighbours);
    let at_answer = sizes(text, next(text, at_ratings), ratings);
    let end = positions(text, next(text, at_answer), answer);
    let outcome = place_run(
        r, left, right, old, distances, counts, neighbours, ratings, answer,
    );
    print_outcome(output, outcome, answer)?;
    Ok(end)
}

// The same on slices that are long enough.
fn cut_and_answered<W: Write>(
    output: &mut W,
    text: &[u8],
    from: usize,
    old: &mut [i64],
    distances: &mut [u64],
    counts: &mut [u64],
    neighbours: &mut [i64],
    ratings: &mut [u64],
    answer: &mut [i64],
) -> io::Result<usize> {
    let at_old = after(text, from, 5);
    let o = length_at(text, at_old, old.len());
    let at_distances = after(text, next(text, at_old), o);
    let d = length_at(text, at_distances, distances.len());
    let at_counts = after(text, next(text, at_distances), d);
    let c = length_at(text, at_counts, counts.len());
    let at_neighbours = after(text, next(text, at_counts), c);
    let n = length_at(text, at_neighbours, neighbours.len());
    let at_ratings = after(text, next(text, at_neighbours), n);
    let w = length_at(text, at_ratings, ratings.len());
    let at_answer = after(text, next(text, at_ratings), w);
    let a = length_at(text, at_answer, answer.len());
    answered(
        output,
        text,
        from,
        &mut old[..o],
        &mut distances[..d],
        &mut counts[..c],
        &mut neighbours[..n],
        &mut ratings[..w],
        &mut answer[..a],
    )
}

fn request<W: Write>(output: &mut W, text: &[u8], from: usize) -> io::Result<usize> {
    let mut old = [0i64; 128];
    let mut distances = [0u64; 128];
    let mut counts = [0u64; 128];
    let mut neighbours = [0i64; 4096];
    let mut ratings = [0u64; 4096];
    let mut answer = [0i64; 128];
    cut_and_answered(
        output,
        text,
        from,
        &mut old,
        &mut distances,
        &mut counts,
        &mut neighbours,
        &mut ratings,
        &mut answer,
    )
}

fn main(rt: HostRuntime) -> io::Result<()> {
    let mut space = [0u8; 131072];
    let n = read_full(&mut rt.stdin(), &mut space)?;
    requests(&mut rt.stdout(), &space[..n])
}

fn requests<W: Write>(output: &mut W, text: &[u8]) -> io::Result<()> {
    let mut at: usize = 0;
    while at < text.len() {
        let end = request(output, text, at)?;
        if end <= at {
            return Ok(());
        }
        at = end;
    }
    Ok(())
}

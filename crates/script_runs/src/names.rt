// Words that give a name a value.
ghost use Rattle.std.specs.Prelude.{◌≡◌};
ghost use Rattle.script_words.specs.Parts.{words};
ghost use Rattle.script_runs.specs.Names.{times_of, value_of};

use script_words::parts::end_of;
use text_scan::scanners::word_at;

// How many words begin with the name.
pub fn times(given: &[u8], name: &[u8]) -> usize
    ensures { result ≡ times_of name.now (words given.now) }
{
    let mut from = 0;
    let mut n = 0;
    loop {
        let to = end_of(given, b' ', from);
        if word_at(&given[from..to], 0, name) {
            n += 1;
        }
        if to >= given.len() {
            return n;
        }
        from = to + 1;
    }
}

// What follows the name in the first word that begins with it; nothing if there is none.
pub fn value<'a, 'b>(given: &'a [u8], name: &'b [u8]) -> &'a [u8]
    ensures { result.now ≡ value_of name.now (words given.now) }
{
    let mut from = 0;
    loop {
        let to = end_of(given, b' ', from);
        if word_at(&given[from..to], 0, name) {
            return &given[from + name.len()..to];
        }
        if to >= given.len() {
            return &given[to..];
        }
        from = to + 1;
    }
}

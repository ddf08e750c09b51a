// Which form a line has, and the numbers in it.
ghost use Rattle.std.specs.Prelude.{◌≡◌};
ghost use Rattle.script_words.specs.Parts.{parts};
ghost use Rattle.script_forms.specs.Forms.{stands_for, has_form, whole_at, signed_at};
ghost use Rattle.script_forms.specs.inner.First.{first_form};

use script_words::numbers::{is_signed, is_whole, number, signed, whole};
use script_words::parts::{end_of, same, word};

// Whether a word may stand where a form has `form`.
#[tactic(auto, unfolding(crate::specs::Forms::stands_for))]
pub fn stands_for(form: &[u8], word: &[u8]) -> bool
    ensures { result ≡ stands_for form.now word.now }
{
    if same(form, b"N") {
        return is_whole(number(word));
    }
    if same(form, b"Z") {
        return is_signed(number(word));
    }
    same(form, word)
}

pub fn has_form(form: &[u8], line: &[u8]) -> bool
    ensures { result ≡ has_form form.now line.now }
{
    let mut from: usize = 0;
    let mut at: usize = 0;
    loop {
        let end = end_of(form, b' ', from);
        let to = end_of(line, b' ', at);
        if !stands_for(&form[from..end], &line[at..to]) {
            return false;
        }
        if end >= form.len() {
            return to >= line.len();
        }
        if to >= line.len() {
            return false;
        }
        from = end + 1;
        at = to + 1;
    }
}

// The first of the forms, one a line, that a line has, counted from 0; how many there are, if it has none.
pub fn first_form(forms: &[u8], line: &[u8]) -> usize
    ensures { result ≡ first_form (parts 10 forms.now) line.now }
{
    let mut from: usize = 0;
    let mut k: usize = 0;
    // No `for`: where the next form begins is known only once this one's end is found.
    loop {
        let end = end_of(forms, b'\n', from);
        if has_form(&forms[from..end], line) {
            return k;
        }
        if end >= forms.len() {
            return k + 1;
        }
        from = end + 1;
        k += 1;
    }
}

// The number in word k.
pub fn whole_at(line: &[u8], k: usize) -> usize
    ensures { result ≡ whole_at line.now k }
{
    whole(number(word(line, k))) as usize
}

// The number in word k, with or without a sign.
pub fn signed_at(line: &[u8], k: usize) -> i64
    ensures { result ≡ signed_at line.now k }
{
    signed(number(word(line, k)))
}

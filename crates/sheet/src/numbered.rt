// Refusals that have a number.
ghost use Rattle.std.specs.Prelude.{◌≡◌, ℕ};
ghost use Rattle.ints.specs.Refusals as refusals;

use ints::refusal::Refusal;

// What a request is refused by, where it is told by its number.
pub trait Numbered: Copy {
    ghost number_of: { Self → ℕ };

    fn number(self) -> u32
        ensures { result ≡ number_of self };
}

impl Numbered for Refusal {
    ghost number_of = { refusals.number_of };

    fn number(self) -> u32 {
        Refusal::number(self)
    }
}

// A number tells itself.
impl Numbered for u32 {
    ghost number_of = { λ n. n };

    fn number(self) -> u32 {
        self
    }
}

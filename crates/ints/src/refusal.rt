// Why a request is refused.
ghost use Rattle.std.specs.Prelude.{◌≡◌};
ghost use Rattle.ints.specs.Refusals.{number_of};

// What is so, by the number that it is refused with.
#[derive(Clone, Copy, Debug, PartialEq, Eq)]
pub enum Refusal {
    // 1: a text is not in its form.
    Form,
    // 2: a number is outside its limit.
    Limit,
    // 3: a segment does not go from a vertex to one on the next level.
    Ends,
    // 4: segments do not rise.
    Order,
    // 5: a via has not one segment up and one down.
    Via,
    // 6: two inner segments cross.
    Crossing,
    // 7: there is no such line, mark or level.
    Missing,
    // 8: a run is none that is placed.
    Run,
    // 11: the sheet is empty.
    Empty,
    // 12: the sheet is not drawn.
    Undrawn,
    // 13: the sheet holds no text's plan, or no drawing of it.
    Unsound,
    // 14: the buffer is too short.
    Room,
    // 15: the sheet was not loaded as one that may be tangled.
    Untangled,
}

impl Refusal {
    pub fn number(self) -> u32
        ensures { result ≡ number_of self }
    {
        match self {
            Refusal::Form => 1,
            Refusal::Limit => 2,
            Refusal::Ends => 3,
            Refusal::Order => 4,
            Refusal::Via => 5,
            Refusal::Crossing => 6,
            Refusal::Missing => 7,
            Refusal::Run => 8,
            Refusal::Empty => 11,
            Refusal::Undrawn => 12,
            Refusal::Unsound => 13,
            Refusal::Room => 14,
            Refusal::Untangled => 15,
        }
    }
}

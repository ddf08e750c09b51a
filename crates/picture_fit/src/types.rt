// Why no picture is drawn.
ghost use Rattle.std.specs.Prelude.{◌≡◌};
ghost use Rattle.picture_fit.specs.declared.types.PictureError.TheVariants as error;

use ints::refusal::Refusal;
use picture_names::types::BadLine;

#[derive(Clone, Copy, Debug, PartialEq, Eq)]
pub enum PictureError<R> {
    // 1 to 6 of the plan's text, or 14, the buffer too short.
    Refused(R),
    Names(BadLine),
}

impl From<Refusal> for PictureError<Refusal> {
    ghost from_gives = { λ r e. e ≡ error.Refused r };

    fn from(r: Refusal) -> PictureError<Refusal> {
        PictureError::Refused(r)
    }
}

impl<R> From<BadLine> for PictureError<R> {
    ghost from_gives = { λ line e. e ≡ error.Names line };

    fn from(line: BadLine) -> PictureError<R> {
        PictureError::Names(line)
    }
}

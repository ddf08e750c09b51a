// Answers and bounds as the numbers that calls for C give and take.
#![tactic(auto)]

ghost use Rattle.std.specs.Prelude.{◌≡◌};
ghost use Rattle.ints.specs.Refusals.{refused_by};
ghost use Rattle.picture_fit.specs.Fitted.{drawn_by};
ghost use Rattle.c_codes.specs.Code.{code_of, verdict_by};
ghost use Rattle.c_codes.specs.Picture as picture;
ghost use Rattle.c_codes.specs.Run.{bound_of};
ghost use Rattle.c_codes.specs.inner.Few.{Few, FewDrawn};

use ints::refusal::Refusal;
use picture_fit::types::PictureError;
use sheet::numbered::Numbered;

// What a call answers.
pub fn code<R: Numbered>(answer: Result<usize, R>) -> i64
    requires { Few answer }
    ensures { result ≡ code_of (verdict_by R.number_of answer) }
{
    match answer {
        Ok(n) => n as i64,
        Err(refusal) => -i64::from(refusal.number()),
    }
}

// What is answered when a picture is asked for.
pub fn picture_code<R: Numbered>(answer: Result<usize, PictureError<R>>) -> i64
    requires { FewDrawn answer }
    ensures { result ≡ picture.code_of (drawn_by R.number_of answer) }
{
    match answer {
        Ok(length) => length as i64,
        Err(PictureError::Refused(refusal)) => -i64::from(refusal.number()),
        Err(PictureError::Names(line)) => -(100 + i64::from(line.0)),
    }
}

// What place-run answers.
pub fn run_code(answer: Result<(), Refusal>) -> u32
    ensures { result ≡ refused_by answer }
{
    match answer {
        Ok(()) => 0,
        Err(refusal) => refusal.number(),
    }
}

// A flag and a value as a bound.
pub fn bound(flag: u32, value: i64) -> Option<i64>
    ensures { result ≡ bound_of flag value }
{
    if flag == 0 { None } else { Some(value) }
}

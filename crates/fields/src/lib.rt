// The five integers of 000, 2.2.2, as fields of a format.
#![tactic(auto)]

ghost use Rattle.std.specs.Prelude.{◌≡◌};
ghost use Rattle.formats.specs.Answer.{read_of, tail_end, end_of};
ghost use Rattle.integers.specs.Integer.{reading_by};
ghost use Rattle.fields.specs.Integers.{integer};

use integers::Integer;
use paper::Refusal;

// The integer at the front, in its only form or in any, and what is behind it: the tail that the next field is read from.
pub fn read<T: Integer>(rest: &[u8], strictly: bool) -> Result<(T, &[u8]), Refusal>
    ensures value { read_of result ≡ (integer T.shape (reading_by strictly) T.COUNT_BITS T.SIGN_BITS).read rest.now }
    ensures tail { tail_end rest.entry result ≡ end_of rest.entry }
{
    let got = integers::read::<T>(rest, strictly);
    let Ok((value, n)) = got else {
        return Err(got.unwrap_err());
    };
    Ok((value, &rest[n..]))
}

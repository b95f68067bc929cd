// Numbers of two and four bytes, little-endian, at the front of what is lent.
ghost use Rattle.std.specs.Prelude.{◌≡◌, ◌+◌, ◌*◌, ◌<◌, ◌≤◌, length, get_or};
ghost use Rattle.formats.specs.Format.{little};
ghost use Rattle.formats.specs.Answer.{read_of};

use paper::Refusal;

// The number of the first two bytes.
pub(crate) fn two(rest: &[u8]) -> u16
    requires { 2 ≤ length rest.now }
    ensures { result ≡ get_or rest.now 1 0 * 256 + get_or rest.now 0 0 }
{
    u16::from_le_bytes([rest[0], rest[1]])
}

// The number of the first four bytes.
pub(crate) fn four(rest: &[u8]) -> u32
    requires { 4 ≤ length rest.now }
    ensures { result ≡ ((get_or rest.now 3 0 * 256 + get_or rest.now 2 0) * 256 + get_or rest.now 1 0) * 256 + get_or rest.now 0 0 }
{
    u32::from_le_bytes([rest[0], rest[1], rest[2], rest[3]])
}

// A field of two bytes; 5 where the message ends inside it.
#[tactic(auto, using(crate::proofs::Front::little_short))]
pub(crate) fn read_two(rest: &[u8]) -> Result<(u16, &[u8]), Refusal>
    ensures { read_of result ≡ (little 2).read rest.now }
{
    if rest.len() < 2 {
        return Err(Refusal::Truncated);
    }
    Ok((two(rest), &rest[2..]))
}

// A field of four bytes; 5 where the message ends inside it.
#[tactic(auto, using(crate::proofs::Front::little_short))]
pub(crate) fn read_four(rest: &[u8]) -> Result<(u32, &[u8]), Refusal>
    ensures { read_of result ≡ (little 4).read rest.now }
{
    if rest.len() < 4 {
        return Err(Refusal::Truncated);
    }
    Ok((four(rest), &rest[4..]))
}

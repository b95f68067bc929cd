// The header, checks 1 to 4.
ghost use Rattle.std.specs.Prelude.{◌≡◌, [], ◌∷◌};
ghost use Rattle.formats.specs.Answer.{read_of, tail_end, end_of};
ghost use Rattle.messages.specs.Header.{one_of, headed};

use crate::little::{four, two};
use paper::Refusal;

#[tactic(auto, unfolding(crate::specs::Header::one_of))]
fn is_either(event: u16, first: u16, second: u16) -> bool
    ensures { result ≡ one_of (first ∷ second ∷ []) event }
{
    if event == first {
        return true;
    }
    event == second
}

// The event of a message and its body, for a caller that takes two events, or one named twice.
#[tactic(auto, unfolding(crate::specs::Header::headed))]
pub fn read_header(message: &[u8], first: u16, second: u16) -> Result<(u16, &[u8]), Refusal>
    ensures value { read_of result ≡ headed (first ∷ second ∷ []) message.now }
    ensures tail { tail_end message.entry result ≡ end_of message.entry }
{
    if message.len() < crate::HEADER_BYTES {
        return Err(Refusal::Short);
    }
    if crate::MESSAGE_MOST < message.len() {
        return Err(Refusal::TooLong);
    }
    let event = two(message);
    if !is_either(event, first, second) {
        return Err(Refusal::Unexpected);
    }
    let total = four(&message[2..]);
    if total as usize != message.len() {
        return Err(Refusal::BadLength);
    }
    Ok((event, &message[crate::HEADER_BYTES..]))
}

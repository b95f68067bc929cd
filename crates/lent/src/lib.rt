// The step by value, through the call that updates a receiver where it stands.
#![tactic(auto)]

ghost use Rattle.receiver.specs.Receive.{Receives};

use receiver::{Received, Receiver};

// Lends a receiver of its own to the call, so that callers of this function need no reference to a struct.
pub fn receive_lent(receiver: Receiver, message: &[u8], output: &mut [u8]) -> Received
    ensures { Receives receiver message.now output.old result.receiver result.answer output.new }
{
    let mut kept = receiver;
    let answer = kangirlo::kangirlo_receive(&mut kept, message, output);
    Received {
        receiver: kept,
        answer,
    }
}

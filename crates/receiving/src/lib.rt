// The calls that take a message to a receiver: by value, and lent in parts.
#![tactic(auto)]

mod events;

ghost use Rattle.contacts.specs.Ruling.{arrays_from};
ghost use Rattle.receiver.specs.Receive as spec;
ghost use Rattle.receiver.specs.Receive.{of_parts};

use receiver::{Marks, Received, Receiver, Turn};

// A message to a receiver that is lent in parts, judged and carried out, or refused with nothing changed: the marks after it, and the
// answer; the contacts and the set are changed where they stand.
pub fn receive_parts(
    marks: Marks,
    message: &[u8],
    output: &mut [u8],
    states: &mut [u8; 256],
    xs: &mut [i32; 256],
    ys: &mut [i32; 256],
    held: &mut [u8; 256],
) -> Turn
    ensures { spec.Receives (of_parts marks (arrays_from states.old xs.old ys.old held.old)) message.now output.old (of_parts result.marks (arrays_from states.new xs.new ys.new held.new)) result.answer output.new }
{
    if marks.ready == 0 {
        return events::receive_ready(marks, message);
    }
    match messages::read_header(message, messages::TOUCH, messages::DISMISS) {
        Err(e) => receiver::refuse(marks, e.number()),
        Ok((messages::TOUCH, body)) => {
            touch_events::receive_touch(marks, body, output, states, xs, ys, held)
        }
        Ok((_, body)) => events::receive_dismiss(marks, body, output, states, xs, ys, held),
    }
}

// A message, judged and carried out, or refused with nothing changed. The contacts and the set are copied once, and lent to all that follows.
pub fn receive(receiver: Receiver, message: &[u8], output: &mut [u8]) -> Received
    ensures { spec.Receives receiver message.now output.old result.receiver result.answer output.new }
{
    let mut states = receiver.states;
    let mut xs = receiver.xs;
    let mut ys = receiver.ys;
    let mut held = receiver.held;
    let marks = receiver::marks_of(receiver);
    let turn = receive_parts(
        marks,
        message,
        output,
        &mut states,
        &mut xs,
        &mut ys,
        &mut held,
    );
    Received {
        receiver: receiver::of_parts(turn.marks, states, xs, ys, held),
        answer: turn.answer,
    }
}

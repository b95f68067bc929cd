// Behind the C face, the crate kangirlo_c: each call of include/kangirlo.h, a thin function over the call that does the work, with that call's contract.
#![tactic(auto)]

ghost use Rattle.std.specs.Prelude.{◌≡◌};
ghost use Rattle.slices.specs.Writing.{Writes};
ghost use Rattle.messages.specs.Bodies.{server_ready_draft, client_ready_draft, suspend_draft, resume_draft, dismiss_draft};
ghost use Rattle.reading.specs.Plain.{ReadsPlainly, ReadsStrictly};
ghost use Rattle.writing.specs.TouchDraft.{touch_draft};
ghost use Rattle.contacts.specs.Ruling.{arrays_from};
ghost use Rattle.receiver.specs.Receive.{of_parts, fresh, Receives};
ghost use Rattle.bursts.specs.Batch.{ReceivesAll};
ghost use Rattle.flat_records.specs.Flat.{flat};

use bursts::{Batch, BatchTurn};
use flat_records::FlatRecord;
use messages::Ready;
use paper::Milliseconds;
use reading::PlainAnswer;
use receiver::{Answer, Marks, Receiver, Turn};
use slices::Written;

// A receiver that has accepted nothing.
pub fn kangirlo_fresh() -> Receiver
    ensures { result ≡ fresh }
{
    receiver::fresh()
}

// A message, judged and carried out on a receiver where it stands, or refused with nothing changed.
pub fn kangirlo_receive(receiver: &mut Receiver, message: &[u8], output: &mut [u8]) -> Answer
    ensures { Receives receiver.old message.now output.old receiver.new result output.new }
{
    let received = receiving::receive(*receiver, message, output);
    *receiver = received.receiver;
    received.answer
}

// All entries of a buffer, fed to a receiver where it stands, each with the output that is left; or all refused with nothing changed.
pub fn kangirlo_receive_all(
    receiver: &mut Receiver,
    buffer: &[u8],
    answers: &mut [u32],
    output: &mut [u8],
) -> Batch
    ensures { ReceivesAll receiver.old buffer.now receiver.new result answers.old answers.new output.old output.new }
{
    let received = bursts::receive_all(*receiver, buffer, answers, output);
    *receiver = received.receiver;
    received.batch
}

// A message to a receiver that is lent in parts, its marks by value: none of its contacts is copied. Answers the marks after it, too.
pub fn kangirlo_receive_parts(
    marks: Marks,
    message: &[u8],
    output: &mut [u8],
    states: &mut [u8; 256],
    xs: &mut [i32; 256],
    ys: &mut [i32; 256],
    held: &mut [u8; 256],
) -> Turn
    ensures { Receives (of_parts marks (arrays_from states.old xs.old ys.old held.old)) message.now output.old (of_parts result.marks (arrays_from states.new xs.new ys.new held.new)) result.answer output.new }
{
    receiving::receive_parts(marks, message, output, states, xs, ys, held)
}

// All entries of a buffer to a receiver that is lent in parts.
pub fn kangirlo_receive_all_parts(
    marks: Marks,
    buffer: &[u8],
    answers: &mut [u32],
    output: &mut [u8],
    states: &mut [u8; 256],
    xs: &mut [i32; 256],
    ys: &mut [i32; 256],
    held: &mut [u8; 256],
) -> BatchTurn
    ensures { ReceivesAll (of_parts marks (arrays_from states.old xs.old ys.old held.old)) buffer.now (of_parts result.marks (arrays_from states.new xs.new ys.new held.new)) result.batch answers.old answers.new output.old output.new }
{
    bursts::receive_all_parts(marks, buffer, answers, output, states, xs, ys, held)
}

// A touch message read by itself.
pub fn kangirlo_plain(message: &[u8], output: &mut [u8]) -> PlainAnswer
    ensures { ReadsPlainly message.now result output.old output.new }
{
    reading::plain(message, output)
}

// The same with 6 for an integer that is not in its only form.
pub fn kangirlo_plain_strictly(message: &[u8], output: &mut [u8]) -> PlainAnswer
    ensures { ReadsStrictly message.now result output.old output.new }
{
    reading::plain_strictly(message, output)
}

pub fn kangirlo_write_server_ready(output: &mut [u8], version: u32) -> Written
    ensures { Writes (server_ready_draft version) result output.old output.new }
{
    message_writers::write_server_ready(output, version)
}

pub fn kangirlo_write_client_ready(
    output: &mut [u8],
    flags: u32,
    version: u32,
    most: u16,
) -> Written
    ensures { Writes (client_ready_draft (record { flags = flags; version = version; most = most })) result output.old output.new }
{
    let ready = Ready {
        flags,
        version,
        most,
    };
    message_writers::write_client_ready(output, ready)
}

pub fn kangirlo_write_touch(output: &mut [u8], time: Milliseconds, records: &[u8]) -> Written
    ensures { Writes (touch_draft time records.now) result output.old output.new }
{
    writing::write_touch(output, time, records)
}

pub fn kangirlo_write_suspend(output: &mut [u8]) -> Written
    ensures { Writes suspend_draft result output.old output.new }
{
    message_writers::write_suspend(output)
}

pub fn kangirlo_write_resume(output: &mut [u8]) -> Written
    ensures { Writes resume_draft result output.old output.new }
{
    message_writers::write_resume(output)
}

pub fn kangirlo_write_dismiss(output: &mut [u8], id: u8) -> Written
    ensures { Writes (dismiss_draft id) result output.old output.new }
{
    message_writers::write_dismiss(output, id)
}

// The record at the front of a slice of records, where it is whole and well formed.
pub fn kangirlo_read_record(records: &[u8]) -> FlatRecord
    ensures { result ≡ flat records.now }
{
    flat_records::read_flat(records)
}

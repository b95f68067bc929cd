// The session host's receiver: the ready settings, 256 contacts, a mode, and the set of ids that is kept while ignoring. What it is and what it
// answers; the calls that take messages stand in `receiving`.
#![tactic(auto)]

ghost use Rattle.std.specs.Prelude.{◌≡◌};
ghost use Rattle.contacts.specs.Ruling.{arrays_from};
ghost use Rattle.receiver.specs.Receive as spec;
ghost use Rattle.receiver.specs.Receive.{marks_of, of_parts, refusal};

use messages::Ready;
use paper::Milliseconds;

// One connection's receiver. Each mark is off where it is 0; a fresh receiver is all zeros.
#[repr(C)]
#[derive(Clone, Copy)]
pub struct Receiver {
    // Has accepted a client ready.
    pub ready: u8,
    // Has accepted a touch message with a frame since.
    pub begun: u8,
    // Ignores frames until one opens.
    pub ignoring: u8,
    pub settings: Ready,
    pub states: [u8; 256],
    pub xs: [i32; 256],
    pub ys: [i32; 256],
    // While ignoring: whose id is kept from opening by hovering. All 0 while running.
    pub held: [u8; 256],
}

// The most that a message writes: 48 KiB.
pub const OUTPUT_MOST: usize = 49152;

// What becomes of a message: a refusal's number, 0 for none; how many frames were injected, ignored and cancelled; encodeTime;
// and how many records were written.
#[repr(C)]
#[derive(Clone, Copy)]
pub struct Answer {
    pub refusal: u8,
    pub injected: u8,
    pub ignored: u8,
    pub cancelled: u8,
    pub time: Milliseconds,
    pub records: usize,
}

// The receiver after a message, and the answer.
#[derive(Clone, Copy)]
pub struct Received {
    pub receiver: Receiver,
    pub answer: Answer,
}

// A receiver beside its contacts and its set.
#[repr(C)]
#[derive(Clone, Copy)]
pub struct Marks {
    pub ready: u8,
    pub begun: u8,
    pub ignoring: u8,
    pub settings: Ready,
}

// The marks after a message, and the answer.
#[repr(C)]
#[derive(Clone, Copy)]
pub struct Turn {
    pub marks: Marks,
    pub answer: Answer,
}

// A receiver that has accepted nothing.
pub fn fresh() -> Receiver
    ensures { result ≡ spec.fresh }
{
    Receiver {
        ready: 0,
        begun: 0,
        ignoring: 0,
        settings: Ready {
            flags: 0,
            version: 0,
            most: 0,
        },
        states: [0; 256],
        xs: [0; 256],
        ys: [0; 256],
        held: [0; 256],
    }
}

// What a receiver has beside its contacts and its set.
pub fn marks_of(receiver: Receiver) -> Marks
    ensures { result ≡ marks_of receiver }
{
    Marks {
        ready: receiver.ready,
        begun: receiver.begun,
        ignoring: receiver.ignoring,
        settings: receiver.settings,
    }
}

// The receiver that has these marks, contacts and set.
pub fn of_parts(
    marks: Marks,
    states: [u8; 256],
    xs: [i32; 256],
    ys: [i32; 256],
    held: [u8; 256],
) -> Receiver
    ensures { result ≡ of_parts marks (arrays_from states xs ys held) }
{
    Receiver {
        ready: marks.ready,
        begun: marks.begun,
        ignoring: marks.ignoring,
        settings: marks.settings,
        states,
        xs,
        ys,
        held,
    }
}

// The answer where no frame was run.
pub fn quiet(marks: Marks, refusal: u8, records: usize) -> Turn
    ensures { result ≡ record { marks = marks; answer = record { refusal = refusal; injected = 0; ignored = 0; cancelled = 0; time = record { 0 = 0 }; records = records } } }
{
    let answer = Answer {
        refusal,
        injected: 0,
        ignored: 0,
        cancelled: 0,
        time: Milliseconds(0),
        records,
    };
    Turn { marks, answer }
}

// A refusal answers its number with all other fields 0, and the receiver stays as it was.
pub fn refuse(marks: Marks, e: u8) -> Turn
    ensures { result ≡ record { marks = marks; answer = refusal e } }
{
    quiet(marks, e, 0)
}

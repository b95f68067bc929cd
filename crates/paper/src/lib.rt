// The names of documents 01 and 02: their refusals by number, and the two units of time.
#![tactic(auto)]

ghost use Rattle.std.specs.Prelude.{◌≡◌};
ghost use Rattle.paper.specs.Refusals.{number};

// A refusal.
#[derive(Clone, Copy, PartialEq, Eq)]
pub enum Refusal {
    // Under 6 bytes.
    Short = 1,
    // Over 4,096 bytes, read or to be written.
    TooLong = 2,
    // An event that is not taken now.
    Unexpected = 3,
    // pduLength differs from the slice's length.
    BadLength = 4,
    // The body ends inside a field, or before one that is due.
    Truncated = 5,
    // An integer not in its only form.
    NotShortest = 6,
    // Frames over 64, contacts over 256.
    BadCount = 7,
    // Version, ready flags or fieldsPresent not listed.
    BadField = 8,
    // contactFlags not in the state table.
    BadFlags = 9,
    // Orientation, pressure; a value given to a writer.
    BadRange = 10,
    // The first frame's offset is not 0.
    BadOffset = 11,
    // Bytes after the last field.
    Trailing = 12,
    // The output is shorter than what this call writes.
    NoRoom = 13,
    // A writer's record is not well formed.
    BadRecord = 14,
    // Document 02, #101. Client ready before server ready was taken or a second time; touch or dismiss before client ready.
    NotReady = 15,
    // Touch while suspended.
    Suspended = 16,
    // A frame that would not conform, or a dismissal of a contact not hovering.
    Illegal = 17,
    // Document 02, #102. A batch whose last entry is incomplete, or with fewer places for answers than entries.
    BadBatch = 18,
}

impl Refusal {
    // The number by which the documents and C know it.
    pub fn number(self) -> u8
        ensures { result ≡ number self }
    {
        self as u8
    }
}

// encodeTime (000, 2.2.3.3): milliseconds.
#[repr(C)]
#[derive(Clone, Copy)]
pub struct Milliseconds(pub u32);

// frameOffset (000, 2.2.3.3.1): microseconds.
#[repr(C)]
#[derive(Clone, Copy)]
pub struct Microseconds(pub u64);

// A panel, whole and in parts: what arrives is taken, and client ready and dismiss are written, each so that the session host takes it.
#![tactic(auto)]

mod arriving;
mod writers;

ghost use Rattle.std.specs.Prelude.{◌≡◌};
ghost use Rattle.panels.specs.Panel.{fresh_panel};

pub use arriving::take_parts;
use messages::Ready;
use slices::Written;
pub use writers::{refuse, write_dismiss_parts, write_ready_parts};

// One panel. Each mark is off where it is 0; a fresh panel is all zeros.
#[repr(C)]
#[derive(Clone, Copy)]
pub struct Panel {
    // Has taken a server ready.
    pub greeted: u8,
    // Has written a client ready.
    pub ready: u8,
    // Writes no touch until a resume.
    pub suspended: u8,
    // Has written a touch message with a frame.
    pub begun: u8,
    // What its client ready declared.
    pub settings: Ready,
    pub states: [u8; 256],
    pub xs: [i32; 256],
    pub ys: [i32; 256],
}

// A panel beside its contacts.
#[repr(C)]
#[derive(Clone, Copy)]
pub struct PanelMarks {
    pub greeted: u8,
    pub ready: u8,
    pub suspended: u8,
    pub begun: u8,
    pub settings: Ready,
}

// The marks after a message that arrived, and the refusal, 0 for none.
#[repr(C)]
#[derive(Clone, Copy)]
pub struct Heard {
    pub marks: PanelMarks,
    pub refusal: u8,
}

// The marks after a call that writes, and what it wrote.
#[repr(C)]
#[derive(Clone, Copy)]
pub struct Said {
    pub marks: PanelMarks,
    pub written: Written,
}

// A panel that has taken and written nothing.
#[tactic(auto, unfolding(crate::specs::Panel::fresh_panel, machine::specs::Table::resting))]
pub fn fresh() -> Panel
    ensures { result ≡ fresh_panel }
{
    Panel {
        greeted: 0,
        ready: 0,
        suspended: 0,
        begun: 0,
        settings: Ready {
            flags: 0,
            version: 0,
            most: 0,
        },
        states: [0; 256],
        xs: [0; 256],
        ys: [0; 256],
    }
}

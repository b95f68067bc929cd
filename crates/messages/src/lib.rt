// The messages of [MS-RDPEI] read: the header of all, and the bodies of all but touch; with the numbers that their writers need too.
#![tactic(auto)]

mod body;
mod head;
mod little;
mod whole;

pub use body::{
    is_version, read_dismiss_body, read_empty_body, read_ready_body, read_server_ready_body,
};
pub use head::read_header;
pub use whole::{read_client_ready, read_dismiss, read_resume, read_server_ready, read_suspend};

// The events (000, 2.2.2.6).
pub const SERVER_READY: u16 = 1;

pub const CLIENT_READY: u16 = 2;

pub const TOUCH: u16 = 3;

pub const SUSPEND: u16 = 4;

pub const RESUME: u16 = 5;

pub const DISMISS: u16 = 6;

// eventId and pduLength.
pub const HEADER_BYTES: usize = 6;
// Whole messages, header and body.
pub const SERVER_READY_BYTES: usize = 10;

pub const CLIENT_READY_BYTES: usize = 16;

pub const DISMISS_BYTES: usize = 7;
// The longest message that is read or written.
pub const MESSAGE_MOST: usize = 4096;

// The versions that are listed.
pub const VERSION_100: u32 = 0x00010000;

pub const VERSION_101: u32 = 0x00010001;
// Flags from here on have a bit beside 1 and 2.
pub const FLAGS_END: u32 = 4;

// The settings that a client ready message declares.
#[repr(C)]
#[derive(Clone, Copy)]
pub struct Ready {
    pub flags: u32,
    pub version: u32,
    pub most: u16,
}

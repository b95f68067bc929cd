// The messages of [MS-RDPEI] written: the header of any, and all but touch.
#![tactic(auto)]

mod little;
mod write;

pub use write::{
    write_client_ready, write_dismiss, write_header, write_resume, write_server_ready,
    write_suspend,
};

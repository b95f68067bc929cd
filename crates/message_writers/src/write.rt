// The writers: the meaning, then room for the whole, and only then the bytes, each field from where the last one ended.
ghost use Rattle.std.specs.Prelude.{◌≤◌, length};
ghost use Rattle.slices.specs.Writing.{bytes, Writes};
ghost use Rattle.messages.specs.Header.{header, header_bytes};
ghost use Rattle.messages.specs.Bodies.{ready, server_ready_draft, client_ready_draft, suspend_draft, resume_draft, dismiss_draft};
ghost use Rattle.message_writers.specs.Put.{Put};

use crate::little::{put_four, put_one, put_two};
use messages::Ready;
use paper::Refusal;
use slices::Written;

// The header's six bytes; total counts them too.
fn put_header(out: &mut [u8], event: u16, total: u32) -> usize
    requires { header_bytes ≤ length out.old }
    ensures { Put (header event total) result out.old out.new }
{
    let at = put_two(out, event);
    at + put_four(&mut out[at..], total)
}

fn put_ready(out: &mut [u8], settings: Ready) -> usize
    requires { 10 ≤ length out.old }
    ensures { Put (ready.write settings) result out.old out.new }
{
    let at = put_four(out, settings.flags);
    let end = at + put_four(&mut out[at..], settings.version);
    end + put_two(&mut out[end..], settings.most)
}

// A header by itself, for an event and a total that counts the header.
pub fn write_header(out: &mut [u8], event: u16, total: u32) -> Written
    ensures { Writes (bytes (header event total)) result out.old out.new }
{
    if out.len() < messages::HEADER_BYTES {
        return Written::refused(Refusal::NoRoom);
    }
    Written::done(put_header(out, event, total))
}

pub fn write_server_ready(out: &mut [u8], version: u32) -> Written
    ensures { Writes (server_ready_draft version) result out.old out.new }
{
    if !messages::is_version(version) {
        return Written::refused(Refusal::BadField);
    }
    if out.len() < messages::SERVER_READY_BYTES {
        return Written::refused(Refusal::NoRoom);
    }
    let at = put_header(
        out,
        messages::SERVER_READY,
        messages::SERVER_READY_BYTES as u32,
    );
    Written::done(at + put_four(&mut out[at..], version))
}

pub fn write_client_ready(out: &mut [u8], settings: Ready) -> Written
    ensures { Writes (client_ready_draft settings) result out.old out.new }
{
    if messages::FLAGS_END <= settings.flags {
        return Written::refused(Refusal::BadField);
    }
    if !messages::is_version(settings.version) {
        return Written::refused(Refusal::BadField);
    }
    if out.len() < messages::CLIENT_READY_BYTES {
        return Written::refused(Refusal::NoRoom);
    }
    let at = put_header(
        out,
        messages::CLIENT_READY,
        messages::CLIENT_READY_BYTES as u32,
    );
    Written::done(at + put_ready(&mut out[at..], settings))
}

pub fn write_suspend(out: &mut [u8]) -> Written
    ensures { Writes suspend_draft result out.old out.new }
{
    write_header(out, messages::SUSPEND, messages::HEADER_BYTES as u32)
}

pub fn write_resume(out: &mut [u8]) -> Written
    ensures { Writes resume_draft result out.old out.new }
{
    write_header(out, messages::RESUME, messages::HEADER_BYTES as u32)
}

pub fn write_dismiss(out: &mut [u8], id: u8) -> Written
    ensures { Writes (dismiss_draft id) result out.old out.new }
{
    if out.len() < messages::DISMISS_BYTES {
        return Written::refused(Refusal::NoRoom);
    }
    let at = put_header(out, messages::DISMISS, messages::DISMISS_BYTES as u32);
    Written::done(at + put_one(&mut out[at..], id))
}

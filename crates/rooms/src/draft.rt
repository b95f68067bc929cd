// What a writer is asked for.
use messages::Ready;
use paper::Milliseconds;
use slices::Written;

#[derive(Clone, Copy)]
pub(crate) enum Draft {
    // A header by itself: an event and a length.
    Header(u16, u32),
    // A touch message, of this time and of records that are given beside it.
    Touch(Milliseconds),
    ServerReady(u32),
    ClientReady(Ready),
    Suspend,
    Resume,
    Dismiss(u8),
}

pub(crate) fn write(draft: Draft, records: &[u8], out: &mut [u8]) -> Written {
    match draft {
        Draft::Header(event, total) => message_writers::write_header(out, event, total),
        Draft::Touch(time) => writing::write_touch(out, time, records),
        Draft::ServerReady(version) => message_writers::write_server_ready(out, version),
        Draft::ClientReady(settings) => message_writers::write_client_ready(out, settings),
        Draft::Suspend => message_writers::write_suspend(out),
        Draft::Resume => message_writers::write_resume(out),
        Draft::Dismiss(id) => message_writers::write_dismiss(out, id),
    }
}

pub(crate) fn add_name(page: &mut [u8], place: usize, draft: Draft) -> usize {
    match draft {
        Draft::Header(_, _) => lines::add_text(page, place, b" header"),
        Draft::Touch(_) => lines::add_text(page, place, b" touch"),
        Draft::ServerReady(_) => lines::add_text(page, place, b" server_ready"),
        Draft::ClientReady(_) => lines::add_text(page, place, b" client_ready"),
        Draft::Suspend => lines::add_text(page, place, b" suspend"),
        Draft::Resume => lines::add_text(page, place, b" resume"),
        Draft::Dismiss(_) => lines::add_text(page, place, b" dismiss"),
    }
}

// The writers, of what an entry is.
use crate::draft::Draft;
use crate::{draft, lent, line};

// One call, with all of what is lent.
fn call(page: &mut [u8], place: usize, draft: Draft, records: &[u8], out: &mut [u8]) -> usize {
    lent::paint(out);
    let written = draft::write(draft, records, out);
    let mut at = draft::add_name(page, place, draft);
    at = lines::add_field(page, at, out.len() as u64);
    at = lines::add_field(page, at, written.refusal as u64);
    at = lines::add_field(page, at, written.bytes as u64);
    line::add_left(page, at, written.refusal, out)
}

// One call, with so many bytes of the output, or with all.
fn call_with(
    page: &mut [u8],
    place: usize,
    draft: Draft,
    records: &[u8],
    output: &mut [u8],
    room: usize,
) -> usize {
    let end = room.min(output.len());
    call(page, place, draft, records, &mut output[..end])
}

// One writer, on lines of its own.
fn tell_draft(
    page: &mut [u8],
    place: usize,
    number: u64,
    draft: Draft,
    records: &[u8],
    output: &mut [u8],
) -> usize {
    let plenty = draft::write(draft, records, output);
    let enough = plenty.bytes;
    let first = line::next(page, place, number);
    if enough == 0 {
        return call_with(page, first, draft, records, output, 0);
    }
    let less = call_with(page, first, draft, records, output, enough - 1);
    let at = line::next(page, less, number);
    call_with(page, at, draft, records, output, enough)
}

// A header of the event and the length that stand at an entry's front, little-endian.
fn tell_header(
    page: &mut [u8],
    place: usize,
    number: u64,
    entry: &[u8],
    output: &mut [u8],
) -> usize {
    if entry.len() < messages::HEADER_BYTES {
        return place;
    }
    let event = entries::join_two(entry[1], entry[0]);
    let total = entries::join_four(entry[5], entry[4], entry[3], entry[2]);
    tell_draft(
        page,
        place,
        number,
        Draft::Header(event, total),
        b"",
        output,
    )
}

// A touch message, of the time and the records that its plain reading leaves.
fn tell_touch(
    page: &mut [u8],
    place: usize,
    number: u64,
    entry: &[u8],
    output: &mut [u8],
    records: &mut [u8],
) -> usize {
    let answer = reading::read(entry, records, false);
    if answer.refusal != 0 {
        return place;
    }
    let end = lent::bytes_of(answer.records, records.len());
    tell_draft(
        page,
        place,
        number,
        Draft::Touch(answer.time),
        &records[..end],
        output,
    )
}

// The other five, of which an entry is one or none.
fn tell_other(
    page: &mut [u8],
    place: usize,
    number: u64,
    entry: &[u8],
    output: &mut [u8],
) -> usize {
    if let Ok(version) = messages::read_server_ready(entry) {
        return tell_draft(
            page,
            place,
            number,
            Draft::ServerReady(version),
            b"",
            output,
        );
    }
    if let Ok(settings) = messages::read_client_ready(entry) {
        return tell_draft(
            page,
            place,
            number,
            Draft::ClientReady(settings),
            b"",
            output,
        );
    }
    if messages::read_suspend(entry).is_ok() {
        return tell_draft(page, place, number, Draft::Suspend, b"", output);
    }
    if messages::read_resume(entry).is_ok() {
        return tell_draft(page, place, number, Draft::Resume, b"", output);
    }
    if let Ok(id) = messages::read_dismiss(entry) {
        return tell_draft(page, place, number, Draft::Dismiss(id), b"", output);
    }
    place
}

pub(crate) fn tell(
    page: &mut [u8],
    place: usize,
    number: u64,
    entry: &[u8],
    output: &mut [u8],
    records: &mut [u8],
) -> usize {
    let header = tell_header(page, place, number, entry, output);
    let touch = tell_touch(page, header, number, entry, output, records);
    tell_other(page, touch, number, entry, output)
}

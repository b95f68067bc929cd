// How many bytes a message takes, before any of it is written.
ghost use Rattle.std.specs.Prelude.{◌≡◌, ◌+◌, ◌≤◌, length};
ghost use Rattle.messages.specs.Header.{header_bytes};
ghost use Rattle.writing.specs.Spelling.{spelt, Spelt, body_of};
ghost use Rattle.writing.specs.Limits.{most_spelt};

use paper::Milliseconds;

// So many records, which are no more than a message can be of: the total cannot overflow.
fn records_bytes(records: &[u8], count: usize) -> usize
    requires { Spelt count records.now × (count ≤ most_spelt) }
    ensures { result ≡ length (spelt count records.now) }
{
    let mut total: usize = 0;
    let mut left = records;
    for _ in 0..count {
        total += spelling::record_bytes(left);
        left = &left[house::RECORD_BYTES..];
    }
    total
}

// The whole message.
pub(crate) fn message_bytes(time: Milliseconds, frames: u8, records: &[u8], count: usize) -> usize
    requires { Spelt count records.now × (count ≤ most_spelt) }
    ensures { result ≡ header_bytes + length (body_of time frames count records.now) }
{
    let body = spelling::touch_head_bytes(time, frames) + records_bytes(records, count);
    messages::HEADER_BYTES + body
}

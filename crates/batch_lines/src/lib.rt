// What is said of a batch on a page: what it came to, and below that a line for each entry that was fed, with its records.
#![tactic(auto)]

ghost use Rattle.std.specs.Prelude.{◌≡◌, ◌*◌, ◌^◌, ◌<◌, ◌≤◌, length};
ghost use Rattle.house.specs.Fields.{record_bytes};
ghost use Rattle.intake.specs.Feeding.{answer_numbers};
ghost use Rattle.lines.specs.Page.{Added};
ghost use Rattle.batch_lines.specs.Lines.{batch_text, name_text, numbers_text, answer_text};

use bursts::Batch;

// Adds what a batch came to: the refusal, the entries that were fed, and the records that they wrote.
pub fn add_batch(page: &mut [u8], place: usize, batch: Batch) -> usize
    ensures { Added (batch_text batch) place result page.old page.new }
{
    let mut at = lines::add_field(page, place, batch.refusal as u64);
    at = lines::add_field(page, at, batch.entries as u64);
    lines::add_field(page, at, batch.records as u64)
}

// Begins the line of an entry of a batch.
fn add_name(page: &mut [u8], place: usize, number: u64, k: u64) -> usize
    ensures { Added (name_text number k) place result page.old page.new }
{
    let mut at = lines::add_byte(page, place, b'\n');
    at = lines::add_number(page, at, number);
    at = lines::add_byte(page, at, b'.');
    lines::add_number(page, at, k)
}

// Adds the numbers of an answer.
fn add_numbers(page: &mut [u8], place: usize, answer: &[u32]) -> usize
    requires { answer_numbers ≤ length answer.now }
    ensures { Added (numbers_text answer.now) place result page.old page.new }
{
    let mut at = lines::add_count(page, place, answer[0]);
    at = lines::add_count(page, at, answer[1]);
    at = lines::add_count(page, at, answer[2]);
    at = lines::add_count(page, at, answer[3]);
    at = lines::add_count(page, at, answer[4]);
    lines::add_count(page, at, answer[5])
}

// How many bytes so many records have.
pub fn bytes_of(records: u32) -> usize
    ensures { (result ≡ record_bytes * records) × (result < 2 ^ 37) }
{
    house::RECORD_BYTES * records as usize
}

// Adds the line of an entry below the lines before it, and leaves its end to what comes after. The answer stands at the front of the
// numbers, and what the entry wrote at the front of the output.
pub fn add_answer(
    page: &mut [u8],
    place: usize,
    number: u64,
    k: u64,
    answer: &[u32],
    output: &[u8],
) -> usize
    ensures { Added (answer_text number k answer.now output.now) place result page.old page.new }
{
    if answer.len() < intake::ANSWER_NUMBERS {
        return place;
    }
    let named = add_name(page, place, number, k);
    let told = add_numbers(page, named, answer);
    let bytes = bytes_of(answer[5]);
    lines::add_front(page, told, bytes, output)
}

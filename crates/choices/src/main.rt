// A label over entries that are commands: a list of buttons, one of them shown or hidden, or records. Of each entry its number, and what
// came of it; of records the refusal, how many choices there were, and each as a contact's id and an item.
#![tactic(auto)]

ghost use Rattle.std.specs.Prelude.{◌≤◌, length};
ghost use Rattle.feed.specs.Within.{entry_most};

use presses::{Button, Label};
use turns::Turn;

// How many bytes a button has in an entry, and how many buttons a list has at most.
const BUTTON_BYTES: usize = 21;

const LIST_MOST: usize = 64;

// How many choices are lent at most: no entry has more records.
const ROOM_MOST: usize = 4096;

// A line is shorter: an entry has at most 3,120 records, of each of which at most one choice comes. Of these a line has 15 bytes each, an id
// of at most 3 digits and an item of at most 10 behind a space and a colon; and 63 beside them: 46,863 bytes.
const LINE_MOST: usize = 65536;

// A label and its list, whose other places are hidden.
#[derive(Clone, Copy)]
struct Screen {
    label: Label,
    buttons: [Button; LIST_MOST],
    count: usize,
}

fn blank() -> Button {
    Button {
        item: 0,
        left: 0,
        top: 0,
        right: 0,
        bottom: 0,
        shown: 0,
    }
}

fn empty() -> Screen {
    Screen {
        label: presses::fresh(),
        buttons: [blank(); LIST_MOST],
        count: 0,
    }
}

// Four bytes at a place, where there are so many.
fn four_at(bytes: &[u8], at: usize) -> [u8; 4] {
    let Some([a, b, c, d, ..]) = bytes.get(at..) else {
        return [0; 4];
    };
    [*a, *b, *c, *d]
}

// The button at the front.
fn button_of(bytes: &[u8]) -> Button {
    if bytes.len() < BUTTON_BYTES {
        return blank();
    }
    Button {
        item: u32::from_be_bytes(four_at(bytes, 0)),
        left: i32::from_be_bytes(four_at(bytes, 4)),
        top: i32::from_be_bytes(four_at(bytes, 8)),
        right: i32::from_be_bytes(four_at(bytes, 12)),
        bottom: i32::from_be_bytes(four_at(bytes, 16)),
        shown: bytes[20],
    }
}

// The buttons that stand one behind the other: no more than a list has.
fn list_of(bytes: &[u8]) -> [Button; LIST_MOST] {
    let mut list = [blank(); LIST_MOST];
    for (place, button) in list.iter_mut().zip(bytes.chunks_exact(BUTTON_BYTES)) {
        *place = button_of(button);
    }
    list
}

// An entry that is no command. Here and below: the screen after it, and where its line goes on.
fn say_bad(page: &mut [u8], place: usize, screen: Screen) -> (Screen, usize) {
    (screen, lines::add_text(page, place, b" bad"))
}

// A new list: all contacts are out.
fn take_list(page: &mut [u8], place: usize, screen: Screen, bytes: &[u8]) -> (Screen, usize) {
    let count = (bytes.len() / BUTTON_BYTES).min(LIST_MOST);
    if bytes.len() != BUTTON_BYTES * count {
        return say_bad(page, place, screen);
    }
    let listed = Screen {
        label: presses::fresh(),
        buttons: list_of(bytes),
        count,
    };
    (listed, lines::add_text(page, place, b" set"))
}

// A button of the list, shown or hidden.
fn take_mark(page: &mut [u8], place: usize, screen: Screen, bytes: &[u8]) -> (Screen, usize) {
    let [high, low, shown] = bytes else {
        return say_bad(page, place, screen);
    };
    let at = entries::join_two(*high, *low) as usize;
    let marked = if at < screen.count {
        lent_list::set_shown_lent(screen.buttons, at, *shown)
    } else {
        None
    };
    let Some(buttons) = marked else {
        return (screen, lines::add_text(page, place, b" none"));
    };
    let next = Screen { buttons, ..screen };
    (next, lines::add_text(page, place, b" set"))
}

// The first n choices of a list, two numbers each.
fn add_choices(page: &mut [u8], place: usize, choices: &[u32], n: usize) -> usize {
    let mut at = place;
    for choice in choices.chunks_exact(2).take(n) {
        if let [id, item] = choice {
            at = lines::add_count(page, at, *id);
            at = lines::add_byte(page, at, b':');
            at = lines::add_number(page, at, *item as u64);
        }
    }
    at
}

// Records, with room for so many choices.
fn take_records(
    page: &mut [u8],
    place: usize,
    screen: Screen,
    bytes: &[u8],
    choices: &mut [u32],
) -> (Screen, usize) {
    let [high, low, records @ ..] = bytes else {
        return say_bad(page, place, screen);
    };
    let room = 2 * (entries::join_two(*high, *low) as usize).min(ROOM_MOST);
    if choices.len() < room {
        return say_bad(page, place, screen);
    }
    let chosen = lent_list::choose_lent(
        screen.label,
        screen.buttons,
        records,
        &mut choices[..room],
    );
    let refused = lines::add_field(page, place, chosen.refusal as u64);
    let counted = lines::add_field(page, refused, chosen.count as u64);
    let at = add_choices(page, counted, choices, chosen.count);
    let next = Screen {
        label: chosen.label,
        ..screen
    };
    (next, at)
}

// What an entry asks for, carried out and said.
fn take_entry(
    page: &mut [u8],
    place: usize,
    screen: Screen,
    entry: &[u8],
    choices: &mut [u32],
) -> (Screen, usize) {
    match entry {
        [1, bytes @ ..] => take_list(page, place, screen, bytes),
        [2, bytes @ ..] => take_mark(page, place, screen, bytes),
        [3, bytes @ ..] => take_records(page, place, screen, bytes, choices),
        _ => say_bad(page, place, screen),
    }
}

// The space holds the longest entry, which has 65,535 bytes behind two of length, and the page the longest line.
// A proved loop has to end, and nothing says that an input does: it stops at a number that no run reaches.
fn run(space: &mut [u8], page: &mut [u8], choices: &mut [u32])
    requires { (entry_most ≤ length space.old) × (65536 ≤ length page.old) }
{
    let mut screen = empty();
    let mut stand = turns::begin();
    for _ in 1..u64::MAX {
        let turn = turns::next_turn(space, page, stand, LINE_MOST);
        let Turn::Entry(from, to, line) = turn else {
            return;
        };
        let (next, at) = take_entry(page, line.at, screen, &space[from..to], choices);
        screen = next;
        stand = turns::end_line(page, line, at);
    }
}

fn main() {
    let mut space = [0u8; 131072];
    let mut page = [0u8; 2 * LINE_MOST];
    let mut choices = [0u32; 8192];
    run(&mut space, &mut page, &mut choices);
}

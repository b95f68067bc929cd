// The parts of a command behind its first byte.
ghost use Rattle.std.specs.Prelude.{◌≡◌, ◌≤◌, length};
ghost use Rattle.commands.specs.Commands.{room_in, settings_in, time_in, lent_of};

use messages::Ready;
use paper::Milliseconds;

// The room, which every command that writes begins with.
fn room_in(entry: &[u8]) -> u16
    requires { 3 ≤ length entry.now }
    ensures { result ≡ room_in entry.now }
{
    entries::join_two(entry[1], entry[2])
}

// How many bytes of an output are lent: the room, or all of an output that has fewer.
pub(crate) fn lent_of(entry: &[u8], all: usize) -> usize
    requires { 3 ≤ length entry.now }
    ensures { result ≡ lent_of (room_in entry.now) all }
{
    let room = room_in(entry) as usize;
    room.min(all)
}

// What a client ready is to declare.
pub(crate) fn settings_in(entry: &[u8]) -> Ready
    requires { 13 ≤ length entry.now }
    ensures { result ≡ settings_in entry.now }
{
    Ready {
        flags: entries::join_four(entry[3], entry[4], entry[5], entry[6]),
        version: entries::join_four(entry[7], entry[8], entry[9], entry[10]),
        most: entries::join_two(entry[11], entry[12]),
    }
}

// The encode time of a touch message.
pub(crate) fn time_in(entry: &[u8]) -> Milliseconds
    requires { 7 ≤ length entry.now }
    ensures { result ≡ time_in entry.now }
{
    Milliseconds(entries::join_four(entry[3], entry[4], entry[5], entry[6]))
}

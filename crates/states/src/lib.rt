// Document 01, "Contact states": the table of eight flag values by three states.
#![tactic(auto)]

ghost use Rattle.std.specs.Prelude.{◌≡◌};
ghost use Rattle.states.specs.Table.{table, place_of, listed, next};

// A contact's states.
pub const OUT: u8 = 0;

pub const HOVERING: u8 = 1;

pub const ENGAGED: u8 = 2;

// No state: what flags lead to where the table has no such step.
pub const ILLEGAL: u8 = 3;

// Three entries for each flag value: from out of range, from hovering, from engaged.
const NEXT: [u8; 24] = [
    // 0x0A
    HOVERING, HOVERING, ILLEGAL,
    // 0x19
    ENGAGED, ENGAGED, ILLEGAL,
    // 0x1A
    ILLEGAL, ILLEGAL, ENGAGED,
    // 0x0C
    ILLEGAL, ILLEGAL, HOVERING,
    // 0x04
    ILLEGAL, ILLEGAL, OUT,
    // 0x24
    ILLEGAL, ILLEGAL, OUT,
    // 0x02
    ILLEGAL, OUT, ILLEGAL,
    // 0x22
    ILLEGAL, OUT, ILLEGAL,
];

// The row of a flag value, and 8 where the table has none.
fn row_of(flags: u32) -> usize
    ensures { result ≡ place_of flags table }
{
    match flags {
        0x0A => 0,
        0x19 => 1,
        0x1A => 2,
        0x0C => 3,
        0x04 => 4,
        0x24 => 5,
        0x02 => 6,
        0x22 => 7,
        _ => 8,
    }
}

// Whether the table has a flag value.
pub fn is_listed(flags: u32) -> bool
    ensures { result ≡ listed flags }
{
    row_of(flags) < 8
}

// The state that flags lead to, or ILLEGAL.
pub fn next_state(flags: u8, state: u8) -> u8
    ensures { result ≡ next flags state }
{
    let row = row_of(flags as u32);
    if 8 <= row {
        return ILLEGAL;
    }
    if ENGAGED < state {
        return ILLEGAL;
    }
    let at = 3 * row + state as usize;
    NEXT[at]
}

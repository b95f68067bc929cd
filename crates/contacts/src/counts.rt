// How many contacts there are, and how many of them are active.
ghost use Rattle.std.specs.Prelude.{◌≡◌, ◌≤◌};
ghost use Rattle.machine.specs.Table.{contacts, active, one};
ghost use Rattle.contacts.specs.Ruling.{Counted};

// A state counts as one where it is active.
pub(crate) fn one_if_active(state: u8) -> u16
    ensures { (result ≡ one (active state)) × (result ≤ 1) }
{
    if state == states::OUT {
        return 0;
    }
    1
}

// How many of the 256 contacts are active.
pub fn count_active(states: &[u8; 256]) -> u16
    ensures { Counted result states.now × (result ≤ contacts) }
{
    let mut n: u16 = 0;
    for state in states {
        n += one_if_active(*state);
    }
    n
}

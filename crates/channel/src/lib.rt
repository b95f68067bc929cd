// What both ends of the channel keep as marks, off where they are 0, and what they judge by them.
#![tactic(auto)]

ghost use Rattle.std.specs.Prelude.{◌≡◌};
ghost use Rattle.framing.specs.Frame.{begun_by};
ghost use Rattle.channel.specs.Marks.{untimed_by, judged_by};

// Whether the client asked for no time stamps: ready flag 2.
pub fn is_untimed(flags: u32) -> bool
    ensures { result ≡ untimed_by flags }
{
    flags / 2 % 2 == 1
}

// Whether the first frame's offset is judged.
pub fn is_judged(flags: u32, begun: u8) -> bool
    ensures { result ≡ judged_by flags begun }
{
    if is_untimed(flags) {
        return false;
    }
    begun == 0
}

// The first-frame mark after a message of so many frames.
pub fn begun_after(begun: u8, frames: usize) -> u8
    ensures { result ≡ begun_by 1 begun frames }
{
    if frames == 0 {
        return begun;
    }
    1
}

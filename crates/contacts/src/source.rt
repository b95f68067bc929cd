// Contacts, wherever they are read: in the records of frames, or in a message.
ghost use Rattle.std.specs.Prelude.{◌≡◌};
ghost use Rattle.formats.specs.Answer.{read_of, tail_end, end_of};
ghost use Rattle.contacts.specs.Ruling.{source};

use house::Contact;
use paper::Refusal;

// The contact at the front, and what is behind it.
pub fn read_contact(rest: &[u8], recorded: bool) -> Result<(Contact, &[u8]), Refusal>
    ensures value { read_of result ≡ (source recorded).read rest.now }
    ensures tail { tail_end rest.entry result ≡ end_of rest.entry }
{
    if recorded {
        return recordings::read_contact(rest);
    }
    touch::read_contact(rest, false)
}

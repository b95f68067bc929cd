// Whole messages: the header for the one event, and then the body.
ghost use Rattle.std.specs.Prelude.{◌≡◌};
ghost use Rattle.formats.specs.Format.{byte};
ghost use Rattle.formats.specs.Answer.{whole_of};
ghost use Rattle.messages.specs.Header.{read_message, server_ready, client_ready, suspend, resume, dismiss};
ghost use Rattle.messages.specs.Bodies.{version, ready, nothing};

use crate::Ready;
use crate::body::{read_dismiss_body, read_empty_body, read_ready_body, read_server_ready_body};
use crate::head::read_header;
use paper::Refusal;

#[tactic(auto, using(crate::proofs::Laws::headed_same), unfolding(crate::specs::Header::read_message))]
pub fn read_server_ready(message: &[u8]) -> Result<u32, Refusal>
    ensures { whole_of result ≡ read_message server_ready version message.now }
{
    let (_, body) = read_header(message, crate::SERVER_READY, crate::SERVER_READY)?;
    read_server_ready_body(body)
}

#[tactic(auto, using(crate::proofs::Laws::headed_same), unfolding(crate::specs::Header::read_message))]
pub fn read_client_ready(message: &[u8]) -> Result<Ready, Refusal>
    ensures { whole_of result ≡ read_message client_ready ready message.now }
{
    let (_, body) = read_header(message, crate::CLIENT_READY, crate::CLIENT_READY)?;
    read_ready_body(body)
}

// A message with no body.
#[tactic(auto, using(crate::proofs::Laws::headed_same), unfolding(crate::specs::Header::read_message))]
fn read_empty(message: &[u8], event: u16) -> Result<(), Refusal>
    ensures { whole_of result ≡ read_message event nothing message.now }
{
    let (_, body) = read_header(message, event, event)?;
    read_empty_body(body)
}

pub fn read_suspend(message: &[u8]) -> Result<(), Refusal>
    ensures { whole_of result ≡ read_message suspend nothing message.now }
{
    read_empty(message, crate::SUSPEND)
}

pub fn read_resume(message: &[u8]) -> Result<(), Refusal>
    ensures { whole_of result ≡ read_message resume nothing message.now }
{
    read_empty(message, crate::RESUME)
}

#[tactic(auto, using(crate::proofs::Laws::headed_same), unfolding(crate::specs::Header::read_message))]
pub fn read_dismiss(message: &[u8]) -> Result<u8, Refusal>
    ensures { whole_of result ≡ read_message dismiss byte message.now }
{
    let (_, body) = read_header(message, crate::DISMISS, crate::DISMISS)?;
    read_dismiss_body(body)
}

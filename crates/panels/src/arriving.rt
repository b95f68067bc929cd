// What arrives: server ready once, and then suspend and resume. No contact is changed by it.
ghost use Rattle.std.specs.Prelude.{◌≡◌};
ghost use Rattle.machine.specs.Table.{Table};
ghost use Rattle.panels.specs.Panel.{panel_of_parts, arrival, heard_of, TakesParts};

use crate::{Heard, PanelMarks};
use paper::Refusal;

// The marks that a message leaves: server ready is all that a panel takes at first, suspend and resume all that it takes afterwards.
#[tactic(auto, using(crate::proofs::Arrivals::greeting, crate::proofs::Arrivals::holding))]
fn hear(marks: PanelMarks, message: &[u8]) -> Result<PanelMarks, Refusal>
    ensures { (t : Table) → heard_of t result ≡ arrival (panel_of_parts marks t) message.now }
{
    if marks.greeted == 0 {
        messages::read_server_ready(message)?;
        return Ok(PanelMarks {
            greeted: 1,
            ..marks
        });
    }
    let (event, body) = messages::read_header(message, messages::SUSPEND, messages::RESUME)?;
    messages::read_empty_body(body)?;
    Ok(PanelMarks {
        suspended: u8::from(event == messages::SUSPEND),
        ..marks
    })
}

// A message that arrived at a panel with these marks: taken, or refused with nothing changed.
pub fn take_parts(marks: PanelMarks, message: &[u8]) -> Heard
    ensures { TakesParts marks message.now result }
{
    match hear(marks, message) {
        Ok(marks) => Heard { marks, refusal: 0 },
        Err(refusal) => Heard {
            marks,
            refusal: refusal.number(),
        },
    }
}

// The header and the body, before anything is written.
ghost use Rattle.reading.specs.Passes.{Judges};

use framing::BodyHead;
use paper::Refusal;

// What stands before a message's frames, and these; or the first fault.
pub(crate) fn judge(message: &[u8], strictly: bool) -> Result<(BodyHead, &[u8]), Refusal>
    ensures { Judges strictly message.now result }
{
    let (_, body) = messages::read_header(message, messages::TOUCH, messages::TOUCH)?;
    touch_frames::check_body(body, false, strictly)
}

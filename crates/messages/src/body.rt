// The bodies, each given from its first byte: field by field, 5 and then the field's meaning; then 12.
ghost use Rattle.std.specs.Prelude.{◌≡◌};
ghost use Rattle.paper.specs.Refusals.{trailing};
ghost use Rattle.formats.specs.Format.{ended, whole, byte};
ghost use Rattle.formats.specs.Answer.{read_of, whole_of};
ghost use Rattle.messages.specs.Bodies.{version_listed, version, ready_flags, ready, nothing};

use crate::Ready;
use crate::little::{read_four, read_two};
use paper::Refusal;

// Whether a version is listed.
#[tactic(auto, unfolding(crate::specs::Bodies::version_listed, crate::specs::Header::one_of))]
pub fn is_version(v: u32) -> bool
    ensures { result ≡ version_listed v }
{
    if v == crate::VERSION_100 {
        return true;
    }
    v == crate::VERSION_101
}

fn read_version(rest: &[u8]) -> Result<(u32, &[u8]), Refusal>
    ensures { read_of result ≡ version.read rest.now }
{
    let (version, rest) = read_four(rest)?;
    if is_version(version) {
        return Ok((version, rest));
    }
    Err(Refusal::BadField)
}

fn read_flags(rest: &[u8]) -> Result<(u32, &[u8]), Refusal>
    ensures { read_of result ≡ ready_flags.read rest.now }
{
    let (flags, rest) = read_four(rest)?;
    if flags < crate::FLAGS_END {
        return Ok((flags, rest));
    }
    Err(Refusal::BadField)
}

// The end of a body, behind its last field.
#[tactic(auto, using(formats::proofs::Steps::ended_none, formats::proofs::Steps::ended_more))]
fn end(rest: &[u8]) -> Result<(), Refusal>
    ensures { whole_of result ≡ ended trailing tt rest.now }
{
    if rest.is_empty() {
        return Ok(());
    }
    Err(Refusal::Trailing)
}

// The body of server ready.
#[tactic(auto, using(formats::proofs::Steps::ended_got, formats::proofs::Steps::ended_bad))]
pub fn read_server_ready_body(body: &[u8]) -> Result<u32, Refusal>
    ensures { whole_of result ≡ whole version trailing body.now }
{
    let (version, rest) = read_version(body)?;
    end(rest)?;
    Ok(version)
}

// The body of client ready.
#[tactic(auto, using(formats::proofs::Steps::ended_got, formats::proofs::Steps::ended_bad), unfolding(crate::specs::Bodies::ready_by))]
pub fn read_ready_body(body: &[u8]) -> Result<Ready, Refusal>
    ensures { whole_of result ≡ whole ready trailing body.now }
{
    let (flags, rest) = read_flags(body)?;
    let (version, rest) = read_version(rest)?;
    let (most, rest) = read_two(rest)?;
    end(rest)?;
    Ok(Ready {
        flags,
        version,
        most,
    })
}

// The body of suspend and of resume: there is none.
pub fn read_empty_body(body: &[u8]) -> Result<(), Refusal>
    ensures { whole_of result ≡ whole nothing trailing body.now }
{
    end(body)
}

// The body of dismiss.
#[tactic(auto, using(formats::proofs::Steps::ended_got, formats::proofs::Steps::ended_bad), unfolding(formats::specs::Format::read_byte))]
pub fn read_dismiss_body(body: &[u8]) -> Result<u8, Refusal>
    ensures { whole_of result ≡ whole byte trailing body.now }
{
    let Some((id, rest)) = body.split_first() else {
        return Err(Refusal::Truncated);
    };
    end(rest)?;
    Ok(*id)
}

//! The text of a list of addresses.
ghost use Rattle.std.specs.Prelude.{◌≡◌, IfOk, map, string_bytes, string_len, ◌≤◌, IfErr, length, ◌<◌};
ghost use Rattle.xq_atoms.specs.declared.refusals.Code.TheVariants.{ProfReply};
ghost use Rattle.xq_atoms.specs.declared.refusals.Want.TheVariants.{Memory};
ghost use Rattle.xq_atoms.specs.Answers.{RefusesFor};
ghost use Rattle.xq_server.specs.Answer.{listing as listing_lem};

use std::alloc::Global;
use xq_atoms::{Code, Fault, Want, append_quoted};
use xq_frame::MAX_TEXT;

/// The addresses as string literals, joined by commas; `()` where there are none. A text too
/// long for a reply is refused as `prof:REPLY`, and every other one only for want of memory.
pub(crate) fn listing(alloc: Global, addresses: &[String]) -> Result<String, Fault>
    ensures value { IfOk result (λ text. string_bytes text
        ≡ listing_lem (map string_bytes addresses.now)) }
    ensures short { IfOk result (λ text. string_len text ≤ MAX_TEXT) }
    ensures refused { IfErr result (RefusesFor ProfReply
        (MAX_TEXT < length (listing_lem (map string_bytes addresses.now)))) }
{
    let text = joined(alloc, addresses)?;
    if text.len() > MAX_TEXT {
        return Err(Fault::Code(Code::ProfReply));
    }
    Ok(text)
}

/// The addresses as strings with commas between them; `()` for none.
fn joined(alloc: Global, addresses: &[String]) -> Result<String, Want>
    ensures text { IfOk result (λ text. string_bytes text
        ≡ listing_lem (map string_bytes addresses.now)) }
    ensures want { IfErr result (λ want. want ≡ Memory) }
{
    let mut text = String::new(alloc);
    let [first, others @ ..] = addresses else {
        text.push_str("()")?;
        return Ok(text);
    };
    append_quoted(first.as_str(), &mut text)?;
    for address in others {
        text.push_str(", ")?;
        append_quoted(address.as_str(), &mut text)?;
    }
    Ok(text)
}

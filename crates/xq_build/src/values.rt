//! Parts of values.
ghost use Rattle.std.specs.Prelude.{◌≡◌, string_bytes, IfErr, IfOk};
ghost use Rattle.std.specs.Str.{IsUtf8};
ghost use Rattle.xq_atoms.specs.Characters.{is_space};
ghost use Rattle.xq_atoms.specs.Spaces as Spaces;

use std::alloc::Global;
use xq_atoms::{Want, after_spaces};

/// A copy of a text by its bytes.
fn copied_text(alloc: Global, bytes: &[u8]) -> Result<String, Want>
    requires { IsUtf8 bytes.now }
    ensures text { IfOk result (λ text. string_bytes text ≡ bytes.now) }
    ensures want { IfErr result (λ want. want ≡ Want.Memory) }
{
    match String::from_utf8(bytes.to_vec(alloc)?) {
        Ok(text) => Ok(text),
        Err(_) => unreachable!(),
    }
}

/// A copy of the text without the white space in front.
pub fn without_leading_space(alloc: Global, text: &str) -> Result<String, Want>
    ensures text { IfOk result (λ rest. string_bytes rest
        ≡ Spaces.after_leading is_space text.now) }
    ensures want { IfErr result (λ want. want ≡ Want.Memory) }
{
    copied_text(alloc, after_spaces(text.as_bytes()))
}

/// The text without the white space at its ends.
pub fn trimmed(text: &str) -> &str
    ensures { result.now ≡ Spaces.trimmed text.now }
{
    match std::str::from_utf8(xq_atoms::trimmed(text.as_bytes())) {
        Ok(rest) => rest,
        Err(_) => unreachable!(),
    }
}

//! Copies of texts and tests.
ghost use Rattle.std.specs.Prelude.{◌≡◌, IfOk};

use std::alloc::{AllocError, Global};
use xq_expressions::Text;
use xq_meaning::Test;

/// A copy of a text.
pub fn text(alloc: Global, text: &Text) -> Result<Text, AllocError>
    ensures { IfOk result (λ copy. copy ≡ text.now) }
{
    Text::copy_of(alloc, text.as_str())
}

/// A copy of a text, where there is one.
fn optional(alloc: Global, wanted: &Option<Text>) -> Result<Option<Text>, AllocError>
    ensures { IfOk result (λ copy. copy ≡ wanted.now) }
{
    match wanted {
        Some(wanted) => Ok(Some(text(alloc, wanted)?)),
        None => Ok(None),
    }
}

/// A copy of a test.
pub fn test(alloc: Global, test: &Test) -> Result<Test, AllocError>
    ensures { IfOk result (λ copy. copy ≡ test.now) }
{
    match test {
        Test::Any => Ok(Test::Any),
        Test::Text => Ok(Test::Text),
        Test::Comment => Ok(Test::Comment),
        Test::Document => Ok(Test::Document),
        Test::ProcessingInstruction(wanted) => {
            Ok(Test::ProcessingInstruction(optional(alloc, wanted)?))
        }
        Test::Element(wanted) => Ok(Test::Element(optional(alloc, wanted)?)),
        Test::Attribute(wanted) => Ok(Test::Attribute(optional(alloc, wanted)?)),
    }
}

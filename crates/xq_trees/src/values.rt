//! Values of comments and processing instructions in XML 1.0.
ghost use Rattle.std.specs.Prelude.{◌≡◌, codes};
ghost use Rattle.xq_trees.specs.Names.{holds, ends_with_dash as ends_with_dash_lem, begins_with_space as begins_with_space_lem, is_comment as is_comment_lem, is_instruction as is_instruction_lem};

use crate::names::are_characters;

/// Whether two dashes stand side by side.
pub fn holds_two_dashes(text: &str) -> bool
    ensures { result ≡ holds (codes "--") text.now }
{
    text.contains("--")
}

/// Whether the end of a processing instruction stands in the text.
pub fn holds_an_end(text: &str) -> bool
    ensures { result ≡ holds (codes "?>") text.now }
{
    text.contains("?>")
}

/// Whether the last character is a dash.
pub fn ends_with_dash(text: &str) -> bool
    ensures { result ≡ ends_with_dash_lem text.now }
{
    matches!(text.as_bytes(), [.., b'-'])
}

/// Whether the first character is white space.
fn begins_with_space(text: &str) -> bool
    ensures { result ≡ begins_with_space_lem text.now }
{
    matches!(text.as_bytes(), [b' ' | b'\t' | b'\r' | b'\n', ..])
}

/// Whether the text is the value of a comment (section 2.5).
pub fn is_comment(text: &str) -> bool
    ensures { result ≡ is_comment_lem text.now }
{
    are_characters(text) && !holds_two_dashes(text) && !ends_with_dash(text)
}

/// Whether the text is the value of a processing instruction (section 2.6).
pub fn is_instruction(text: &str) -> bool
    ensures { result ≡ is_instruction_lem text.now }
{
    are_characters(text) && !holds_an_end(text) && !begins_with_space(text)
}

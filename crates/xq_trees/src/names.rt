//! Names of XML 1.0.
ghost use Rattle.std.specs.Prelude.{◌≡◌};
ghost use Rattle.xq_trees.specs.Names.{are_characters as are_characters_lem, is_attribute_name as is_attribute_name_lem, is_xml as is_xml_lem, is_target as is_target_lem};

use xq_atoms::{is_char, is_name};

/// Whether all characters may stand in a document.
pub fn are_characters(text: &str) -> bool
    ensures { result ≡ are_characters_lem text.now }
{
    text.chars().all(|c| is_char(c))
}

/// Whether the text is a name that an attribute may have.
pub fn is_attribute_name(text: &str) -> bool
    ensures { result ≡ is_attribute_name_lem text.now }
{
    is_name(text) && text != "xmlns"
}

/// Whether the text is `xml` in any case.
fn is_xml(text: &str) -> bool
    ensures { result ≡ is_xml_lem text.now }
{
    matches!(text.as_bytes(), [b'x' | b'X', b'm' | b'M', b'l' | b'L'])
}

/// Whether the text is a name that a processing instruction may have (section 2.6).
pub fn is_target(text: &str) -> bool
    ensures { result ≡ is_target_lem text.now }
{
    is_name(text) && !is_xml(text)
}

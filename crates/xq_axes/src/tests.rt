//! Node tests on rows.
ghost use Rattle.std.specs.Prelude.{◌≡◌, not};
ghost use Rattle.xq_trees.specs.Tree.{is_attribute};
ghost use Rattle.xq_atoms.specs.Text.{text_eq};
ghost use Rattle.xq_sources.specs.Lent.{row_lent};
ghost use Rattle.xq_meaning.specs.Steps.{has_name as has_name_lem};
ghost use Rattle.xq_axes.specs.private.Hits.{row_passes};

use xq_expressions::Text;
use xq_meaning::Test;
use xq_sources::LentRow;
use xq_trees::Kind;

/// Whether two names that are as long are the same.
#[inline(never)]
fn is_same(wanted: &str, name: &str) -> bool
    ensures { result ≡ text_eq wanted.now name.now }
{
    wanted == name
}

/// Whether the row has the wanted name; any does, where none is wanted.
///
/// The lengths, which lie in the row, are compared first: the names lie elsewhere.
#[inline(always)]
fn has_name(wanted: &Option<Text>, row: &LentRow<'_>) -> bool
    ensures { result ≡ has_name_lem wanted.now row.now.texts.name }
{
    match wanted {
        None => true,
        Some(text) => {
            let text = text.as_str();
            let name = row.name();
            text.len() == name.len() && is_same(text, name)
        }
    }
}

/// Whether a node of this kind is no attribute.
pub fn is_plain(kind: Kind) -> bool
    ensures { result ≡ not (is_attribute kind) }
{
    !matches!(kind, Kind::Attribute)
}

/// Whether the node of the row passes the test (XQuery 3.1, section 3.3.2.2).
#[inline(always)]
pub fn passes(test: &Test, row: &LentRow<'_>) -> bool
    ensures { result ≡ row_passes test.now (row_lent row.now) }
{
    match test {
        Test::Any => true,
        Test::Text => matches!(row.kind, Kind::Text),
        Test::Comment => matches!(row.kind, Kind::Comment),
        Test::Document => matches!(row.kind, Kind::Document),
        Test::ProcessingInstruction(wanted) => {
            matches!(row.kind, Kind::ProcessingInstruction) && has_name(wanted, row)
        }
        Test::Element(wanted) => matches!(row.kind, Kind::Element) && has_name(wanted, row),
        Test::Attribute(wanted) => matches!(row.kind, Kind::Attribute) && has_name(wanted, row),
    }
}

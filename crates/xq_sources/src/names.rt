//! The elements of a tree by their names.
ghost use Rattle.std.specs.Prelude.{◌≡◌, ◌⊎◌, Some, true, if◌then◌else◌, option_map, IfErr, IfOk, IfSome, OnErr, OnOk};
ghost use Rattle.std.specs.HashMap.{IsEmpty, IsUnchanged, get_by_text};
ghost use Rattle.xq_atoms.specs.Text.{Text, text_eq};
ghost use Rattle.xq_sources.specs.Lent.{placed_lent};
ghost use Rattle.xq_sources.specs.Names.{is_named as is_named_lem, named as named_lem, AreNames};

use crate::{LentRow, LentRows};
use std::alloc::Global;
use std::collections::HashMap;
use xq_atoms::Want;
use xq_trees::Kind;

/// Of how many names of a tree places are kept at most.
pub(crate) const MOST_NAMES: usize = 1_000;

/// The places of the elements of a tree by their names, of names that were asked for: four bytes
/// for each element with one of them.
pub type NameIndex = HashMap<String, Vec<u32>>;

/// Whether the row is that of an element with the name.
fn is_named(row: &LentRow<'_>, name: &str) -> bool
    ensures { result ≡ is_named_lem name.now (placed_lent row.now) }
{
    matches!(row.kind, Kind::Element) && row.name() == name
}

/// The places of the elements with the name, in document order.
fn places_named(alloc: Global, rows: &LentRows<'_>, name: &str) -> Result<Vec<u32>, Want>
    ensures { IfOk result (λ places. places.items ≡ named_lem rows.now name.now) }
{
    let mut places = Vec::new(alloc);
    for at in 0..rows.len() {
        let row = rows.row(at);
        if is_named(&row, name) {
            places.push(row.pre)?;
        }
    }
    Ok(places)
}

/// Keeps these places for the name.
fn keep(alloc: Global, names: &mut NameIndex, name: &str, places: Vec<u32>) -> Result<(), Want>
    ensures kept { OnOk result ((q : Text) → get_by_text names.new q
        ≡ (if text_eq q name.now then Some places else get_by_text names.old q)) }
    ensures same { OnErr result (IsUnchanged names.old names.new) }
{
    let name = String::from_str(alloc, name)?;
    let _ = names.insert(name, places)?;
    Ok(())
}

/// Keeps a copy of these places for the name, where there is memory for it.
fn keep_copy(alloc: Global, names: &mut NameIndex, name: &str, places: &[u32])
    ensures { (q : Text) → IfSome (get_by_text names.new q)
        (λ kept. (get_by_text names.old q ≡ Some kept)
        ⊎ ((text_eq q name.now ≡ true) × (kept.items ≡ places.now))) }
{
    let mut copy = Vec::new(alloc);
    if copy.extend_from_slice(places).is_err() {
        return;
    }
    let _ = keep(alloc, names, name, copy);
}

/// The places of the elements with the name, which it looks for among the rows, all of a tree's:
/// each of them once. It keeps a copy of them, also where there are none, so that they are looked
/// for once. None where places of the name are kept, or those of so many names that no more are: no
/// row is looked at then.
pub fn find_named(
    alloc: Global,
    names: &mut NameIndex,
    rows: &LentRows<'_>,
    name: &str,
) -> Result<Option<Vec<u32>>, Want>
    ensures kept { AreNames rows.now names.old → AreNames rows.now names.new }
    ensures found { IfOk result (λ looked. IfSome looked (λ places.
        places.items ≡ named_lem rows.now name.now)) }
{
    if names.len() >= MOST_NAMES || names.contains_key(name) {
        return Ok(None);
    }
    let places = places_named(alloc, rows, name)?;
    keep_copy(alloc, names, name, &places);
    Ok(Some(places))
}

//! The attributes of a tree by their names and values.
ghost use Rattle.std.specs.Prelude.{◌≡◌, Some, if◌then◌else◌, OnErr, OnOk};
ghost use Rattle.std.specs.HashMap.{IsUnchanged, get_by_text};
ghost use Rattle.xq_atoms.specs.Text.{Text, text_eq};
ghost use Rattle.xq_sources.specs.Values.{AreValues};

use crate::names::MOST_NAMES;
use std::alloc::Global;
use std::collections::HashMap;
use xq_atoms::Want;
use xq_packed::{PackedRows, ValuePlaces};

/// The places of the attributes of a tree by their names, in the order of their values, of names
/// that were asked for: four bytes for each attribute with one of them.
pub type Values = HashMap<String, ValuePlaces>;

/// Keeps these places for the name.
fn keep(alloc: Global, values: &mut Values, name: &str, places: ValuePlaces) -> Result<(), Want>
    ensures kept { OnOk result ((q : Text) → get_by_text values.new q
        ≡ (if text_eq q name.now then Some places else get_by_text values.old q)) }
    ensures same { OnErr result (IsUnchanged values.old values.new) }
{
    let name = String::from_str(alloc, name)?;
    let _ = values.insert(name, places)?;
    Ok(())
}

/// Looks for the attributes with the name among the rows, which are all of a tree's, and keeps
/// their places, also where there are none: each later look finds those with a value at once. It
/// gives whether it looked at rows: not where places of the name are kept, or those of so many names
/// that no more are.
pub fn find_values(
    alloc: Global,
    values: &mut Values,
    rows: &PackedRows,
    name: &str,
) -> Result<bool, Want>
    ensures { AreValues rows.now.rows values.old → AreValues rows.now.rows values.new }
{
    if values.len() >= MOST_NAMES || values.contains_key(name) {
        return Ok(false);
    }
    // A row has one place at most, so the rows bound the places.
    if let Some(places) = ValuePlaces::find(alloc, rows, name, usize::MAX)? {
        keep(alloc, values, name, places)?;
    }
    Ok(true)
}

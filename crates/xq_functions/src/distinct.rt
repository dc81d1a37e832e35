//! Distinct values (F&O 3.1, section 14.2.1).
ghost use Rattle.std.specs.Prelude.{◌≡◌, ◌++◌, ◌∷◌, [], map, IfOk, IfErr, IfSome, OnOk};
ghost use Rattle.std.specs.List.{list_any};
ghost use Rattle.xq_atoms.specs.Atom.{atomic_of};
ghost use Rattle.xq_atoms.specs.Compare.{key, Characters};
ghost use Rattle.xq_trees.specs.Items.{Value, item_views};
ghost use Rattle.xq_meaning.specs.Functions as Functions;
ghost use Rattle.xq_functions.specs.Answers.{atomics};

use indexmap::IndexSet;
use std::alloc::Global;
use xq_atoms::{Atom, GroupKey, Want};
use xq_trees::{Item, Items};

/// The characters of a string, also of one without a type.
fn characters_of(atom: &Atom) -> Option<&str>
    ensures { IfSome result (λ text. key (atomic_of atom.now) ≡ Characters text.now) }
{
    match atom {
        Atom::Str(text) | Atom::Untyped(text) => Some(text.as_str()),
        _ => None,
    }
}

/// The atoms that equal no earlier one, where all are strings; each is looked for where it lies.
/// None where one is no string.
fn distinct_strings(alloc: Global, atoms: &[Atom]) -> Result<Option<Items>, Want>
    ensures values { IfOk result (λ found. IfSome found (λ items.
        item_views items ≡ map Value (Functions.distinct_values (atomics atoms.now)))) }
    ensures want { IfErr result (λ want. want ≡ Want.Memory) }
{
    let mut seen: IndexSet<String> = IndexSet::new(alloc);
    let mut items = Vec::new(alloc);
    for atom in atoms {
        let Some(text) = characters_of(atom) else {
            return Ok(None);
        };
        if !seen.contains(text) {
            let _ = seen.insert(String::from_str(alloc, text)?)?;
            items.push(Item::Atom(atom.try_clone(alloc)?))?;
        }
    }
    Ok(Some(items))
}

/// The atoms that equal no earlier one, whatever they are.
fn distinct_atoms(alloc: Global, atoms: &[Atom]) -> Result<Items, Want>
    ensures values { IfOk result (λ items.
        item_views items ≡ map Value (Functions.distinct_values (atomics atoms.now))) }
    ensures want { IfErr result (λ want. want ≡ Want.Memory) }
{
    let mut seen = IndexSet::new(alloc);
    let mut items = Vec::new(alloc);
    for atom in atoms {
        if seen.insert(GroupKey::of(alloc, Some(atom))?)? {
            items.push(Item::Atom(atom.try_clone(alloc)?))?;
        }
    }
    Ok(items)
}

/// The atoms that equal no earlier one, as they are (fn:distinct-values); equality is that of
/// grouping keys.
pub fn distinct_values(alloc: Global, atoms: &[Atom]) -> Result<Items, Want>
    ensures values { IfOk result (λ items.
        item_views items ≡ map Value (Functions.distinct_values (atomics atoms.now))) }
    ensures want { IfErr result (λ want. want ≡ Want.Memory) }
{
    match distinct_strings(alloc, atoms)? {
        Some(items) => Ok(items),
        None => distinct_atoms(alloc, atoms),
    }
}

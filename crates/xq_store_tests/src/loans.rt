//! The places of names and of values that a lender tells.

use std::alloc::Global;
use xq_atoms::Want;
use xq_sources::{Meter, RowLender};

/// What is done with a document, or told of the elements with a name or the attributes with a
/// value.
#[derive(Clone, Copy)]
pub enum Look {
    /// Its first rows are lent.
    Begin,
    /// Its rows are read to their end.
    Read,
    /// The elements with the name are looked for.
    Find(&'static str),
    /// They are looked for at so many rows.
    Count(&'static str, u64),
    /// Their places are these, or are not told.
    Told(&'static str, Option<&'static [u32]>),
    /// The attributes with the name are looked for.
    FindValues(&'static str),
    /// The places of those with the name and the value are these, or are not told.
    Valued(&'static str, &'static str, Option<&'static [u32]>),
}

/// Has the lender lend rows. It has no clause, so that who calls it carries none of the trait.
fn fetch<L: RowLender>(
    alloc: Global,
    lender: &mut L,
    tree: usize,
    (low, high): (u32, u32),
) -> Result<(), Want> {
    lender.fetch(alloc, tree, low, high)
}

/// Whether the places are these, or are not told.
fn are_these(told: Option<&[u32]>, wanted: Option<&'static [u32]>) -> bool {
    match (told, wanted) {
        (Some(places), Some(wanted)) => places == wanted,
        (None, None) => true,
        _ => false,
    }
}

/// Has the lender look for the elements with the name, and tells at how many rows it looked.
fn count_looks<L: RowLender>(
    alloc: Global,
    lender: &mut L,
    tree: usize,
    name: &str,
) -> Result<u64, Want> {
    let before = lender.meter().looks();
    let _ = lender.find_named(alloc, tree, name)?;
    Ok(lender.meter().looks().saturating_sub(before))
}

/// Does this, and tells whether what is told is what it says.
fn is_seen<L: RowLender>(
    alloc: Global,
    lender: &mut L,
    tree: usize,
    look: Look,
) -> Result<bool, Want> {
    match look {
        Look::Begin => fetch(alloc, lender, tree, (0, u32::MAX))?,
        Look::Read => fetch(alloc, lender, tree, (u32::MAX, u32::MAX))?,
        Look::Find(name) => {
            let _ = lender.find_named(alloc, tree, name)?;
        }
        Look::Count(name, looks) => {
            return Ok(count_looks(alloc, lender, tree, name)? == looks);
        }
        Look::Told(name, places) => return Ok(are_these(lender.named(tree, name), places)),
        Look::FindValues(name) => lender.find_values(alloc, tree, name)?,
        Look::Valued(name, value, places) => {
            return Ok(are_these(lender.valued(tree, name, value), places));
        }
    }
    Ok(true)
}

/// Whether the meters show the same rows, however many were looked at.
fn gave_none(before: Meter, after: Meter) -> bool {
    after.rows() == before.rows() && after.singles() == before.singles()
}

/// Whether each of these is told as it says, and but for the first rows none is counted as given.
pub fn are_seen<L: RowLender>(
    alloc: Global,
    lender: &mut L,
    looks: &[(usize, Look)],
) -> Result<bool, Want> {
    for (tree, look) in looks {
        let before = lender.meter();
        if !is_seen(alloc, lender, *tree, *look)? {
            return Ok(false);
        }
        if !matches!(look, Look::Begin) && !gave_none(before, lender.meter()) {
            return Ok(false);
        }
    }
    Ok(true)
}

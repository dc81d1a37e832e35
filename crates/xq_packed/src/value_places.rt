//! Where attributes stand among packed rows, found by their values.
ghost use Rattle.std.specs.Prelude.{◌≡◌, ◌↔◌, ◌*◌, ◌<◌, ◌≤◌, [], true, false, length, IfOk, IfErr, IfSome, IfNone, IsTrue, OnOk};
ghost use Rattle.std.specs.List.Sorted.{IsPartitionPoint, IsSortedBy, IsStableBy};
ghost use Rattle.std.specs.Ordering.{is_le, is_lt, nat_cmp};
ghost use Rattle.std.specs.Cmp.Lexicographic.{slice_cmp};
ghost use Rattle.xq_atoms.specs.Text.{Text};
ghost use Rattle.xq_trees.specs.Rows.{row_at};
ghost use Rattle.xq_packed.specs.Packed.{IsNumberOf};
ghost use Rattle.xq_packed.specs.Values.{is_named as is_named_lem, named, valued};
ghost use Rattle.xq_packed.specs.Found.{comes_before, rank, value_order, AreByValue};

use crate::{PackedRow, PackedRows};
use std::alloc::Global;
use std::cmp::Ordering;
use std::marker::Model;
use xq_atoms::Want;
use xq_trees::Kind;

/// How many bytes each place takes.
const PLACE: usize = 4;

/// The places of the attributes of one name among packed rows, in the order of their values: those
/// with one value stand beside one another, in document order. Contracts see the places.
///
/// A place takes four bytes, and no value is copied: values are compared where they lie. The rows
/// are not kept here, so that both can lie in one struct; each look-up is given them.
#[derive(Drop)]
pub struct ValuePlaces {
    places: Vec<u32>,
}

impl Model for ValuePlaces {
    ghost use Rattle.std.specs.Prelude.{ℕ, List};
    ghost use Rattle.std.specs.Coded.{coded_ℕ, coded_list};

    ghost Value = { List ℕ };

    ghost coded = { coded_list coded_ℕ };

    ghost view = { λ v. v.places.items };
}

/// The order of values: a shorter one comes first, and of two of one length that with the lesser
/// bytes. So numbered values, as `n1` to `n10`, mostly ascend in document order, and are sorted in
/// one walk.
fn compare(first: &str, second: &str) -> Ordering
    ensures { result ≡ slice_cmp nat_cmp (rank first.now) (rank second.now) }
{
    let lengths = first.len().cmp(&second.len());
    lengths.then_with(|| first.cmp(second))
}

/// The value of the row at a place; empty where there is none.
fn value_at(rows: &PackedRows, place: u32) -> &str
    ensures { result.now ≡ (row_at rows.now.rows place).label.value }
{
    match rows.get(place as usize) {
        Some(row) => row.value(),
        None => "",
    }
}

/// Whether the row at a place is that of an attribute whose name has this number.
fn is_named_at(rows: &PackedRows, at: usize, number: u32) -> bool
    requires { at < length rows.now.rows }
    ensures { (name : Text) → IsNumberOf rows.now.names number name
        → result ≡ is_named_lem name (row_at rows.now.rows at) }
{
    let row = PackedRow::new(rows, at);
    matches!(row.kind(), Kind::Attribute) && row.name_number() == number
}

/// How many attributes have the name with this number.
fn count_named(rows: &PackedRows, number: u32) -> usize
    ensures { (name : Text) → IsNumberOf rows.now.names number name
        → result ≡ length (named rows.now.rows name) }
{
    let mut count = 0usize;
    for at in 0..rows.len() {
        if !is_named_at(rows, at, number) {
            continue;
        }
        count += 1;
    }
    count
}

/// The places of the attributes whose name has this number, in document order: so many.
fn places_named(
    alloc: Global,
    rows: &PackedRows,
    number: u32,
    count: usize,
) -> Result<Vec<u32>, Want>
    ensures places { (name : Text) → IsNumberOf rows.now.names number name
        → IfOk result (λ places. places.items ≡ named rows.now.rows name) }
    ensures want { IfErr result (λ want. want ≡ Want.Memory) }
{
    let mut places = Vec::with_capacity(alloc, count)?;
    for at in 0..rows.len() {
        if !is_named_at(rows, at, number) {
            continue;
        }
        places.push(at as u32)?;
    }
    Ok(places)
}

/// Puts the places into the order of the values there; those of one value keep their order.
fn sort_by_value(rows: &PackedRows, places: &mut Vec<u32>) -> Result<(), Want>
    ensures sorted { OnOk result (IsSortedBy (comes_before rows.now.rows) places.new.items) }
    ensures stable { IsStableBy (comes_before rows.now.rows) places.old.items places.new.items }
    ensures length { length places.new.items ≡ length places.old.items }
    ensures want { IfErr result (λ want. want ≡ Want.Memory) }
{
    places.sort_by(|first, second| compare(value_at(rows, *first), value_at(rows, *second)))?;
    Ok(())
}

/// How many of the places come before those with the value, in the order of values.
fn count_before(rows: &PackedRows, places: &[u32], value: &str) -> usize
    ensures within { result ≤ length places.now }
    ensures point { IsSortedBy (comes_before rows.now.rows) places.now → IsPartitionPoint
        (λ place. is_lt (value_order rows.now.rows place value.now) ≡ true)
        (λ place. is_lt (value_order rows.now.rows place value.now) ≡ false)
        places.now result }
{
    places.partition_point(|place| compare(value_at(rows, *place), value).is_lt())
}

/// How many of the places come before those with greater values.
fn count_up_to(rows: &PackedRows, places: &[u32], value: &str) -> usize
    ensures within { result ≤ length places.now }
    ensures point { IsSortedBy (comes_before rows.now.rows) places.now → IsPartitionPoint
        (λ place. is_le (value_order rows.now.rows place value.now) ≡ true)
        (λ place. is_le (value_order rows.now.rows place value.now) ≡ false)
        places.now result }
{
    places.partition_point(|place| compare(value_at(rows, *place), value).is_le())
}

impl ValuePlaces {
    /// Looks for the attributes with the name. Gives none where their places would take more than
    /// `most` bytes, and takes none of these bytes then. While values that don't ascend are sorted,
    /// as many bytes again are taken for a while.
    pub fn find(
        alloc: Global,
        rows: &PackedRows,
        name: &str,
        most: usize,
    ) -> Result<Option<ValuePlaces>, Want>
        ensures found { IfOk result (λ found. IfSome found (λ places.
            AreByValue rows.now.rows name.now places)) }
        ensures within { IfOk result (λ found. IfSome found (λ places.
            4 * length places ≤ most)) }
        ensures none { IfOk result (λ found. IfNone found
            (most < 4 * length (named rows.now.rows name.now))) }
        ensures want { IfErr result (λ want. want ≡ Want.Memory) }
    {
        let Some(number) = rows.number_of(name) else {
            return Ok(Some(ValuePlaces {
                places: Vec::new(alloc),
            }));
        };
        let count = count_named(rows, number);
        if count > most / PLACE {
            return Ok(None);
        }
        let mut places = places_named(alloc, rows, number, count)?;
        sort_by_value(rows, &mut places)?;
        Ok(Some(ValuePlaces { places }))
    }

    /// How many places there are. Each takes four bytes.
    pub fn len(&self) -> usize
        ensures { result ≡ length self.now }
    {
        self.places.len()
    }

    /// Whether there is no place.
    pub fn is_empty(&self) -> bool
        ensures { IsTrue result ↔ (self.now ≡ []) }
    {
        self.len() == 0
    }

    /// The places of all attributes with the value, in document order, of the rows in which these
    /// were found.
    pub fn with_value(&self, rows: &PackedRows, value: &str) -> &[u32]
        ensures { (name : Text) → AreByValue rows.now.rows name self.now
            → result.now ≡ valued rows.now.rows name value.now }
    {
        let high = count_up_to(rows, &self.places, value);
        let low = count_before(rows, &self.places, value).min(high);
        &self.places[low..high]
    }
}

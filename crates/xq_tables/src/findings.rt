//! What an opening finds of documents: their addresses, and rows of them that are kept.
ghost use Rattle.std.specs.Prelude.{◌≡◌, ◌≢◌, ◌⊎◌, [], map, IfErr, IfOk};
ghost use Rattle.xq_trees.specs.Rows.{row_of};
ghost use Rattle.xq_tables.specs.Found.{IsFoundAt, found_address};

use crate::faults::OpenFault;
use std::alloc::Global;
use xq_atoms::Want;
use xq_packed::PackedRows;
use xq_trees::{NodeRow, RowTree};

/// How many bytes a packed row takes beside its value and its name.
const BYTES_OF_A_ROW: usize = 16;

/// How many bytes the place of a row's parent takes, and its place among those of its name.
const BYTES_OF_PLACES: usize = 8;

/// A document that an opening found: its address, and all its rows, or none where they are not kept.
#[derive(Drop)]
pub struct FoundDocument {
    pub address: String,
    pub rows: PackedRows,
}

/// Rows that were judged: how many there are, and the documents that they are of, in the order of
/// their addresses.
#[derive(Drop)]
pub(crate) struct JudgedRows {
    pub count: u64,
    pub documents: Vec<FoundDocument>,
}

/// How many bytes rows take at most where they are kept: with their values, and of each row the
/// place of its parent, and its place among those of its name.
pub fn kept_bytes(rows: &PackedRows) -> usize {
    rows.bytes()
        .saturating_add(rows.len().saturating_mul(BYTES_OF_PLACES))
}

/// The rows of a document, packed, where they take no more than so many bytes; else no row, and so
/// where memory is short.
fn packed_within(alloc: Global, rows: &[NodeRow], room: usize) -> PackedRows
    ensures { (result.rows ≡ []) ⊎ (result.rows ≡ map row_of rows.now) }
{
    let mut packed = PackedRows::new(alloc);
    if rows.len().saturating_mul(BYTES_OF_A_ROW + BYTES_OF_PLACES) > room {
        return packed;
    }
    match packed.extend(rows) {
        Ok(()) if kept_bytes(&packed) <= room => packed,
        _ => PackedRows::new(alloc),
    }
}

/// The document under the address, which is a good one, with its rows where they take no more than
/// so many bytes.
pub(crate) fn found_document(
    alloc: Global,
    address: Vec<u8>,
    document: &RowTree,
    room: usize,
) -> Result<FoundDocument, OpenFault>
    ensures address { IfOk result (λ found. found_address found ≡ address.items) }
    ensures kept { IfOk result (IsFoundAt document.now) }
    ensures err { IfErr result (λ fault. fault ≢ OpenFault.NotAStore) }
{
    let rows = packed_within(alloc, document.rows(), room);
    match String::from_utf8(address) {
        Ok(address) => Ok(FoundDocument { address, rows }),
        Err(_) => Err(OpenFault::Want(Want::Store)),
    }
}

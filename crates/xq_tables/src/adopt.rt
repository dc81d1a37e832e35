//! The adoption of a database: its tables are made where there are none, judged where they are those
//! of a store, and carried over where they are those of edition 1.
//!
//! They are judged by queries alone, whose rows are read one at a time.
ghost use Rattle.std.specs.Prelude.{◌≡◌, ◌≢◌, ◌≤◌, ◌↔◌, ◌∷◌, [], map, length, None, false, IfOk, IfErr, IfSome, OnErr, OnOk, IsPermutation, IsTrue};
ghost use Rattle.sqlite.specs.Held.{state};
ghost use Rattle.sqlite.specs.Listing.{understood};
ghost use Rattle.sqlite.specs.Given.{IsPlain};
ghost use Rattle.sqlite.specs.State.{HasCleanDisk};
ghost use Rattle.sqlite_trees.specs.View.{doubt};
ghost use Rattle.sqlite_value.specs.Order.{column};
ghost use Rattle.sqlite_value.specs.declared.value.Value.TheVariants.{Int};
ghost use Rattle.xq_tables.specs.Documents.{AreApart, AreLabels, HaveInts, IsOldStore, IsReady, IsStore};
ghost use Rattle.xq_tables.specs.Found.{AreFound};
ghost use Rattle.xq_tables.specs.Labels.{label_rows, IsStoreSchema};
ghost use Rattle.xq_tables.specs.Tables.{IsOldSchema, layout_rows};
ghost use Rattle.xq_tables.specs.private.Adopt.{AreBounded, HasLayout, HoldLabelled, IsEdition, IsPast, IsSelect, ShowsDocuments, ShowsIds, ShowsOthers, ShowsSome};
ghost use Rattle.xq_tables.specs.Outside.{StaysOutside};
ghost use Rattle.xq_tables.specs.private.Streams.{GivesRows, Stays};

use crate::faults::OpenFault;
use crate::findings::{FoundDocument, JudgedRows};
use crate::judgements::check_runs;
use crate::refusals::Refusal;
use sqlite::types::ValueRef;
use sqlite::{Alter, Connection, Error, Row, Rows};
use std::alloc::Global;
use xq_atoms::Want;

/// Reads the editions: one column for each row of the table `layout`.
fn read_layout<S: Alter>(conn: &mut Connection<S>) -> Result<Vec<Row>, Error>
    requires outside { conn.old.in_transaction ≡ false }
    requires tables { HasLayout (state S.Store conn.old).now.schema }
    ensures outside { StaysOutside S.Store conn.old conn.new }
    ensures same { IsReady (state S.Store conn.new)
        → (state S.Store conn.new).now ≡ (state S.Store conn.old).now }
    ensures rows { HasCleanDisk (state S.Store conn.new)
        → IfOk result (λ rows. IsPermutation (map (λ r. column r 1 ∷ [])
        (layout_rows (state S.Store conn.old).now)) rows.items) }
{
    let _idle = conn.is_autocommit();
    conn.query_all("SELECT edition FROM layout", &[])
}

/// Whether there is one edition, and it is this.
fn is_edition(rows: &[Row], edition: i64) -> bool
    ensures { IsTrue result ↔ (map (λ r. column r 0) rows.now ≡ Int edition ∷ []) }
{
    let [row] = rows else {
        return false;
    };
    match row.get_ref(0) {
        Ok(ValueRef::Int(found)) => found == edition,
        _ => false,
    }
}

/// Judges the edition: it must be this one.
fn check_edition<S: Alter>(conn: &mut Connection<S>, edition: i64) -> Result<(), OpenFault>
    requires outside { conn.old.in_transaction ≡ false }
    requires tables { HasLayout (state S.Store conn.old).now.schema }
    ensures outside { StaysOutside S.Store conn.old conn.new }
    ensures same { IsReady (state S.Store conn.new)
        → (state S.Store conn.new).now ≡ (state S.Store conn.old).now }
    ensures ok { HasCleanDisk (state S.Store conn.new)
        → OnOk result (IsEdition (state S.Store conn.old).now edition) }
    ensures err { HasCleanDisk (state S.Store conn.new)
        → IfErr result (λ fault. fault ≡ OpenFault.NotAStore
        → ¬ (IsEdition (state S.Store conn.old).now edition)) }
{
    let rows = read_layout(conn)?;
    if is_edition(&rows, edition) {
        Ok(())
    } else {
        Err(OpenFault::NotAStore)
    }
}

/// Whether an id is above the last one.
fn is_past(last: Option<i64>, id: i64) -> bool
    ensures { IsTrue result → IsPast last id }
{
    match last {
        Some(last) => last < id,
        None => true,
    }
}

/// The integer in a row's one column, where it is above the last one.
fn id_after(last: Option<i64>, row: &Row) -> Option<i64>
    ensures id { IfSome result (λ id. Int id ≡ column row.now 0) }
    ensures past { IfSome result (λ id. IsPast last id) }
{
    match row.get_ref(0) {
        Ok(ValueRef::Int(id)) if is_past(last, id) => Some(id),
        _ => None,
    }
}

/// Judges the rows of one column that an answer gives from here on: they must be integers that
/// rise. It says how many there are; an answer that would not end is refused.
fn check_rising<S: Alter>(rows: &mut Rows<'_, S>) -> Result<u64, OpenFault>
    ensures same_reference { rows.new.conn.ghost_name ≡ rows.old.conn.ghost_name }
    ensures mode { rows.old.conn.now.in_transaction ≡ false
        → rows.new.conn.now.in_transaction ≡ false }
    ensures clean { doubt (state S.Store rows.old.conn.now).is_clean
        ≤ doubt (state S.Store rows.new.conn.now).is_clean }
    ensures stays { IsReady (state S.Store rows.new.conn.now)
        → Stays (state S.Store rows.old.conn.now) (state S.Store rows.new.conn.now) }
    ensures ok { HasCleanDisk (state S.Store rows.new.conn.now)
        → IfOk result (λ count. GivesRows S.Store rows.old.conn.now rows.new.conn.now
        (λ given. AreApart given × HaveInts given × (count ≡ length given))) }
    ensures err { IfErr result (λ fault. fault ≢ OpenFault.NotAStore) }
{
    let mut last = None;
    for count in 0..u64::MAX {
        let row = match rows.next() {
            Ok(Some(row)) => row,
            Ok(None) => return Ok(count),
            Err(error) => return Err(OpenFault::Want(Want::from(Refusal(error)))),
        };
        let Some(id) = id_after(last, row) else {
            return Err(OpenFault::Want(Want::Store));
        };
        last = Some(id);
    }
    Err(OpenFault::Want(Want::Store))
}

/// Judges the ids that a query gives, and says how many there are.
pub fn check_ids<S: Alter>(conn: &mut Connection<S>, text: &str) -> Result<u64, OpenFault>
    requires outside { conn.old.in_transaction ≡ false }
    requires plain { IsReady (state S.Store conn.old)
        → IsPlain (understood (state S.Store conn.old).now.schema text.now) }
    ensures outside { StaysOutside S.Store conn.old conn.new }
    ensures same { IsReady (state S.Store conn.new)
        → (state S.Store conn.new).now ≡ (state S.Store conn.old).now }
    ensures ok { IsReady (state S.Store conn.new) → IfOk result (ShowsIds S.Store text.now
        conn.old) }
    ensures err { IfErr result (λ fault. fault ≢ OpenFault.NotAStore) }
{
    let _idle = conn.is_autocommit();
    let mut rows = conn.query(text, &[])?;
    check_rising(&mut rows)
}

/// Judges the nodes that a query gives by address and number, one address after another. It says how
/// many there are, and gives the documents, with rows that take no more than so many bytes.
fn check_documents<S: Alter>(
    alloc: Global,
    conn: &mut Connection<S>,
    text: &str,
    room: usize,
) -> Result<JudgedRows, OpenFault>
    requires outside { conn.old.in_transaction ≡ false }
    requires plain { IsReady (state S.Store conn.old)
        → IsPlain (understood (state S.Store conn.old).now.schema text.now) }
    requires select { IsReady (state S.Store conn.old)
        → IsSelect (understood (state S.Store conn.old).now.schema text.now) }
    ensures outside { StaysOutside S.Store conn.old conn.new }
    ensures ends_open { HasCleanDisk (state S.Store conn.new)
        → OnOk result (IsTrue (state S.Store conn.new).is_open) }
    ensures same { IsReady (state S.Store conn.new)
        → (state S.Store conn.new).now ≡ (state S.Store conn.old).now }
    ensures ok { IsReady (state S.Store conn.new) → IfOk result (λ judged. ShowsDocuments S.Store
        text.now conn.old judged.documents.items judged.count) }
    ensures err { IsReady (state S.Store conn.new)
        → IfErr result (λ fault. fault ≡ OpenFault.NotAStore
        → ShowsOthers S.Store text.now conn.old) }
{
    let _idle = conn.is_autocommit();
    let mut rows = conn.query(text, &[])?;
    check_runs(alloc, &mut rows, room)
}

/// Whether a query gives a row.
fn has_rows<S: Alter>(conn: &mut Connection<S>, text: &str) -> Result<bool, OpenFault>
    requires outside { conn.old.in_transaction ≡ false }
    requires plain { IsReady (state S.Store conn.old)
        → IsPlain (understood (state S.Store conn.old).now.schema text.now) }
    ensures outside { StaysOutside S.Store conn.old conn.new }
    ensures same { IsReady (state S.Store conn.new)
        → (state S.Store conn.new).now ≡ (state S.Store conn.old).now }
    ensures ok { HasCleanDisk (state S.Store conn.new) → IfOk result (ShowsSome text.now
        (state S.Store conn.old) (state S.Store conn.new)) }
    ensures err { IfErr result (λ fault. fault ≢ OpenFault.NotAStore) }
{
    let _idle = conn.is_autocommit();
    let rows = conn.query_all(text, &[])?;
    Ok(!rows.is_empty())
}

/// Whether labels are as they must be: one is 0, and none is below or above what one may be.
fn is_numbering(has_zero: bool, has_low: bool, has_high: bool) -> bool
    ensures { IsTrue result ↔ (IsTrue has_zero × (has_low ≡ false) × (has_high ≡ false)) }
{
    if !has_zero {
        return false;
    }
    if has_low {
        return false;
    }
    !has_high
}

/// Whether 0 is the number of the empty name, and each number is one that a label may have.
fn are_numbered<S: Alter>(conn: &mut Connection<S>) -> Result<bool, OpenFault>
    requires outside { conn.old.in_transaction ≡ false }
    requires tables { IsReady (state S.Store conn.old)
        → IsStoreSchema (state S.Store conn.old).now.schema }
    ensures outside { StaysOutside S.Store conn.old conn.new }
    ensures same { IsReady (state S.Store conn.new)
        → (state S.Store conn.new).now ≡ (state S.Store conn.old).now }
    ensures ok { IsReady (state S.Store conn.new)
        → IfOk result (λ are. AreBounded are (label_rows (state S.Store conn.old).now)) }
    ensures err { IfErr result (λ fault. fault ≢ OpenFault.NotAStore) }
{
    let has_zero = has_rows(conn, "SELECT id FROM label WHERE id = 0 AND name = ''")?;
    let has_low = has_rows(conn, "SELECT id FROM label WHERE id < 0")?;
    let has_high = has_rows(conn, "SELECT id FROM label WHERE id > 2147483647")?;
    Ok(is_numbering(has_zero, has_low, has_high))
}

/// Judges the labels.
fn check_labels<S: Alter>(conn: &mut Connection<S>) -> Result<(), OpenFault>
    requires outside { conn.old.in_transaction ≡ false }
    requires tables { IsReady (state S.Store conn.old)
        → IsStoreSchema (state S.Store conn.old).now.schema }
    ensures outside { StaysOutside S.Store conn.old conn.new }
    ensures same { IsReady (state S.Store conn.new)
        → (state S.Store conn.new).now ≡ (state S.Store conn.old).now }
    ensures ok { IsReady (state S.Store conn.new)
        → OnOk result (AreLabels (label_rows (state S.Store conn.old).now)) }
    ensures err { IsReady (state S.Store conn.new)
        → IfErr result (λ fault. fault ≡ OpenFault.NotAStore
        → ¬ (AreLabels (label_rows (state S.Store conn.old).now))) }
{
    if !are_numbered(conn)? {
        return Err(OpenFault::NotAStore);
    }
    let _count = check_ids(conn, "SELECT id FROM label ORDER BY id")?;
    Ok(())
}

/// Judges the nodes: each has a label, and they are those of documents. It gives these, with rows
/// that take no more than so many bytes.
fn check_nodes<S: Alter>(
    alloc: Global,
    conn: &mut Connection<S>,
    room: usize,
) -> Result<Vec<FoundDocument>, OpenFault>
    requires outside { conn.old.in_transaction ≡ false }
    requires tables { IsReady (state S.Store conn.old)
        → IsStoreSchema (state S.Store conn.old).now.schema }
    ensures outside { StaysOutside S.Store conn.old conn.new }
    ensures ends_open { HasCleanDisk (state S.Store conn.new)
        → OnOk result (IsTrue (state S.Store conn.new).is_open) }
    ensures same { IsReady (state S.Store conn.new)
        → (state S.Store conn.new).now ≡ (state S.Store conn.old).now }
    ensures ok { IsReady (state S.Store conn.new)
        → OnOk result (AreLabels (label_rows (state S.Store conn.old).now)
        → HoldLabelled (state S.Store conn.old).now) }
    ensures found { IsReady (state S.Store conn.new)
        → IfOk result (λ found. AreFound (state S.Store conn.old).now found.items) }
    ensures err { IsReady (state S.Store conn.new)
        → IfErr result (λ fault. fault ≡ OpenFault.NotAStore
        → ¬ (IsStore (state S.Store conn.old).now)) }
{
    let all = check_ids(conn, "SELECT rowid FROM node2 ORDER BY rowid")?;
    let judged = check_documents(
        alloc,
        conn,
        "SELECT pre, size, level, kind, name, value, address FROM node2 INNER JOIN label ON label = id ORDER BY address, pre",
        room,
    )?;
    let named = judged.count;
    if named == all {
        Ok(judged.documents)
    } else {
        Err(OpenFault::NotAStore)
    }
}

/// Judges the tables of edition 2. It gives the documents, with rows that take no more than so many
/// bytes.
pub fn check_store<S: Alter>(
    alloc: Global,
    conn: &mut Connection<S>,
    room: usize,
) -> Result<Vec<FoundDocument>, OpenFault>
    requires outside { conn.old.in_transaction ≡ false }
    requires tables { IsStoreSchema (state S.Store conn.old).now.schema }
    ensures outside { StaysOutside S.Store conn.old conn.new }
    ensures ends_open { HasCleanDisk (state S.Store conn.new)
        → OnOk result (IsTrue (state S.Store conn.new).is_open) }
    ensures same { IsReady (state S.Store conn.new)
        → (state S.Store conn.new).now ≡ (state S.Store conn.old).now }
    ensures ok { IsReady (state S.Store conn.new)
        → OnOk result (IsStore (state S.Store conn.old).now) }
    ensures found { IsReady (state S.Store conn.new)
        → IfOk result (λ found. AreFound (state S.Store conn.old).now found.items) }
    ensures err { IsReady (state S.Store conn.new)
        → IfErr result (λ fault. fault ≡ OpenFault.NotAStore
        → ¬ (IsStore (state S.Store conn.old).now)) }
{
    check_edition(conn, 2)?;
    check_labels(conn)?;
    check_nodes(alloc, conn, room)
}

/// Judges the tables of edition 1.
pub fn check_old<S: Alter>(alloc: Global, conn: &mut Connection<S>) -> Result<(), OpenFault>
    requires outside { conn.old.in_transaction ≡ false }
    requires tables { IsOldSchema (state S.Store conn.old).now.schema }
    ensures outside { StaysOutside S.Store conn.old conn.new }
    ensures ends_open { HasCleanDisk (state S.Store conn.new)
        → OnOk result (IsTrue (state S.Store conn.new).is_open) }
    ensures same { IsReady (state S.Store conn.new)
        → (state S.Store conn.new).now ≡ (state S.Store conn.old).now }
    ensures ok { IsReady (state S.Store conn.new)
        → OnOk result (IsOldStore (state S.Store conn.old).now) }
    ensures err { IsReady (state S.Store conn.new)
        → IfErr result (λ fault. fault ≡ OpenFault.NotAStore
        → ¬ (IsOldStore (state S.Store conn.old).now)) }
{
    check_edition(conn, 1)?;
    let _count = check_ids(conn, "SELECT rowid FROM node ORDER BY rowid")?;
    let _nodes = check_documents(
        alloc,
        conn,
        "SELECT pre, size, level, kind, name, value, address FROM node ORDER BY address, pre",
        0,
    )?;
    Ok(())
}

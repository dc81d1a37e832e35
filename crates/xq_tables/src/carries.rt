//! The documents of edition 1, carried over into the tables of edition 2.
ghost use Rattle.std.specs.Prelude.{◌≡◌, ◌≢◌, [], IfErr, IfOk, IsTrue, OnErr, OnOk, false, map, string_bytes};
ghost use Rattle.std.specs.FinMap.{keys};
ghost use Rattle.sqlite.specs.Held.{state};
ghost use Rattle.sqlite.specs.State.{HasCleanDisk};
ghost use Rattle.xq_tables.specs.Documents.{AreApart, HaveInts, IsOldStore, IsReady, documents_of};
ghost use Rattle.xq_tables.specs.Tables.{IsOldSchema, layout_rows};
ghost use Rattle.xq_tables.specs.private.Carries.{CarriesAll, CarriesOne, Empties, ForgetsEdition, ReadsOld};
ghost use Rattle.xq_tables.specs.Moves.{Moves};
ghost use Rattle.xq_tables.specs.private.Inside.{StaysInside};
ghost use Rattle.xq_tables.specs.Outside.{StaysOutside};

use crate::additions::insert_rows;
use crate::adopt::check_ids;
use crate::faults::OpenFault;
use crate::labels::LabelIds;
use crate::readings::node_rows;
use crate::refusals::Refusal;
use crate::rows::rest_as_texts;
use crate::tables::{make_labels, write_edition};
use sqlite::{Alter, Connection, Error, Row, Transaction, params};
use std::alloc::Global;
use xq_atoms::{Want, address_ok};
use xq_sources::LentRows;

/// Judges the ids of the table `layout`, which a DELETE needs.
pub fn check_layout<S: Alter>(conn: &mut Connection<S>) -> Result<(), OpenFault>
    requires outside { conn.old.in_transaction ≡ false }
    requires tables { IsReady (state S.Store conn.old)
        → IsOldSchema (state S.Store conn.old).now.schema }
    ensures outside { StaysOutside S.Store conn.old conn.new }
    ensures same { IsReady (state S.Store conn.new)
        → (state S.Store conn.new).now ≡ (state S.Store conn.old).now }
    ensures ok { IsReady (state S.Store conn.new)
        → OnOk result (AreApart (layout_rows (state S.Store conn.old).now)
        × HaveInts (layout_rows (state S.Store conn.old).now)) }
    ensures err { IfErr result (λ fault. fault ≢ OpenFault.NotAStore) }
{
    let _count = check_ids(conn, "SELECT rowid FROM layout ORDER BY rowid")?;
    Ok(())
}

/// Reads the addresses of edition 1 in the order of their bytes, one for each document.
pub fn read_old_addresses<S: Alter>(
    alloc: Global,
    conn: &mut Connection<S>,
) -> Result<Vec<String>, Refusal>
    requires outside { conn.old.in_transaction ≡ false }
    requires tables { IsReady (state S.Store conn.old)
        → IsOldSchema (state S.Store conn.old).now.schema }
    ensures outside { StaysOutside S.Store conn.old conn.new }
    ensures same { IsReady (state S.Store conn.new)
        → (state S.Store conn.new).now ≡ (state S.Store conn.old).now }
    ensures all { IsReady (state S.Store conn.new) → IsOldStore (state S.Store conn.old).now
        → IfOk result (λ all.
        map string_bytes all.items ≡ keys (documents_of (state S.Store conn.old).now)) }
{
    let _idle = conn.is_autocommit();
    let mut rows = conn.query(
        "SELECT address FROM node WHERE pre = 0 ORDER BY address",
        &[],
    )?;
    rest_as_texts(alloc, &mut rows)
}

/// The rows of an address in the table `node`.
fn read_old_rows<S: Alter>(
    transaction: &mut Transaction<'_, S>,
    address: &str,
) -> Result<Vec<Row>, Error>
    ensures inside { StaysInside S.Store transaction.old transaction.new }
    ensures rows { HasCleanDisk (state S.Store transaction.new.conn.now)
        → IfOk result (λ rows. ReadsOld address.now rows.items
        (state S.Store transaction.old.conn.now) (state S.Store transaction.new.conn.now)) }
{
    transaction.query_all(
        "SELECT pre, size, level, kind, name, value FROM node WHERE address = ?1 ORDER BY pre",
        params![address],
    )
}

/// Carries the document of one address over, whose rows alone are in hand.
fn carry_document<S: Alter>(
    alloc: Global,
    transaction: &mut Transaction<'_, S>,
    address: &str,
) -> Result<(), OpenFault>
    ensures inside { StaysInside S.Store transaction.old transaction.new }
    ensures carried { HasCleanDisk (state S.Store transaction.new.conn.now)
        → OnOk result (CarriesOne address.now (state S.Store transaction.old.conn.now)
        (state S.Store transaction.new.conn.now)) }
    ensures err { IfErr result (λ fault. fault ≢ OpenFault.NotAStore) }
{
    if !address_ok(address.as_bytes()) {
        return Err(OpenFault::Want(Want::Store));
    }
    let read = read_old_rows(transaction, address)?;
    let nodes = node_rows(alloc, &read)?;
    let mut names = LabelIds::new(alloc);
    let rows = LentRows::new(&nodes);
    Ok(insert_rows(transaction, &mut names, address, &rows)?)
}

/// Carries the documents of these addresses over, one after another.
fn carry_documents<S: Alter>(
    alloc: Global,
    transaction: &mut Transaction<'_, S>,
    addresses: &[String],
) -> Result<(), OpenFault>
    ensures inside { StaysInside S.Store transaction.old transaction.new }
    ensures carried { HasCleanDisk (state S.Store transaction.new.conn.now)
        → OnOk result (CarriesAll (map string_bytes addresses.now)
        (state S.Store transaction.old.conn.now) (state S.Store transaction.new.conn.now)) }
    ensures err { IfErr result (λ fault. fault ≢ OpenFault.NotAStore) }
{
    for address in addresses {
        carry_document(alloc, transaction, address.as_str())?;
    }
    Ok(())
}

/// Takes the edition out.
fn forget_edition<S: Alter>(transaction: &mut Transaction<'_, S>) -> Result<usize, Error>
    ensures inside { StaysInside S.Store transaction.old transaction.new }
    ensures made { HasCleanDisk (state S.Store transaction.new.conn.now)
        → OnOk result (ForgetsEdition (state S.Store transaction.old.conn.now).now
        (state S.Store transaction.new.conn.now).now) }
    ensures mode { HasCleanDisk (state S.Store transaction.new.conn.now)
        → OnOk result (IsTrue (state S.Store transaction.new.conn.now).in_transaction) }
{
    transaction.execute("DELETE FROM layout", &[])
}

/// Empties the table `node`.
fn empty_nodes<S: Alter>(transaction: &mut Transaction<'_, S>) -> Result<usize, Error>
    ensures inside { StaysInside S.Store transaction.old transaction.new }
    ensures made { HasCleanDisk (state S.Store transaction.new.conn.now)
        → OnOk result (Empties (state S.Store transaction.old.conn.now).now
        (state S.Store transaction.new.conn.now).now) }
    ensures mode { HasCleanDisk (state S.Store transaction.new.conn.now)
        → OnOk result (IsTrue (state S.Store transaction.new.conn.now).in_transaction) }
{
    transaction.execute("DELETE FROM node", &[])
}

/// Makes the tables of edition 2, puts the documents of these addresses into them, and empties the
/// table `node`.
fn carry_inside<S: Alter>(
    alloc: Global,
    transaction: &mut Transaction<'_, S>,
    addresses: &[String],
) -> Result<(), OpenFault>
    ensures inside { StaysInside S.Store transaction.old transaction.new }
    ensures moved { HasCleanDisk (state S.Store transaction.new.conn.now)
        → OnOk result (Moves (map string_bytes addresses.now)
        (state S.Store transaction.old.conn.now).now
        (state S.Store transaction.new.conn.now).now) }
    ensures mode { HasCleanDisk (state S.Store transaction.new.conn.now)
        → OnOk result (IsTrue (state S.Store transaction.new.conn.now).in_transaction) }
    ensures err { IfErr result (λ fault. fault ≢ OpenFault.NotAStore) }
{
    make_labels(transaction)?;
    carry_documents(alloc, transaction, addresses)?;
    let _gone = forget_edition(transaction)?;
    let _edition = write_edition(transaction)?;
    let _empty = empty_nodes(transaction)?;
    Ok(())
}

/// Carries the documents into tables of this edition in one transaction, all or nothing.
pub fn move_documents<S: Alter>(
    alloc: Global,
    conn: &mut Connection<S>,
    addresses: &[String],
) -> Result<(), OpenFault>
    requires { conn.old.in_transaction ≡ false }
    ensures outside { StaysOutside S.Store conn.old conn.new }
    ensures ends_open { HasCleanDisk (state S.Store conn.new)
        → OnOk result (IsTrue (state S.Store conn.new).is_open) }
    ensures kept { IsReady (state S.Store conn.new)
        → OnErr result ((state S.Store conn.new).now ≡ (state S.Store conn.old).now) }
    ensures moved { IsReady (state S.Store conn.new)
        → OnOk result (Moves (map string_bytes addresses.now) (state S.Store conn.old).now
        (state S.Store conn.new).now) }
    ensures err { IfErr result (λ fault. fault ≢ OpenFault.NotAStore) }
{
    let _idle = conn.is_autocommit();
    let mut transaction = conn.transaction();
    carry_inside(alloc, &mut transaction, addresses)?;
    Ok(transaction.commit()?)
}

//! What an adoption makes of a database, by its tables.
ghost use Rattle.std.specs.Prelude.{◌≡◌, ◌≢◌, IfErr, IfOk, IfSome, IsTrue, List, OnErr, OnOk, false, length};
ghost use Rattle.std.specs.FinMap.{keys};
ghost use Rattle.sqlite.specs.Held.{state};
ghost use Rattle.sqlite.specs.State.{HasCleanDisk};
ghost use Rattle.xq_trees.specs.Tree.{Tree};
ghost use Rattle.xq_tables.specs.Documents.{IsOldStore, IsReady, IsStore, documents_of};
ghost use Rattle.xq_tables.specs.Labels.{IsStoreSchema};
ghost use Rattle.xq_tables.specs.Tables.{IsOldSchema, no_schema};
ghost use Rattle.xq_store.specs.private.Adopted.{IsAdopted, IsNoStore};
ghost use Rattle.xq_tables.specs.Moves.{HasCarried};
ghost use Rattle.xq_store.specs.private.Keeps.{AreOf};
ghost use Rattle.xq_tables.specs.Outside.{StaysOutside};
ghost use Rattle.xq_tables.specs.Editions.{AreTables};
ghost use Rattle.xq_store.specs.private.Shelves.{AreFronts};
ghost use Rattle.xq_tables.specs.Writes.{IsEmptyStore};

use crate::shelves::Cache;
use sqlite::{Alter, Connection};
use std::alloc::Global;
use xq_atoms::Want;
use xq_sources::Addresses;
use xq_tables::schemas::Tables;
use xq_tables::{
    OpenFault, check_layout, check_old, check_store, make_tables, move_documents,
    read_old_addresses,
};

/// The addresses of edition 1, with no row of a document.
fn list_old<S: Alter>(alloc: Global, conn: &mut Connection<S>) -> Result<Cache, Want>
    requires outside { conn.old.in_transaction ≡ false }
    requires tables { IsReady (state S.Store conn.old)
        → IsOldSchema (state S.Store conn.old).now.schema }
    ensures outside { StaysOutside S.Store conn.old conn.new }
    ensures same { IsReady (state S.Store conn.new)
        → (state S.Store conn.new).now ≡ (state S.Store conn.old).now }
    ensures listed { IsReady (state S.Store conn.new) → IsOldStore (state S.Store conn.old).now
        → IfOk result (λ shelf.
        shelf.addresses.value ≡ keys (documents_of (state S.Store conn.old).now)) }
    ensures fronts { IfOk result (λ shelf. (trees : List Tree)
        → length trees ≡ length shelf.addresses.value → AreFronts trees shelf.fronts.items) }
{
    let list = read_old_addresses(alloc, conn)?;
    let Some(addresses) = Addresses::from_rising(list) else {
        return Err(Want::Store);
    };
    Cache::unread(alloc, addresses)
}

/// Judges the tables of edition 1, and carries their documents over in one transaction.
fn carry_over<S: Alter>(alloc: Global, conn: &mut Connection<S>) -> Result<Option<Cache>, OpenFault>
    requires outside { conn.old.in_transaction ≡ false }
    requires tables { IsOldSchema (state S.Store conn.old).now.schema }
    ensures outside { StaysOutside S.Store conn.old conn.new }
    ensures ends_open { HasCleanDisk (state S.Store conn.new)
        → OnOk result (IsTrue (state S.Store conn.new).is_open) }
    ensures kept { IsReady (state S.Store conn.new)
        → OnErr result ((state S.Store conn.new).now ≡ (state S.Store conn.old).now) }
    ensures carried { IsReady (state S.Store conn.new) → OnOk result (HasCarried
        (state S.Store conn.old).now (state S.Store conn.new).now) }
    ensures err { IsReady (state S.Store conn.new)
        → IfErr result (λ fault. fault ≡ OpenFault.NotAStore
        → ¬ (IsOldStore (state S.Store conn.old).now)) }
    ensures shelf { IfOk result (λ kept. IfSome kept (λ shelf. IsReady (state S.Store conn.new)
        → AreOf (state S.Store conn.new).now shelf.addresses.value shelf.fronts.items)) }
{
    check_old(alloc, conn)?;
    check_layout(conn)?;
    let shelf = list_old(alloc, conn)?;
    move_documents(alloc, conn, shelf.addresses.as_slice())?;
    Ok(Some(shelf))
}

/// Makes the tables where there is none.
fn adopt_blank<S: Alter>(
    alloc: Global,
    conn: &mut Connection<S>,
) -> Result<Option<Cache>, OpenFault>
    requires outside { conn.old.in_transaction ≡ false }
    requires tables { (state S.Store conn.old).now.schema ≡ no_schema }
    ensures outside { StaysOutside S.Store conn.old conn.new }
    ensures ends_open { HasCleanDisk (state S.Store conn.new)
        → OnOk result (IsTrue (state S.Store conn.new).is_open) }
    ensures kept { IsReady (state S.Store conn.new)
        → OnErr result ((state S.Store conn.new).now ≡ (state S.Store conn.old).now) }
    ensures made { IsReady (state S.Store conn.new)
        → OnOk result (IsEmptyStore (state S.Store conn.new).now) }
    ensures err { IfErr result (λ fault. fault ≢ OpenFault.NotAStore) }
    ensures shelf { IfOk result (λ kept. IfSome kept (λ shelf. IsReady (state S.Store conn.new)
        → AreOf (state S.Store conn.new).now shelf.addresses.value shelf.fronts.items)) }
{
    make_tables(conn)?;
    Ok(Cache::empty(alloc))
}

/// Takes the tables of edition 2 as they stand. Of their rows so many bytes are kept at most.
fn adopt_store<S: Alter>(
    alloc: Global,
    conn: &mut Connection<S>,
    bound: usize,
) -> Result<Option<Cache>, OpenFault>
    requires outside { conn.old.in_transaction ≡ false }
    requires tables { IsStoreSchema (state S.Store conn.old).now.schema }
    ensures outside { StaysOutside S.Store conn.old conn.new }
    ensures ends_open { HasCleanDisk (state S.Store conn.new)
        → OnOk result (IsTrue (state S.Store conn.new).is_open) }
    ensures same { IsReady (state S.Store conn.new)
        → (state S.Store conn.new).now ≡ (state S.Store conn.old).now }
    ensures found { IsReady (state S.Store conn.new)
        → OnOk result (IsStore (state S.Store conn.old).now) }
    ensures err { IsReady (state S.Store conn.new)
        → IfErr result (λ fault. fault ≡ OpenFault.NotAStore
        → ¬ (IsStore (state S.Store conn.old).now)) }
    ensures shelf { IfOk result (λ kept. IfSome kept (λ shelf. IsReady (state S.Store conn.new)
        → AreOf (state S.Store conn.new).now shelf.addresses.value shelf.fronts.items)) }
{
    let found = check_store(alloc, conn, bound)?;
    let shelf = Cache::of_found(alloc, found)?;
    Ok(Some(shelf))
}

/// Adopts these tables. What is kept of the documents is given, where there is memory for it: of
/// rows that were read so many bytes at most.
pub(crate) fn adopt_tables<S: Alter>(
    alloc: Global,
    conn: &mut Connection<S>,
    tables: Tables,
    bound: usize,
) -> Result<Option<Cache>, OpenFault>
    requires outside { conn.old.in_transaction ≡ false }
    requires tables { AreTables tables (state S.Store conn.old).now.schema }
    ensures outside { StaysOutside S.Store conn.old conn.new }
    ensures ends_open { HasCleanDisk (state S.Store conn.new)
        → OnOk result (IsTrue (state S.Store conn.new).is_open) }
    ensures kept { IsReady (state S.Store conn.new)
        → OnErr result ((state S.Store conn.new).now ≡ (state S.Store conn.old).now) }
    ensures adopted { IsReady (state S.Store conn.new)
        → OnOk result (IsAdopted (state S.Store conn.old).now (state S.Store conn.new).now) }
    ensures refused { IsReady (state S.Store conn.new)
        → IfErr result (λ fault. fault ≡ OpenFault.NotAStore
        → IsNoStore (state S.Store conn.old).now) }
    ensures shelf { IfOk result (λ kept. IfSome kept (λ shelf. IsReady (state S.Store conn.new)
        → AreOf (state S.Store conn.new).now shelf.addresses.value shelf.fronts.items)) }
{
    match tables {
        Tables::Blank => adopt_blank(alloc, conn),
        Tables::Old => carry_over(alloc, conn),
        Tables::Current => adopt_store(alloc, conn, bound),
    }
}

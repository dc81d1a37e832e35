//! The addresses of the documents, as they are kept.
ghost use Rattle.std.specs.Prelude.{◌≡◌, IfOk, IsTrue, OnOk, false};
ghost use Rattle.sqlite.specs.Held.{state};
ghost use Rattle.sqlite.specs.State.{HasCleanDisk};
ghost use Rattle.xq_tables.specs.Documents.{IsReady, IsStore};
ghost use Rattle.xq_tables.specs.Labels.{IsStoreSchema};
ghost use Rattle.xq_store.specs.declared.shelves.Cache.{Cache};
ghost use Rattle.xq_store.specs.private.Keeps.{AreOf};
ghost use Rattle.xq_tables.specs.Outside.{StaysOutside};

use crate::shelves::Cache;
use sqlite::{Alter, Connection};
use std::alloc::Global;
use xq_atoms::Want;
use xq_sources::Addresses;
use xq_tables::list_addresses;

/// The addresses of the documents in the tables, with no row of one.
pub(crate) fn list_shelf<S: Alter>(alloc: Global, conn: &mut Connection<S>) -> Result<Cache, Want>
    requires { conn.old.in_transaction ≡ false }
    ensures outside { StaysOutside S.Store conn.old conn.new }
    ensures ends_open { HasCleanDisk (state S.Store conn.new)
        → OnOk result (IsTrue (state S.Store conn.new).is_open) }
    ensures same { IsReady (state S.Store conn.new)
        → IsStoreSchema (state S.Store conn.old).now.schema
        → (state S.Store conn.new).now ≡ (state S.Store conn.old).now }
    ensures shelf { IsReady (state S.Store conn.new) → IsStore (state S.Store conn.old).now
        → IfOk result (λ shelf. AreOf (state S.Store conn.old).now shelf.addresses.value
        shelf.fronts.items) }
{
    let list = list_addresses(alloc, conn)?;
    let Some(addresses) = Addresses::from_rising(list) else {
        return Err(Want::Store);
    };
    Cache::unread(alloc, addresses)
}

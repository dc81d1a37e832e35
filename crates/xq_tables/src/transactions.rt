//! The writes of a store, each in one transaction.
ghost use Rattle.std.specs.Prelude.{◌≡◌, ◌≤◌, length, map, false, IfOk, OnErr, OnOk, IsTrue};
ghost use Rattle.sqlite.specs.State.{HasCleanDisk};
ghost use Rattle.sqlite.specs.Held.{state};
ghost use Rattle.xq_tables.specs.Documents.{IsReady, is_at};
ghost use Rattle.xq_tables.specs.Nodes.{cells};
ghost use Rattle.xq_tables.specs.Writes.{AreFrom, Deletes, PutsOver};
ghost use Rattle.xq_tables.specs.Outside.{StaysOutside};
ghost use Rattle.xq_trees.specs.Tree.{most_nodes};

use crate::refusals::Refusal;
use crate::replacements::replace_rows;
use crate::statements::delete_rows;
use sqlite::{Alter, Connection};
use std::alloc::Global;
use xq_sources::LentRows;

/// Takes the rows of an address out, and says how many there were.
pub fn drop_rows<S: Alter>(conn: &mut Connection<S>, address: &str) -> Result<usize, Refusal>
    requires { conn.old.in_transaction ≡ false }
    ensures outside { StaysOutside S.Store conn.old conn.new }
    ensures ends_open { HasCleanDisk (state S.Store conn.new)
        → OnOk result (IsTrue (state S.Store conn.new).is_open) }
    ensures kept { IsReady (state S.Store conn.new)
        → OnErr result ((state S.Store conn.new).now ≡ (state S.Store conn.old).now) }
    ensures dropped { IsReady (state S.Store conn.new)
        → IfOk result (Deletes (is_at address.now) (state S.Store conn.old).now
        (state S.Store conn.new).now) }
{
    let _idle = conn.is_autocommit();
    let mut transaction = conn.transaction();
    let count = delete_rows(&mut transaction, address)?;
    transaction.commit()?;
    Ok(count)
}

/// Puts these rows in the place of those of the address, and says whether there were any. `kept`
/// are the first of the old rows, as many as are kept.
pub fn put_rows<S: Alter>(
    alloc: Global,
    conn: &mut Connection<S>,
    address: &str,
    kept: &LentRows<'_>,
    rows: &LentRows<'_>,
) -> Result<bool, Refusal>
    requires outside { conn.old.in_transaction ≡ false }
    requires numbered { AreFrom 0 rows.now }
    requires few { length rows.now ≤ most_nodes }
    ensures outside { StaysOutside S.Store conn.old conn.new }
    ensures ends_open { HasCleanDisk (state S.Store conn.new)
        → OnOk result (IsTrue (state S.Store conn.new).is_open) }
    ensures kept { IsReady (state S.Store conn.new)
        → OnErr result ((state S.Store conn.new).now ≡ (state S.Store conn.old).now) }
    ensures put { IsReady (state S.Store conn.new)
        → IfOk result (PutsOver address.now kept.now (map cells rows.now)
        (state S.Store conn.old).now (state S.Store conn.new).now) }
{
    let _idle = conn.is_autocommit();
    let mut transaction = conn.transaction();
    let replaced = replace_rows(alloc, &mut transaction, address, kept, rows)?;
    transaction.commit()?;
    Ok(replaced)
}

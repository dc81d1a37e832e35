//! The making of the tables.
ghost use Rattle.std.specs.Prelude.{◌≡◌, false, OnErr, OnOk, IsTrue};
ghost use Rattle.sqlite.specs.State.{HasCleanDisk};
ghost use Rattle.sqlite.specs.Held.{state};
ghost use Rattle.xq_tables.specs.Documents.{IsReady};
ghost use Rattle.xq_tables.specs.Writes.{IsEmptyStore};
ghost use Rattle.xq_tables.specs.private.Statements.{MakesLabel, MakesLabels, MakesLayout, MakesNodes, WritesEdition, WritesZero};
ghost use Rattle.xq_tables.specs.private.Inside.{StaysInside};
ghost use Rattle.xq_tables.specs.Outside.{StaysOutside};
ghost use Rattle.xq_tables.specs.Tables.{no_schema};

use crate::refusals::Refusal;
use sqlite::{Alter, Connection, Error, Transaction};

/// Makes the table of the edition.
fn make_layout<S: Alter>(transaction: &mut Transaction<'_, S>) -> Result<usize, Error>
    ensures inside { StaysInside S.Store transaction.old transaction.new }
    ensures made { HasCleanDisk (state S.Store transaction.new.conn.now)
        → OnOk result (MakesLayout (state S.Store transaction.old.conn.now).now
        (state S.Store transaction.new.conn.now).now) }
    ensures mode { HasCleanDisk (state S.Store transaction.new.conn.now)
        → OnOk result (IsTrue (state S.Store transaction.new.conn.now).in_transaction) }
{
    transaction.execute("CREATE TABLE layout (edition INTEGER NOT NULL) STRICT", &[])
}

/// Makes the table of the labels.
fn make_label<S: Alter>(transaction: &mut Transaction<'_, S>) -> Result<usize, Error>
    ensures inside { StaysInside S.Store transaction.old transaction.new }
    ensures made { HasCleanDisk (state S.Store transaction.new.conn.now)
        → OnOk result (MakesLabel (state S.Store transaction.old.conn.now).now
        (state S.Store transaction.new.conn.now).now) }
    ensures mode { HasCleanDisk (state S.Store transaction.new.conn.now)
        → OnOk result (IsTrue (state S.Store transaction.new.conn.now).in_transaction) }
{
    transaction.execute(
        "CREATE TABLE label (id INTEGER PRIMARY KEY, name TEXT NOT NULL UNIQUE) STRICT",
        &[],
    )
}

/// Makes the table of the nodes.
fn make_nodes<S: Alter>(transaction: &mut Transaction<'_, S>) -> Result<usize, Error>
    ensures inside { StaysInside S.Store transaction.old transaction.new }
    ensures made { HasCleanDisk (state S.Store transaction.new.conn.now)
        → OnOk result (MakesNodes (state S.Store transaction.old.conn.now).now
        (state S.Store transaction.new.conn.now).now) }
    ensures mode { HasCleanDisk (state S.Store transaction.new.conn.now)
        → OnOk result (IsTrue (state S.Store transaction.new.conn.now).in_transaction) }
{
    transaction.execute(
        "CREATE TABLE node2 (address TEXT NOT NULL, pre INTEGER NOT NULL, size INTEGER NOT NULL, level INTEGER NOT NULL, kind INTEGER NOT NULL, label INTEGER NOT NULL, value TEXT NOT NULL, PRIMARY KEY (address, pre)) STRICT",
        &[],
    )
}

/// Writes the label of the empty name, 0.
fn write_zero<S: Alter>(transaction: &mut Transaction<'_, S>) -> Result<usize, Error>
    ensures inside { StaysInside S.Store transaction.old transaction.new }
    ensures made { HasCleanDisk (state S.Store transaction.new.conn.now)
        → OnOk result (WritesZero (state S.Store transaction.old.conn.now).now
        (state S.Store transaction.new.conn.now).now) }
    ensures mode { HasCleanDisk (state S.Store transaction.new.conn.now)
        → OnOk result (IsTrue (state S.Store transaction.new.conn.now).in_transaction) }
{
    transaction.execute("INSERT INTO label (id, name) VALUES (0, '')", &[])
}

/// Makes the tables of labels and nodes, with the label of the empty name.
pub fn make_labels<S: Alter>(transaction: &mut Transaction<'_, S>) -> Result<(), Error>
    ensures inside { StaysInside S.Store transaction.old transaction.new }
    ensures made { HasCleanDisk (state S.Store transaction.new.conn.now)
        → OnOk result (MakesLabels (state S.Store transaction.old.conn.now).now
        (state S.Store transaction.new.conn.now).now) }
    ensures mode { HasCleanDisk (state S.Store transaction.new.conn.now)
        → OnOk result (IsTrue (state S.Store transaction.new.conn.now).in_transaction) }
{
    let _label = make_label(transaction)?;
    let _nodes = make_nodes(transaction)?;
    let _zero = write_zero(transaction)?;
    Ok(())
}

/// Writes the edition, 2.
pub fn write_edition<S: Alter>(transaction: &mut Transaction<'_, S>) -> Result<usize, Error>
    ensures inside { StaysInside S.Store transaction.old transaction.new }
    ensures made { HasCleanDisk (state S.Store transaction.new.conn.now)
        → OnOk result (WritesEdition (state S.Store transaction.old.conn.now).now
        (state S.Store transaction.new.conn.now).now) }
    ensures mode { HasCleanDisk (state S.Store transaction.new.conn.now)
        → OnOk result (IsTrue (state S.Store transaction.new.conn.now).in_transaction) }
{
    transaction.execute("INSERT INTO layout (edition) VALUES (2)", &[])
}

/// Makes the tables, and writes the edition.
fn make_inside<S: Alter>(transaction: &mut Transaction<'_, S>) -> Result<(), Error>
    ensures inside { StaysInside S.Store transaction.old transaction.new }
    ensures made { HasCleanDisk (state S.Store transaction.new.conn.now)
        → OnOk result ((state S.Store transaction.old.conn.now).now.schema ≡ no_schema
        → IsEmptyStore (state S.Store transaction.new.conn.now).now) }
    ensures mode { HasCleanDisk (state S.Store transaction.new.conn.now)
        → OnOk result (IsTrue (state S.Store transaction.new.conn.now).in_transaction) }
{
    let _layout = make_layout(transaction)?;
    make_labels(transaction)?;
    let _edition = write_edition(transaction)?;
    Ok(())
}

/// Makes the tables of a store without a document, all or nothing.
pub fn make_tables<S: Alter>(conn: &mut Connection<S>) -> Result<(), Refusal>
    requires { conn.old.in_transaction ≡ false }
    ensures outside { StaysOutside S.Store conn.old conn.new }
    ensures ends_open { HasCleanDisk (state S.Store conn.new)
        → OnOk result (IsTrue (state S.Store conn.new).is_open) }
    ensures kept { IsReady (state S.Store conn.new)
        → OnErr result ((state S.Store conn.new).now ≡ (state S.Store conn.old).now) }
    ensures made { IsReady (state S.Store conn.new)
        → (state S.Store conn.old).now.schema ≡ no_schema
        → OnOk result (IsEmptyStore (state S.Store conn.new).now) }
{
    let _idle = conn.is_autocommit();
    let mut transaction = conn.transaction();
    make_inside(&mut transaction)?;
    Ok(transaction.commit()?)
}

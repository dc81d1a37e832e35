//! What rows of the tables are read as, and the reading of an answer to its end.
ghost use Rattle.std.specs.Prelude.{◌≡◌, ◌≢◌, ◌≤◌, false, None, IfErr, IfOk, IfSome, IsTrue, OnOk, map, string_bytes};
ghost use Rattle.sqlite.specs.State.{HasCleanDisk};
ghost use Rattle.sqlite.specs.Held.{state};
ghost use Rattle.sqlite_trees.specs.View.{doubt};
ghost use Rattle.sqlite_value.specs.Order.{column};
ghost use Rattle.sqlite_value.specs.declared.value.Value.TheVariants.{Text};
ghost use Rattle.xq_trees.specs.Rows.{placed};
ghost use Rattle.xq_tables.specs.Documents.{IsReady};
ghost use Rattle.xq_tables.specs.Nodes.{cells};
ghost use Rattle.xq_trees.specs.Codes.{kind_number};
ghost use Rattle.xq_tables.specs.private.Columns.{IsReadable, node_of};
ghost use Rattle.xq_tables.specs.Faults.{want_of};
ghost use Rattle.xq_tables.specs.private.Streams.{GivesRows, Stays};

use crate::refusals::Refusal;
use sqlite::{Alter, Error, ErrorCode, Row, Rows};
use std::alloc::Global;
use xq_atoms::Want;
use xq_trees::{Kind, NodeRow};

/// The kind that a number stands for in the tables.
fn kind_of(number: u32) -> Option<Kind>
    ensures some { IfSome result (λ kind. number ≡ kind_number kind) }
    ensures none { result ≡ None → (kind : _) → number ≢ kind_number kind }
{
    match number {
        0 => Some(Kind::Document),
        1 => Some(Kind::Element),
        2 => Some(Kind::Attribute),
        3 => Some(Kind::Text),
        4 => Some(Kind::Comment),
        5 => Some(Kind::ProcessingInstruction),
        _ => None,
    }
}

/// The node of a row with the columns pre, size, level, kind, name and value. A row that is no
/// node's tells of a damaged database.
pub fn node_row(row: &Row) -> Result<NodeRow, Refusal>
    ensures ok { IfOk result (λ node. cells (placed node) ≡ node_of row.now) }
    ensures err { IfErr result (λ refusal. want_of refusal.0 ≡ Want.Store
        → ¬ (IsReadable (node_of row.now))) }
{
    let pre = row.get::<u32>(0)?;
    let size = row.get::<u32>(1)?;
    let level = row.get::<u32>(2)?;
    let number = row.get::<u32>(3)?;
    let name = row.get::<String>(4)?;
    let value = row.get::<String>(5)?;
    let Some(kind) = kind_of(number) else {
        return Err(Refusal(Error::SqliteFailure(ErrorCode::DatabaseCorrupt)));
    };
    Ok(NodeRow {
        pre,
        size,
        level,
        kind,
        name,
        value,
    })
}

/// The text of a row's one column.
fn text_of(row: &Row) -> Result<String, Refusal>
    ensures { IfOk result (λ text. Text (string_bytes text) ≡ column row.now 0) }
{
    Ok(row.get::<String>(0)?)
}

/// The nodes of the rows that an answer gives from here on. One that would not end is refused.
pub fn rest_as_nodes<S: Alter>(
    alloc: Global,
    rows: &mut Rows<'_, S>,
) -> Result<Vec<NodeRow>, Refusal>
    ensures same_reference { rows.new.conn.ghost_name ≡ rows.old.conn.ghost_name }
    ensures mode { rows.old.conn.now.in_transaction ≡ false
        → rows.new.conn.now.in_transaction ≡ false }
    ensures clean { doubt (state S.Store rows.old.conn.now).is_clean
        ≤ doubt (state S.Store rows.new.conn.now).is_clean }
    ensures stays { IsReady (state S.Store rows.new.conn.now)
        → Stays (state S.Store rows.old.conn.now) (state S.Store rows.new.conn.now) }
    ensures ends_open { HasCleanDisk (state S.Store rows.new.conn.now)
        → OnOk result (IsTrue (state S.Store rows.new.conn.now).is_open) }
    ensures nodes { HasCleanDisk (state S.Store rows.new.conn.now)
        → IfOk result (λ nodes. GivesRows S.Store rows.old.conn.now rows.new.conn.now
        (λ given. map cells (map placed nodes.items) ≡ map node_of given)) }
{
    let mut nodes = Vec::new(alloc);
    for _ in 0..u64::MAX {
        let Some(row) = rows.next()? else {
            return Ok(nodes);
        };
        nodes.push(node_row(row)?)?;
    }
    Err(Refusal(Error::SqliteFailure(ErrorCode::TooBig)))
}

/// The texts of the rows of one column that an answer gives from here on. One that would not end
/// is refused.
pub fn rest_as_texts<S: Alter>(
    alloc: Global,
    rows: &mut Rows<'_, S>,
) -> Result<Vec<String>, Refusal>
    ensures same_reference { rows.new.conn.ghost_name ≡ rows.old.conn.ghost_name }
    ensures mode { rows.old.conn.now.in_transaction ≡ false
        → rows.new.conn.now.in_transaction ≡ false }
    ensures clean { doubt (state S.Store rows.old.conn.now).is_clean
        ≤ doubt (state S.Store rows.new.conn.now).is_clean }
    ensures stays { IsReady (state S.Store rows.new.conn.now)
        → Stays (state S.Store rows.old.conn.now) (state S.Store rows.new.conn.now) }
    ensures ends_open { HasCleanDisk (state S.Store rows.new.conn.now)
        → OnOk result (IsTrue (state S.Store rows.new.conn.now).is_open) }
    ensures texts { HasCleanDisk (state S.Store rows.new.conn.now)
        → IfOk result (λ texts. GivesRows S.Store rows.old.conn.now rows.new.conn.now
        (λ given. map Text (map string_bytes texts.items) ≡ map (λ r. column r 0) given)) }
{
    let mut texts = Vec::new(alloc);
    for _ in 0..u64::MAX {
        let Some(row) = rows.next()? else {
            return Ok(texts);
        };
        texts.push(text_of(row)?)?;
    }
    Err(Refusal(Error::SqliteFailure(ErrorCode::TooBig)))
}

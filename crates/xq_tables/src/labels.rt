//! The labels: a name of nodes stands once, under a number, in the table `label`.
ghost use Rattle.std.specs.Prelude.{IfOk};
ghost use Rattle.sqlite.specs.Held.{state};
ghost use Rattle.sqlite.specs.State.{HasCleanDisk};
ghost use Rattle.xq_tables.specs.private.Inside.{StaysInside};
ghost use Rattle.xq_tables.specs.private.Statements.{IsFirstNumber, Numbers, NumbersInHand, Seeks};

use indexmap::IndexMap;
use sqlite::{Alter, Error, ErrorCode, Row, Transaction, params};

/// The greatest number of a label.
const MOST: i64 = 2_147_483_647;

/// Names with the numbers of their labels.
pub type LabelIds = IndexMap<String, u32>;

/// The number in the first row's one column, where there is a row.
fn first_number(rows: &[Row]) -> Result<Option<u32>, Error>
    ensures { IfOk result (λ found. IsFirstNumber found rows.now) }
{
    match rows {
        [] => Ok(None),
        [row, ..] => Ok(Some(row.get::<u32>(0)?)),
    }
}

/// The number of the label with a name, where there is one.
fn find_number<S: Alter>(
    transaction: &mut Transaction<'_, S>,
    name: &str,
) -> Result<Option<u32>, Error>
    ensures inside { StaysInside S.Store transaction.old transaction.new }
    ensures found { HasCleanDisk (state S.Store transaction.new.conn.now)
        → IfOk result (λ found. Seeks name.now found (state S.Store transaction.old.conn.now)
        (state S.Store transaction.new.conn.now)) }
{
    let rows = transaction.query_all("SELECT id FROM label WHERE name = ?1", params![name])?;
    first_number(&rows)
}

/// Makes the label of a name, whose number is one above the last.
fn insert_label<S: Alter>(transaction: &mut Transaction<'_, S>, name: &str) -> Result<u32, Error>
    ensures inside { StaysInside S.Store transaction.old transaction.new }
    ensures numbered { HasCleanDisk (state S.Store transaction.new.conn.now)
        → IfOk result (λ number. Numbers name.now number
        (state S.Store transaction.old.conn.now) (state S.Store transaction.new.conn.now)) }
{
    let _count = transaction.execute("INSERT INTO label (name) VALUES (?1)", params![name])?;
    let number = transaction.last_insert_rowid();
    if number < 0 || number > MOST {
        return Err(Error::SqliteFailure(ErrorCode::TooBig));
    }
    Ok(number as u32)
}

/// The number of a name: that of its label, which is made where there is none.
fn number_of_name<S: Alter>(transaction: &mut Transaction<'_, S>, name: &str) -> Result<u32, Error>
    ensures inside { StaysInside S.Store transaction.old transaction.new }
    ensures numbered { HasCleanDisk (state S.Store transaction.new.conn.now)
        → IfOk result (λ number. Numbers name.now number
        (state S.Store transaction.old.conn.now) (state S.Store transaction.new.conn.now)) }
{
    match find_number(transaction, name)? {
        Some(number) => Ok(number),
        None => insert_label(transaction, name),
    }
}

/// The number of a name. It is looked for among those in hand, and is among them from then on.
pub fn number_in_hand<S: Alter>(
    transaction: &mut Transaction<'_, S>,
    names: &mut LabelIds,
    name: &str,
) -> Result<u32, Error>
    ensures inside { StaysInside S.Store transaction.old transaction.new }
    ensures numbered { HasCleanDisk (state S.Store transaction.new.conn.now)
        → IfOk result (λ number. NumbersInHand name.now number names.old.entries
        names.new.entries (state S.Store transaction.old.conn.now)
        (state S.Store transaction.new.conn.now)) }
{
    if let Some(number) = names.get(name) {
        return Ok(*number);
    }
    let number = number_of_name(transaction, name)?;
    let own = String::from_str(*names.allocator(), name)?;
    names.insert(own, number)?;
    Ok(number)
}

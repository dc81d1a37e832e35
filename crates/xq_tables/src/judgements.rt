//! Rows of nodes that are judged as they are read. In hand are those of one address.
ghost use Rattle.std.specs.Prelude.{◌≡◌, ◌≢◌, ◌≤◌, ℕ, List, [], ◌∷◌, ◌++◌, false, IfErr, IfOk, IfSome, IsSorted, IsTrue, None, OnOk, length};
ghost use Rattle.sqlite.specs.Held.{state};
ghost use Rattle.sqlite.specs.State.{HasCleanDisk};
ghost use Rattle.sqlite_trees.specs.View.{doubt};
ghost use Rattle.sqlite_value.specs.Order.{Row as Columns, column};
ghost use Rattle.sqlite_value.specs.declared.value.Value.TheVariants.{Text};
ghost use Rattle.xq_trees.specs.Rows.{placed};
ghost use Rattle.xq_tables.specs.Documents.{IsReady};
ghost use Rattle.xq_tables.specs.Nodes.{cells};
ghost use Rattle.xq_tables.specs.private.Adopt.{AreDocumentRuns, AreFoundIn, AreNoDocuments, Closes, HasJudged, IsFound, IsWhole, ShowsNoDocuments, by_place, is_under as is_under_lem, row_fault as row_fault_lem};
ghost use Rattle.xq_tables.specs.private.Columns.{IsReadable, node_of};
ghost use Rattle.xq_tables.specs.private.Streams.{GivesRows, Stays};

use crate::faults::OpenFault;
use crate::findings::{FoundDocument, JudgedRows, found_document, kept_bytes};
use crate::refusals::Refusal;
use crate::rows::node_row;
use sqlite::types::ValueRef;
use sqlite::{Alter, Error, ErrorCode, Row, Rows};
use std::alloc::Global;
use xq_atoms::{Want, address_ok};
use xq_trees::{NodeRow, RowTree};

/// The nodes of one address, as far as its rows were read.
#[derive(Drop)]
pub(crate) struct RowRange {
    pub address: Vec<u8>,
    pub nodes: Vec<NodeRow>,
}

/// What was found in the rows that were judged, and the rows in hand.
#[derive(Drop)]
pub(crate) struct Findings {
    /// The documents, in the order of their addresses.
    pub documents: Vec<FoundDocument>,
    pub run: RowRange,
    /// How many bytes may still be kept of rows.
    pub room: usize,
}

/// The address of a row, where it is a text.
fn address_of(row: &Row) -> Option<&[u8]>
    ensures some { IfSome result (λ address. column row.now 6 ≡ Text address.now) }
    ensures none { result ≡ None → (address : List ℕ) → column row.now 6 ≢ Text address }
{
    match row.get_ref(6) {
        Ok(ValueRef::Text(address)) => Some(address),
        _ => None,
    }
}

/// Whether the row is one of the address.
fn is_under(row: &Row, address: &[u8]) -> bool
    ensures { result ≡ is_under_lem address.now row.now }
{
    match address_of(row) {
        Some(own) => own == address,
        None => false,
    }
}

/// A row that cannot be read for another cause than memory is no node's.
fn row_fault(refusal: Refusal) -> OpenFault
    ensures { result ≡ row_fault_lem refusal.0 }
{
    match refusal.0 {
        Error::SqliteFailure(ErrorCode::OutOfMemory) => OpenFault::Want(Want::Memory),
        _ => OpenFault::NotAStore,
    }
}

/// The node of a row.
fn node_in(row: &Row) -> Result<NodeRow, OpenFault>
    ensures ok { IfOk result (λ node. cells (placed node) ≡ node_of row.now) }
    ensures err { IfErr result (λ fault. fault ≡ OpenFault.NotAStore
        → ¬ (IsReadable (node_of row.now))) }
{
    node_row(row).map_err(row_fault)
}

impl RowRange {
    /// No row.
    fn new(alloc: Global) -> RowRange
        ensures { result.nodes.items ≡ [] }
    {
        RowRange {
            address: Vec::new(alloc),
            nodes: Vec::new(alloc),
        }
    }

    /// The row alone, whose node this is.
    fn begun(alloc: Global, row: &Row, node: NodeRow) -> Result<RowRange, OpenFault>
        ensures address { IfOk result (λ run. column row.now 6 ≡ Text run.address.items) }
        ensures nodes { IfOk result (λ run. run.nodes.items ≡ node ∷ []) }
        ensures err { IfErr result (λ fault. fault ≡ OpenFault.NotAStore
            → (address : List ℕ) → column row.now 6 ≢ Text address) }
    {
        let Some(own) = address_of(row) else {
            return Err(OpenFault::NotAStore);
        };
        let address = own.to_vec(alloc).map_err(Want::from)?;
        let mut nodes = Vec::new(alloc);
        nodes.push(node).map_err(Want::from)?;
        Ok(RowRange { address, nodes })
    }

    /// The run with one node more.
    fn with_node(mut self, node: NodeRow) -> Result<RowRange, OpenFault>
        ensures address { IfOk result (λ run. run.address.items ≡ self.address.items) }
        ensures nodes { IfOk result (λ run. run.nodes.items ≡ self.nodes.items ++ node ∷ []) }
        ensures err { IfErr result (λ fault. fault ≢ OpenFault.NotAStore) }
    {
        self.nodes.push(node).map_err(Want::from)?;
        Ok(self)
    }

    /// The document of the rows in hand, if there are any, with its rows where they take no more
    /// than so many bytes.
    fn document(self, alloc: Global, room: usize) -> Result<Option<FoundDocument>, OpenFault>
        ensures ok { IfOk result (IsFound self) }
        ensures err { IfErr result (λ fault. fault ≡ OpenFault.NotAStore → ¬ (IsWhole self)) }
    {
        if self.nodes.is_empty() {
            return Ok(None);
        }
        if !address_ok(&self.address) {
            return Err(OpenFault::NotAStore);
        }
        let Ok(document) = RowTree::from_rows(self.nodes) else {
            return Err(OpenFault::NotAStore);
        };
        if document.is_document() {
            let found = found_document(alloc, self.address, &document, room)?;
            Ok(Some(found))
        } else {
            Err(OpenFault::NotAStore)
        }
    }
}

impl Findings {
    /// No document, and no row in hand.
    fn new(alloc: Global, room: usize) -> Findings
        ensures documents { result.documents.items ≡ [] }
        ensures nodes { result.run.nodes.items ≡ [] }
    {
        Findings {
            documents: Vec::new(alloc),
            run: RowRange::new(alloc),
            room,
        }
    }

    /// The findings with the document of the rows in hand, which no row of its address follows.
    fn closed(self, alloc: Global) -> Result<Findings, OpenFault>
        ensures ok { IfOk result (λ later. Closes self later.documents.items) }
        ensures err { IfErr result (λ fault. fault ≡ OpenFault.NotAStore
            → ¬ (IsWhole self.run)) }
    {
        let mut documents = self.documents;
        let mut room = self.room;
        if let Some(found) = self.run.document(alloc, room)? {
            room = room.saturating_sub(kept_bytes(&found.rows));
            documents.push(found).map_err(Want::from)?;
        }
        Ok(Findings {
            documents,
            run: RowRange::new(alloc),
            room,
        })
    }

    /// The findings with one row more of the address in hand.
    fn with_node(self, node: NodeRow) -> Result<Findings, OpenFault>
        ensures documents { IfOk result (λ later. later.documents.items ≡ self.documents.items) }
        ensures address { IfOk result (λ later.
            later.run.address.items ≡ self.run.address.items) }
        ensures nodes { IfOk result (λ later.
            later.run.nodes.items ≡ self.run.nodes.items ++ node ∷ []) }
        ensures err { IfErr result (λ fault. fault ≢ OpenFault.NotAStore) }
    {
        let run = self.run.with_node(node)?;
        Ok(Findings {
            documents: self.documents,
            run,
            room: self.room,
        })
    }

    /// The findings with the row alone in hand, whose node this is.
    fn begun(self, alloc: Global, row: &Row, node: NodeRow) -> Result<Findings, OpenFault>
        ensures documents { IfOk result (λ later. later.documents.items ≡ self.documents.items) }
        ensures address { IfOk result (λ later.
            column row.now 6 ≡ Text later.run.address.items) }
        ensures nodes { IfOk result (λ later. later.run.nodes.items ≡ node ∷ []) }
        ensures err { IfErr result (λ fault. fault ≡ OpenFault.NotAStore
            → (address : List ℕ) → column row.now 6 ≢ Text address) }
    {
        let run = RowRange::begun(alloc, row, node)?;
        Ok(Findings {
            documents: self.documents,
            run,
            room: self.room,
        })
    }

    /// The findings with one row more. Where that is another address's, the rows in hand are judged,
    /// and it begins a run.
    fn with_row(self, alloc: Global, row: &Row) -> Result<Findings, OpenFault>
        ensures ok { IfOk result (λ later. (given : List Columns) → HasJudged given self
            → HasJudged (given ++ row.now ∷ []) later) }
        ensures err { IfErr result (λ fault. fault ≡ OpenFault.NotAStore
            → (given : List Columns) → HasJudged given self
            → AreNoDocuments (given ++ row.now ∷ [])) }
    {
        let node = node_in(row)?;
        if is_under(row, &self.run.address) {
            return self.with_node(node);
        }
        let closed = self.closed(alloc)?;
        closed.begun(alloc, row, node)
    }
}

/// Judges the rows of nodes that an answer gives from here on, in the order of address and number:
/// one run for each address. It says how many there are, and gives the documents that they are of,
/// with rows that take no more than so many bytes. An answer that would not end is refused.
pub fn check_runs<S: Alter>(
    alloc: Global,
    rows: &mut Rows<'_, S>,
    room: usize,
) -> Result<JudgedRows, OpenFault>
    ensures same_reference { rows.new.conn.ghost_name ≡ rows.old.conn.ghost_name }
    ensures mode { rows.old.conn.now.in_transaction ≡ false
        → rows.new.conn.now.in_transaction ≡ false }
    ensures clean { doubt (state S.Store rows.old.conn.now).is_clean
        ≤ doubt (state S.Store rows.new.conn.now).is_clean }
    ensures stays { IsReady (state S.Store rows.new.conn.now)
        → Stays (state S.Store rows.old.conn.now) (state S.Store rows.new.conn.now) }
    ensures ends_open { HasCleanDisk (state S.Store rows.new.conn.now)
        → OnOk result (IsTrue (state S.Store rows.new.conn.now).is_open) }
    ensures ok { HasCleanDisk (state S.Store rows.new.conn.now)
        → IfOk result (λ judged. GivesRows S.Store rows.old.conn.now rows.new.conn.now
        (λ given. (IsSorted by_place given
        → AreDocumentRuns given × AreFoundIn given judged.documents.items)
        × (judged.count ≡ length given))) }
    ensures err { IsReady (state S.Store rows.new.conn.now)
        → IfErr result (λ fault. fault ≡ OpenFault.NotAStore
        → ShowsNoDocuments S.Store rows.old.conn.now rows.new.conn.now) }
{
    let mut findings = Findings::new(alloc, room);
    for count in 0..u64::MAX {
        let row = match rows.next() {
            Ok(Some(row)) => row,
            Ok(None) => {
                let closed = findings.closed(alloc)?;
                return Ok(JudgedRows {
                    count,
                    documents: closed.documents,
                });
            }
            Err(error) => return Err(OpenFault::Want(Want::from(Refusal(error)))),
        };
        findings = findings.with_row(alloc, row)?;
    }
    Err(OpenFault::Want(Want::Store))
}

//! The store: a map from address to document, kept in a database.
//!
//! Each clause on the map stands under `IsClean` as the call ends (the disk has returned what was
//! written), which `was_clean` takes back to the call before, and speaks of any map that the store
//! stands for as the call begins. A store that has shut, after a fault or where memory ran out in a
//! commit, stands for the map that it stood for then: each later call is refused, by `answered`.
ghost use Rattle.std.specs.Prelude.{◌≡◌, ◌⊎◌, [], IfErr, IfOk, IfSome, IsTrue, OnErr, OnOk, Some, map, string_bytes, if◌then◌else◌, false};
ghost use Rattle.std.specs.FinMap.{get, insert, remove, keys, contains_key, empty};
ghost use Rattle.sqlite.specs.Files.{over_files};
ghost use Rattle.sqlite.specs.Held.{state};
ghost use Rattle.sqlite.specs.Steps.{over_memory};
ghost use Rattle.xq_atoms.specs.Address.{IsAddress};
ghost use Rattle.xq_trees.specs.declared.Kind.TheVariants.{Document};
ghost use Rattle.xq_store.specs.Adoption.{IsBlank, HasOldTables, HasStoreTables, HasTables};
ghost use Rattle.xq_trees.specs.Rows.{placed};
ghost use Rattle.xq_trees.specs.Tree.{IsDocument, Tree};
ghost use Rattle.xq_store.specs.declared.shelves.Cache.{Cache};
ghost use Rattle.xq_tables.specs.Documents.{IsStore, IsClean, IsOpen, IsUp, HoldsDocuments, Map, StandsFor, documents};
ghost use Rattle.xq_store.specs.private.Keeps.{AreOf, IsKept, LeavesAlone};
ghost use Rattle.xq_tables.specs.Tables.{node_rows};
ghost use Rattle.xq_store.specs.private.Shelves.{HasDropped, HasPut};
ghost use Rattle.xq_tables.specs.Labels.{IsStoreSchema};
ghost use Rattle.xq_sources.specs.Sources.{rows_between, rows_enclosing};

use crate::adoptions::adopt_tables;
use crate::listings::list_shelf;
use crate::room::{USUAL_BOUND, with_room};
use crate::shelves::{Cache, CachedDocument, all_of, kept_of, time_of};
use sqlite::{Alter, Connection, FileStore, MemStore};
use std::alloc::Global;
use std::marker::Model;
use xq_atoms::Want;
use xq_memory_disk::MemoryDisk;
use xq_packed::PackedTree;
use xq_sources::LentRows;
use xq_tables::schemas::tables_in;
use xq_tables::{
    OpenFault, check_open, document_of, drop_rows, make_tables, nodes_above, nodes_between,
    open_empty, put_rows,
};
use xq_trees::{NodeRow, RowTree};

/// Documents under addresses, in the tables of a database. Contracts see the store's connection,
/// which is in no transaction, and speak of it by `IsClean`, `IsOpen` and `StandsFor`.
///
/// The list of addresses is kept, and so is what views have read, for the next view: a put or a drop
/// changes its own place alone. Where a call is refused all of it is forgotten.
#[derive(Drop)]
pub struct Store<S: Alter> {
    alloc: Global,
    conn: Connection<S>,
    /// What is kept of its tables.
    shelf: Option<Cache>,
    /// How many bytes are kept at most, beside those of the document that was wanted last.
    pub(crate) bound: usize,
}

impl<S: Alter> Model for Store<S> {
    ghost use Rattle.sqlite.specs.Held.{Held, held_code};
    ghost use Rattle.xq_store.specs.private.Keeps.{IsKeeping};

    ghost Value = { Held S };

    ghost coded = { held_code S.code };

    ghost view = { λ s. s.conn };

    ghost invariant = { λ s. IsKeeping S.Store s.conn s.shelf };
}

/// Whether a document was new under its address.
#[derive(Clone, Copy, Debug, PartialEq, Eq)]
pub enum Put {
    /// The address was absent.
    Stored,
    /// Another document stood there, and is gone.
    Replaced,
}

impl Put {
    /// Whether a document was replaced, as what a store gives.
    fn of(replaced: bool) -> Put
        ensures { result ≡ (if replaced then Put.Replaced else Put.Stored) }
    {
        if replaced { Put::Replaced } else { Put::Stored }
    }
}

impl Store<MemStore> {
    /// A store in memory, without a document.
    pub fn new_in_memory(alloc: Global) -> Result<Store<MemStore>, Want>
        ensures clean { IfOk result (λ store. IsClean over_memory store) }
        ensures open { IfOk result (λ store. IsOpen over_memory store) }
        ensures none { IfOk result (λ store. StandsFor over_memory store empty) }
    {
        let mut conn = Connection::open_in_memory(alloc)?;
        make_tables(&mut conn)?;
        Ok(Store {
            alloc,
            conn,
            shelf: Cache::empty(alloc),
            bound: USUAL_BOUND,
        })
    }
}

impl Store<FileStore<MemoryDisk>> {
    /// A store without a document, whose database lies in two files in memory. Its statements take
    /// the time that they take in a file on a disk, whereas [`Store::new_in_memory`] deletes in
    /// quadratic time.
    ///
    /// Where memory runs out while a change is committed, the database shuts: each later call that
    /// needs it is refused, with the documents as they were.
    pub fn new_on_memory_disks(alloc: Global) -> Result<Store<FileStore<MemoryDisk>>, Want>
        ensures clean { IfOk result (λ store. IsClean over_files store) }
        ensures open { IfOk result (λ store. IsOpen over_files store) }
        ensures none { IfOk result (λ store. StandsFor over_files store empty) }
    {
        let mut conn = open_empty(alloc)?;
        make_tables(&mut conn)?;
        Ok(Store {
            alloc,
            conn,
            shelf: Cache::empty(alloc),
            bound: USUAL_BOUND,
        })
    }
}

impl<S: Alter> Store<S> {
    /// The store whose tables a database holds, with the documents that these stand for. Where the
    /// database holds no table they are made, and there is no document. The documents of tables of
    /// edition 1 are carried over into those of edition 2, and `node` is left empty.
    ///
    /// Tables that are there are read a row at a time, with the rows of one document in hand. Those of
    /// edition 2 are kept for queries, as far as they take no more than so many bytes, 134,217,728
    /// where no number is given; so many are kept from then on. What is made or carried over is so in
    /// one transaction. A refusal gives the connection back, with the
    /// database as it was: [`OpenFault::NotAStore`] where it holds anything else than the tables as a
    /// store of either edition makes them, another edition than these tables have, labels that are
    /// not those of a store, or rows that are not those of documents under good addresses, and
    /// [`OpenFault::Want`] where memory runs out or the database refuses for another cause.
    pub fn adopt(
        alloc: Global,
        conn: Connection<S>,
        kept: Option<usize>,
    ) -> Result<Store<S>, (OpenFault, Connection<S>)>
        requires { conn.in_transaction ≡ false }
        ensures made { IfOk result (λ store. IsClean S.Store store → IsBlank S.Store conn
            → StandsFor S.Store store empty) }
        ensures found { IfOk result (λ store. IsClean S.Store store → HasTables S.Store conn
            → HoldsDocuments S.Store conn × StandsFor S.Store store (documents S.Store conn)) }
        ensures same { IfOk result (λ store. IsClean S.Store store → HasStoreTables S.Store conn
            → (state S.Store store).now ≡ (state S.Store conn).now) }
        ensures emptied { IfOk result (λ store. IsClean S.Store store → HasOldTables S.Store conn
            → node_rows (state S.Store store).now ≡ []) }
        ensures known { IfOk result (λ store. IsBlank S.Store conn ⊎ HasTables S.Store conn) }
        ensures open { IfOk result (λ store. IsClean S.Store store
            → IsOpen S.Store store × IsOpen S.Store conn) }
        ensures no_store { IfErr result (λ e. IsUp S.Store e.1 → e.0 ≡ OpenFault.NotAStore
            → ¬ (IsBlank S.Store conn) × ¬ (HoldsDocuments S.Store conn)) }
        ensures kept { IfErr result (λ e. IsUp S.Store e.1
            → (state S.Store e.1).now ≡ (state S.Store conn).now) }
        ensures outside { IfErr result (λ e. e.1.in_transaction ≡ false) }
        ensures was_clean { IfOk result (λ store. IsClean S.Store store → IsClean S.Store conn) }
        ensures still_clean { IfErr result (λ e. IsClean S.Store e.1 → IsClean S.Store conn) }
        ensures still_open { IfErr result (λ e. IsClean S.Store e.1 → IsOpen S.Store e.1
            → IsOpen S.Store conn) }
    {
        let mut conn = conn;
        let bound = kept.unwrap_or(USUAL_BOUND);
        let Some(tables) = tables_in(conn.schema()) else {
            return Err((OpenFault::NotAStore, conn));
        };
        match adopt_tables(alloc, &mut conn, tables, bound) {
            Ok(shelf) => Ok(Store {
                alloc,
                conn,
                shelf,
                bound,
            }),
            Err(fault) => Err((fault, conn)),
        }
    }

    /// The store, which keeps at most so many bytes of what queries read of its documents, beside
    /// those of the document that was wanted last. Where no number is given it keeps as many as it
    /// did, 134,217,728 at first.
    pub fn keeping(self, bytes: Option<usize>) -> Store<S>
        ensures { result ≡ self }
    {
        let mut store = self;
        store.bound = bytes.unwrap_or(store.bound);
        store
    }

    /// The addresses, each once, in the order of their bytes.
    pub fn addresses(&mut self) -> Result<Vec<String>, Want>
        ensures all { IsClean S.Store self.new → (m : Map) → StandsFor S.Store self.old m
            → IfOk result (λ all. map string_bytes all.items ≡ keys m) }
        ensures same { IsClean S.Store self.new → (m : Map) → StandsFor S.Store self.old m
            → StandsFor S.Store self.new m }
        ensures answered { IsClean S.Store self.new → OnOk result (IsOpen S.Store self.new) }
        ensures was_open { IsClean S.Store self.new → IsOpen S.Store self.new
            → IsOpen S.Store self.old }
        ensures was_clean { IsClean S.Store self.new → IsClean S.Store self.old }
    {
        let shelf = self.take_shelf()?;
        let addresses = copied(self.alloc, shelf.addresses.as_slice())?;
        if shelf.stays {
            self.put_back(shelf);
        }
        Ok(addresses)
    }

    /// The document of the address, or None where the address is absent. Rows that are those of no
    /// document, as a damaged database may hold, are answered [`Want::Store`].
    pub fn load(&mut self, address: &str) -> Result<Option<RowTree>, Want>
        ensures found { IsClean S.Store self.new → (m : Map) → StandsFor S.Store self.old m
            → IfOk result (λ found. found ≡ get m address.now) }
        ensures document { IfOk result (λ found. IfSome found IsDocument) }
        ensures same { IsClean S.Store self.new → (m : Map) → StandsFor S.Store self.old m
            → StandsFor S.Store self.new m }
        ensures answered { IsClean S.Store self.new → OnOk result (IsOpen S.Store self.new) }
        ensures was_open { IsClean S.Store self.new → IsOpen S.Store self.new
            → IsOpen S.Store self.old }
        ensures was_clean { IsClean S.Store self.new → IsClean S.Store self.old }
    {
        let shelf = self.shelf.take();
        let nodes = nodes_between(self.alloc, &mut self.conn, address, 0, u32::MAX)?;
        let found = document_of(nodes)?;
        self.shelf = shelf;
        Ok(found)
    }

    /// What is kept of the documents, or their addresses with no row. Nothing is kept from then on.
    pub(crate) fn take_shelf(&mut self) -> Result<Cache, Want>
        ensures shelf { IsClean S.Store self.new → IsStore (state S.Store self.old).now
            → IfOk result (λ shelf. AreOf (state S.Store self.old).now
            shelf.addresses.value shelf.fronts.items) }
        ensures own { IsUp S.Store self.new → IfOk result (λ shelf. IsTrue shelf.stays
            → IsStoreSchema (state S.Store self.old).now.schema) }
        ensures answered { IsClean S.Store self.new → OnOk result (IsOpen S.Store self.new) }
        ensures alone { LeavesAlone S.Store self.old self.new }
    {
        match self.shelf.take() {
            Some(shelf) => {
                check_open(&mut self.conn)?;
                Ok(shelf)
            }
            None => list_shelf(self.alloc, &mut self.conn),
        }
    }

    /// Keeps what was taken, where it may stay.
    fn put_back(&mut self, shelf: Cache)
        requires { IsKept S.Store self.old shelf }
        ensures { self.new ≡ self.old }
    {
        self.shelf = Some(shelf);
    }

    /// Keeps what was read of the documents.
    pub(crate) fn keep(self, shelf: Cache) -> Store<S>
        requires { IsKept S.Store self shelf }
        ensures { result ≡ self }
    {
        let mut store = self;
        store.put_back(shelf);
        store
    }

    /// The rows of the address from `low` to `high`, in document order.
    pub(crate) fn read_between(
        &mut self,
        alloc: Global,
        address: &str,
        low: u32,
        high: u32,
    ) -> Result<Vec<NodeRow>, Want>
        ensures found { IsClean S.Store self.new → (m : Map) → StandsFor S.Store self.old m
            → (t : Tree) → get m address.now ≡ Some t
            → IfOk result (λ found. map placed found.items ≡ rows_between t low high) }
        ensures alone { LeavesAlone S.Store self.old self.new }
        ensures same { IsClean S.Store self.new → (m : Map) → StandsFor S.Store self.old m
            → StandsFor S.Store self.new m }
        ensures was_open { IsClean S.Store self.new → IsOpen S.Store self.new
            → IsOpen S.Store self.old }
        ensures was_clean { IsClean S.Store self.new → IsClean S.Store self.old }
    {
        nodes_between(alloc, &mut self.conn, address, low, high)
    }

    /// The rows of the nodes of the address that are above a node, the root first.
    pub(crate) fn read_above(
        &mut self,
        alloc: Global,
        address: &str,
        node: u32,
    ) -> Result<Vec<NodeRow>, Want>
        ensures found { IsClean S.Store self.new → (m : Map) → StandsFor S.Store self.old m
            → (t : Tree) → get m address.now ≡ Some t
            → IfOk result (λ found. map placed found.items ≡ rows_enclosing t node) }
        ensures alone { LeavesAlone S.Store self.old self.new }
        ensures same { IsClean S.Store self.new → (m : Map) → StandsFor S.Store self.old m
            → StandsFor S.Store self.new m }
        ensures was_open { IsClean S.Store self.new → IsOpen S.Store self.new
            → IsOpen S.Store self.old }
        ensures was_clean { IsClean S.Store self.new → IsClean S.Store self.old }
    {
        nodes_above(alloc, &mut self.conn, address, node)
    }

    /// Sets the document of the address, and changes no other. A refusal leaves each document as
    /// it was.
    pub fn put(&mut self, address: &str, document: &RowTree) -> Result<Put, Want>
        requires address { IsAddress address.now }
        requires document { document.now.root.kind ≡ Document }
        ensures put { IsClean S.Store self.new → (m : Map) → StandsFor S.Store self.old m
            → IfOk result (λ put. StandsFor S.Store self.new (insert m address.now document.now)) }
        ensures answer { IsClean S.Store self.new → (m : Map) → StandsFor S.Store self.old m
            → IfOk result (λ put.
            put ≡ (if contains_key m address.now then Put.Replaced else Put.Stored)) }
        ensures kept { IsClean S.Store self.new → (m : Map) → StandsFor S.Store self.old m
            → OnErr result (StandsFor S.Store self.new m) }
        ensures answered { IsClean S.Store self.new → OnOk result (IsOpen S.Store self.new) }
        ensures was_open { IsClean S.Store self.new → IsOpen S.Store self.new
            → IsOpen S.Store self.old }
        ensures was_clean { IsClean S.Store self.new → IsClean S.Store self.old }
    {
        let kept = self.shelf.take();
        let there = kept_of(&kept, address);
        let rows = LentRows::new(document.rows());
        let replaced = put_rows(self.alloc, &mut self.conn, address, &there, &rows)?;
        self.shelf = shelf_with(kept, address, CachedDocument::new(self.alloc));
        Ok(Put::of(replaced))
    }

    /// Puts a document that is handed over, as [`put`](Store::put) does: its rows are kept for the
    /// next view, which need not read them. After a refusal the document is gone.
    pub fn put_owned(&mut self, address: &str, document: PackedTree) -> Result<Put, Want>
        requires address { IsAddress address.now }
        requires document { document.root.kind ≡ Document }
        ensures put { IsClean S.Store self.new → (m : Map) → StandsFor S.Store self.old m
            → IfOk result (λ put. StandsFor S.Store self.new (insert m address.now document)) }
        ensures answer { IsClean S.Store self.new → (m : Map) → StandsFor S.Store self.old m
            → IfOk result (λ put.
            put ≡ (if contains_key m address.now then Put.Replaced else Put.Stored)) }
        ensures kept { IsClean S.Store self.new → (m : Map) → StandsFor S.Store self.old m
            → OnErr result (StandsFor S.Store self.new m) }
        ensures answered { IsClean S.Store self.new → OnOk result (IsOpen S.Store self.new) }
        ensures was_open { IsClean S.Store self.new → IsOpen S.Store self.new
            → IsOpen S.Store self.old }
        ensures was_clean { IsClean S.Store self.new → IsClean S.Store self.old }
    {
        let others = self.shelf.take();
        let there = kept_of(&others, address);
        let rows = all_of(document.rows());
        let replaced = put_rows(self.alloc, &mut self.conn, address, &there, &rows)?;
        let coming = document.rows().bytes();
        let shelf = with_room(self.alloc, others, coming, self.bound);
        let front = CachedDocument::whole(self.alloc, document, time_of(&shelf));
        self.shelf = shelf_with(shelf, address, front);
        Ok(Put::of(replaced))
    }

    /// Removes the document of the address alone, and answers whether it was there. A refusal
    /// leaves each document as it was.
    pub fn drop_doc(&mut self, address: &str) -> Result<bool, Want>
        ensures dropped { IsClean S.Store self.new → (m : Map) → StandsFor S.Store self.old m
            → IfOk result (λ was. StandsFor S.Store self.new (remove m address.now)) }
        ensures answer { IsClean S.Store self.new → (m : Map) → StandsFor S.Store self.old m
            → IfOk result (λ was. was ≡ contains_key m address.now) }
        ensures kept { IsClean S.Store self.new → (m : Map) → StandsFor S.Store self.old m
            → OnErr result (StandsFor S.Store self.new m) }
        ensures answered { IsClean S.Store self.new → OnOk result (IsOpen S.Store self.new) }
        ensures was_open { IsClean S.Store self.new → IsOpen S.Store self.new
            → IsOpen S.Store self.old }
        ensures was_clean { IsClean S.Store self.new → IsClean S.Store self.old }
    {
        let shelf = self.shelf.take();
        let count = drop_rows(&mut self.conn, address)?;
        self.shelf = shelf_without(shelf, address);
        Ok(count > 0)
    }

    /// Gives the connection back, in no transaction; its tables stand for the same map.
    pub fn release(self) -> Connection<S>
        ensures same { result ≡ self }
        ensures outside { result.in_transaction ≡ false }
    {
        let Store {
            alloc: _,
            conn,
            shelf: _,
            bound: _,
        } = self;
        conn
    }
}

/// A list of the same texts.
fn copied(alloc: Global, texts: &[String]) -> Result<Vec<String>, Want>
    ensures { IfOk result (λ copy. map string_bytes copy.items ≡ map string_bytes texts.now) }
{
    Ok(texts.to_vec(alloc)?)
}

/// What is kept after a put, if anything is.
fn shelf_with(shelf: Option<Cache>, address: &str, front: CachedDocument) -> Option<Cache>
    ensures { IfSome result (λ later. (earlier : Cache) × (shelf ≡ Some earlier)
        × HasPut earlier later address.now front) }
{
    shelf?.with_document(address, front)
}

/// What is kept after a drop, if anything is.
fn shelf_without(shelf: Option<Cache>, address: &str) -> Option<Cache>
    ensures { IfSome result (λ later. (earlier : Cache) × (shelf ≡ Some earlier)
        × HasDropped earlier later address.now) }
{
    shelf?.without_document(address)
}

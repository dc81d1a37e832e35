//! What a store keeps in memory of its documents: their addresses, and of each the first rows.
ghost use Rattle.std.specs.Prelude.{◌≡◌, ◌+◌, ◌*◌, ◌<◌, ◌≤◌, ℕ, [], List, Some, IfOk, IfSome, IsTrue, length, map, slice_get, string_bytes};
ghost use Rattle.std.specs.List.{AllByRecursion, enumerate_from, insert, remove, slice_set as set};
ghost use Rattle.xq_tables.specs.Found.{IsFoundAt, found_address};
ghost use Rattle.xq_sources.specs.Addresses.{IsGap};
ghost use Rattle.xq_trees.specs.Rows.{placed_rows};
ghost use Rattle.xq_trees.specs.Forest.{count};
ghost use Rattle.xq_trees.specs.Tree.{Tree, nodes};
ghost use Rattle.xq_sources.specs.Lenders.{after_search as after_search_lem};
ghost use Rattle.xq_sources.specs.Meters.{GivesNone};
ghost use Rattle.xq_sources.specs.Names.{named};
ghost use Rattle.xq_store.specs.private.Shelves.{AreFronts, AreKeptOf, HasDropped, HasPut, IsFront, IsFrontOf, front_at, kept_rows};

use std::alloc::Global;
use std::collections::HashMap;
use std::rc::Rc;
use xq_atoms::Want;
use xq_packed::{PackedRows, PackedTree};
use xq_sources::{Addresses, Guide, LentRows, Meter, NameIndex, Values, find_named, find_values};
use xq_tables::{FoundDocument, kept_bytes};

/// How many rows stay of a document as a stub.
const STUB_ROWS: usize = 1;

/// How many bytes these take, by the same count as others, with their name.
const BYTES_OF_A_STUB: usize = 88;

/// Of how many first rows of a document of many rows the places of parents stay: by these it is
/// told whether a name is looked for.
const GUIDED_ROWS: usize = 66;

/// From how many rows below its root on a document has many.
const MANY: u32 = 255;

/// How many bytes a place takes.
const BYTES_OF_A_PLACE: usize = 4;

/// How many bytes a name takes at most beside its own and its places.
const BYTES_OF_A_NAME: usize = 64;

/// What is kept of a document: its first rows, and what was found among them. Once its rows are
/// forgotten it is a stub: its first row, the places of names that were found, and, where it has
/// many rows, where the parents of its first nodes lie.
#[derive(Drop)]
pub(crate) struct CachedDocument {
    pub rows: PackedRows,
    /// Where parents lie among its first rows.
    pub guide: Guide,
    /// The places of its elements by their names, of names that were looked for while all rows were
    /// here.
    pub names: NameIndex,
    /// How many bytes these take.
    pub named: usize,
    /// The places of its attributes in the order of their values, of names that were looked for
    /// while all rows were here.
    pub values: Values,
    /// When it was wanted last, by the clock of the shelf.
    pub wanted: u64,
    /// Whether it was wanted again at a later time than that at which its rows came, or, of a stub,
    /// than that at which these were forgotten.
    pub is_wanted_again: bool,
}

/// A part of what is kept of a document, which is forgotten at once.
#[derive(Clone, Copy)]
pub(crate) enum Part {
    /// Its rows, but for the first: a stub stays.
    Rows,
    /// What stayed as a stub.
    Stub,
}

/// The addresses of the documents of a store, in the order of their bytes, and at the same place
/// the first rows of each document.
#[derive(Drop)]
pub(crate) struct Cache {
    pub addresses: Rc<Addresses>,
    pub fronts: Vec<CachedDocument>,
    /// How many bytes that are in all.
    pub kept: usize,
    /// How often rows were wanted that had to be read, a document came with its rows, or a view
    /// began.
    pub clock: u64,
    /// The name that was looked for last in a document whose rows were not all here: it is looked
    /// for once they are.
    pub sought: SoughtName,
    /// Whether the store may keep this when its view ends.
    pub stays: bool,
}

/// A name to look for in a tree, or none. (A `None` would give each drop of a cache two ways, and
/// each proof of one as many cases.)
#[derive(Drop)]
pub(crate) struct SoughtName {
    tree: usize,
    name: String,
}

impl SoughtName {
    /// No name: no tree has this number.
    fn none(alloc: Global) -> SoughtName {
        SoughtName {
            tree: usize::MAX,
            name: String::new(alloc),
        }
    }
}

impl CachedDocument {
    /// No row yet.
    pub fn new(alloc: Global) -> CachedDocument
        ensures { (t : Tree) → IsFrontOf t result }
    {
        CachedDocument {
            rows: PackedRows::new(alloc),
            guide: Guide::new(alloc),
            names: HashMap::new(alloc),
            named: 0,
            values: HashMap::new(alloc),
            wanted: 0,
            is_wanted_again: false,
        }
    }

    /// All rows of a document, wanted at a time. Where memory is short they are without a guide.
    pub fn whole(alloc: Global, document: PackedTree, wanted: u64) -> CachedDocument
        ensures { IsFrontOf document result }
    {
        CachedDocument::of_rows(alloc, document.into_rows(), wanted)
    }

    /// The first rows of a document, wanted at a time. Where memory is short they are without a
    /// guide.
    fn of_rows(alloc: Global, rows: PackedRows, wanted: u64) -> CachedDocument
        ensures { (t : Tree) → IsFront t (enumerate_from 0 rows.rows) → IsFrontOf t result }
    {
        let mut guide = Guide::new(alloc);
        let _ = guide.read_on(&all_of(&rows));
        CachedDocument {
            rows,
            guide,
            names: HashMap::new(alloc),
            named: 0,
            values: HashMap::new(alloc),
            wanted,
            is_wanted_again: false,
        }
    }

    /// It is wanted at a time: again, where it is later than the time before.
    pub fn want(&mut self, time: u64)
        ensures { (t : Tree) → IsFrontOf t self.old → IsFrontOf t self.new }
    {
        self.is_wanted_again |= self.wanted < time && !self.rows.is_empty();
        self.wanted = time;
    }

    /// Rows are read at a time, and may count as wanted again at once. Those of a stub come now,
    /// however often its names were wanted.
    pub fn read_at(&mut self, time: u64, is_wanted_again: bool)
        ensures { (t : Tree) → IsFrontOf t self.old → IsFrontOf t self.new }
    {
        self.is_wanted_again = is_wanted_again || self.is_wanted_again && !self.is_stub();
        self.wanted = time;
    }

    /// Whether there is no row but the first.
    pub fn is_stub(&self) -> bool {
        self.rows.len() <= STUB_ROWS
    }

    /// How many bytes are kept at most: rows with their values, and of each row the place of its
    /// parent, and its place among those of its name; of a stub the places that stayed.
    pub fn bytes(&self) -> usize {
        let rows = kept_bytes(&self.rows);
        if self.is_stub() {
            rows.saturating_add(self.guide.places().len().saturating_mul(BYTES_OF_A_PLACE))
                .saturating_add(self.named)
        } else {
            rows
        }
    }

    /// How many bytes are free once a part of this is forgotten.
    pub fn bytes_of(&self, part: Part) -> usize {
        match part {
            Part::Rows if self.is_stub() => 0,
            Part::Rows => self.bytes().saturating_sub(self.bytes_left()),
            Part::Stub if self.is_stub() => self.bytes(),
            Part::Stub => 0,
        }
    }

    /// How many bytes a stub will take.
    fn bytes_left(&self) -> usize {
        let guided = self.guided_rows().saturating_mul(BYTES_OF_A_PLACE);
        self.named
            .saturating_add(guided)
            .saturating_add(BYTES_OF_A_STUB)
    }

    /// Of how many first rows the places of parents stay.
    fn guided_rows(&self) -> usize {
        match self.rows.get(0) {
            Some(root) if root.size() >= MANY => GUIDED_ROWS,
            _ => 0,
        }
    }

    /// Forgets a part of this.
    pub fn forget(&mut self, alloc: Global, part: Part)
        ensures { (t : Tree) → IsFrontOf t self.old → IsFrontOf t self.new }
    {
        match part {
            Part::Rows => self.forget_rows(alloc),
            Part::Stub => *self = CachedDocument::new(alloc),
        }
    }

    /// Forgets all rows but the first, and what was found among them, but for the names. Where
    /// memory is short, the first is forgotten too.
    fn forget_rows(&mut self, alloc: Global)
        ensures { (t : Tree) → IsFrontOf t self.old → IsFrontOf t self.new }
    {
        let few = all_of(&self.rows).first(self.guided_rows());
        let mut guide = Guide::new(alloc);
        let _ = guide.read_on(&few);
        let mut rows = PackedRows::new(alloc);
        let _ = rows.append_run(&self.rows, 0, STUB_ROWS, 0, 0);
        self.rows = rows;
        self.guide = guide;
        self.values = HashMap::new(alloc);
    }

    /// The rows, lent.
    pub fn lent(&self) -> LentRows<'_>
        ensures { result ≡ kept_rows self.now }
    {
        all_of(&self.rows)
    }

    /// The places of the elements with the name, which it looks for where these are all rows of the
    /// document and the places aren't kept. The rows that it looks at count.
    pub fn find_named(
        &mut self,
        alloc: Global,
        meter: &mut Meter,
        name: &str,
    ) -> Result<Option<Vec<u32>>, Want>
        ensures kept { (t : Tree) → IsFrontOf t self.old → IsFrontOf t self.new }
        ensures found { (t : Tree) → IsFrontOf t self.old
            → IfOk result (λ looked. IfSome looked (λ places.
            places.items ≡ named (placed_rows t) name.now)) }
        ensures counts { (t : Tree) → IsFrontOf t self.old
            → meter.new ≡ after_search_lem meter.old (count (nodes t)) result }
        ensures gives { GivesNone meter.old meter.new }
        ensures rows { self.new.rows ≡ self.old.rows }
    {
        let rows = all_of(&self.rows);
        if !are_whole(&rows) {
            return Ok(None);
        }
        let looked = find_named(alloc, &mut self.names, &rows, name);
        *meter = after_search(*meter, rows.len(), &looked);
        self.named = self.named.saturating_add(bytes_of_name(name, &looked));
        looked
    }

    /// Looks for the places of the elements with the name, if there is one, where these are all
    /// rows of the document now: they were just read, so a look at each of them costs little
    /// beside.
    pub fn find_sought(&mut self, alloc: Global, name: Option<&str>)
        ensures kept { (t : Tree) → IsFrontOf t self.old → IsFrontOf t self.new }
        ensures rows { self.new.rows ≡ self.old.rows }
    {
        let Some(name) = name else {
            return;
        };
        let mut meter = Meter::new();
        let _ = self.find_named(alloc, &mut meter, name);
    }

    /// Looks for the attributes with the name, where these are all rows of the document and the
    /// places of such attributes aren't kept. Each row that it looks at counts, twice.
    pub fn find_values(&mut self, alloc: Global, meter: &mut Meter, name: &str) -> Result<(), Want>
        ensures kept { (t : Tree) → IsFrontOf t self.old → IsFrontOf t self.new }
        ensures counts { (t : Tree) → IsFrontOf t self.old
            → meter.new.looks ≤ meter.old.looks + 2 * count (nodes t) }
        ensures gives { GivesNone meter.old meter.new }
    {
        let rows = all_of(&self.rows);
        if !are_whole(&rows) {
            return Ok(());
        }
        let count = rows.len();
        let looked = find_values(alloc, &mut self.values, &self.rows, name);
        *meter = meter.with_looks(twice_each(count, &looked));
        let _is_looked = looked?;
        Ok(())
    }
}

/// How many bytes the places of a name take where they were found, with the name.
fn bytes_of_name(name: &str, looked: &Result<Option<Vec<u32>>, Want>) -> usize {
    match looked {
        Ok(Some(places)) => places
            .len()
            .saturating_mul(BYTES_OF_A_PLACE)
            .saturating_add(name.len())
            .saturating_add(BYTES_OF_A_NAME),
        _ => 0,
    }
}

/// The meter after a search for a name among so many rows.
fn after_search(meter: Meter, rows: usize, looked: &Result<Option<Vec<u32>>, Want>) -> Meter
    ensures { result ≡ after_search_lem meter rows looked.now }
{
    match looked {
        Ok(None) => meter,
        Ok(Some(_)) => meter.with_looks(rows),
        Err(_) => meter.with_looks(rows),
    }
}

/// At how many rows a search for values looked, of so many rows: twice at each, or at none.
fn twice_each(rows: usize, looked: &Result<bool, Want>) -> usize
    ensures { result ≤ 2 * rows }
{
    match looked {
        Ok(false) => 0,
        _ => rows.saturating_mul(2),
    }
}

/// Packed rows, lent.
pub(crate) fn all_of(rows: &PackedRows) -> LentRows<'_>
    ensures { result ≡ enumerate_from 0 rows.now.rows }
{
    LentRows::packed(rows, 0, rows.len())
}

/// Whether the first rows of a document are all that it has.
pub(crate) fn are_whole(rows: &LentRows<'_>) -> bool
    ensures { IsTrue result → (t : Tree) → IsFront t rows.now → rows.now ≡ placed_rows t }
{
    let Some(root) = rows.get(0) else {
        return false;
    };
    root.size as usize + 1 == rows.len()
}

/// Takes note of a name to look for in a tree once all its rows are here: where they aren't, and
/// the places of the name aren't kept.
pub(crate) fn note_sought(
    alloc: Global,
    fronts: &[CachedDocument],
    sought: &mut SoughtName,
    tree: usize,
    name: &str,
) {
    let Some(front) = fronts.get(tree) else {
        return;
    };
    if are_whole(&front.lent()) || front.names.contains_key(name) {
        return;
    }
    if sought.name.as_str() == name {
        sought.tree = tree;
        return;
    }
    *sought = match String::from_str(alloc, name) {
        Ok(name) => SoughtName { tree, name },
        Err(_) => SoughtName::none(alloc),
    };
}

/// The name to look for in a tree, where there is one.
pub(crate) fn sought_in(sought: &SoughtName, tree: usize) -> Option<&str> {
    if sought.tree == tree {
        Some(sought.name.as_str())
    } else {
        None
    }
}

/// The time by the clock of what is kept.
pub(crate) fn time_of(shelf: &Option<Cache>) -> u64 {
    match shelf {
        Some(shelf) => shelf.clock,
        None => 0,
    }
}

/// The rows that are kept of the document of an address, which are its first.
pub(crate) fn kept_of<'a>(shelf: &'a Option<Cache>, address: &str) -> LentRows<'a>
    ensures { AreKeptOf shelf.now address.now result }
{
    let Some(shelf) = shelf else {
        return LentRows::new(&[]);
    };
    match shelf.addresses.search(address) {
        Ok(place) => cached_rows(&shelf.fronts, place),
        Err(_) => LentRows::new(&[]),
    }
}

/// The rows of a document that are kept, by its place.
pub(crate) fn cached_rows(fronts: &[CachedDocument], place: usize) -> LentRows<'_>
    ensures { result ≡ front_at fronts.now place }
{
    match fronts.get(place) {
        Some(front) => front.lent(),
        None => LentRows::new(&[]),
    }
}

/// The address with this number.
pub(crate) fn address_at(addresses: &Addresses, tree: usize) -> Option<&str>
    ensures { IfSome result (λ address. slice_get addresses.now tree ≡ Some address.now) }
{
    let address = addresses.as_slice().get(tree)?;
    Some(address.as_str())
}

/// Fronts without a row, so many.
fn no_rows(alloc: Global, count: usize) -> Result<Vec<CachedDocument>, Want>
    ensures { IfOk result (λ fronts. (trees : List Tree) → length trees ≡ count
        → AreFronts trees fronts.items) }
{
    let mut fronts = Vec::with_capacity(alloc, count)?;
    for made in 0..count {
        fronts.push(CachedDocument::new(alloc))?;
    }
    Ok(fronts)
}

/// The addresses of documents that an opening found, what is kept of each of them, and how many
/// bytes that are in all.
fn cached(
    alloc: Global,
    documents: Vec<FoundDocument>,
) -> Result<(Vec<String>, Vec<CachedDocument>, usize), Want>
    ensures addresses { IfOk result (λ all. map string_bytes all.0.items
        ≡ map found_address documents.items) }
    ensures fronts { IfOk result (λ all. (f : List ℕ → Tree)
        → AllByRecursion (λ d. IsFoundAt (f (found_address d)) d) documents.items
        → AreFronts (map f (map found_address documents.items)) all.1.items) }
{
    let mut addresses = Vec::with_capacity(alloc, documents.len())?;
    let mut fronts = Vec::with_capacity(alloc, documents.len())?;
    let mut kept = 0usize;
    for document in documents {
        let FoundDocument { address, rows } = document;
        let front = CachedDocument::of_rows(alloc, rows, 0);
        kept = kept.saturating_add(front.bytes());
        addresses.push(address)?;
        fronts.push(front)?;
    }
    Ok((addresses, fronts, kept))
}

impl Cache {
    /// No address. Where memory is short there is none.
    pub fn empty(alloc: Global) -> Option<Cache>
        ensures { IfSome result (λ shelf.
            (shelf.addresses.value ≡ []) × (shelf.fronts.items ≡ [])) }
    {
        Some(Cache {
            addresses: Rc::new(alloc, Addresses::new(alloc)).ok()?,
            fronts: Vec::new(alloc),
            kept: 0,
            clock: 0,
            sought: SoughtName::none(alloc),
            stays: true,
        })
    }

    /// These addresses, with no row of a document.
    pub fn unread(alloc: Global, addresses: Addresses) -> Result<Cache, Want>
        ensures addresses { IfOk result (λ shelf. shelf.addresses.value ≡ addresses) }
        ensures fronts { IfOk result (λ shelf. (trees : List Tree)
            → length trees ≡ length addresses → AreFronts trees shelf.fronts.items) }
    {
        let fronts = no_rows(alloc, addresses.as_slice().len())?;
        Ok(Cache {
            addresses: Rc::new(alloc, addresses)?,
            fronts,
            kept: 0,
            clock: 0,
            sought: SoughtName::none(alloc),
            stays: true,
        })
    }

    /// The documents that an opening found, with the rows that it kept.
    pub fn of_found(alloc: Global, documents: Vec<FoundDocument>) -> Result<Cache, Want>
        ensures addresses { IfOk result (λ shelf.
            shelf.addresses.value ≡ map found_address documents.items) }
        ensures fronts { IfOk result (λ shelf. (f : List ℕ → Tree)
            → AllByRecursion (λ d. IsFoundAt (f (found_address d)) d) documents.items
            → AreFronts (map f (map found_address documents.items)) shelf.fronts.items) }
    {
        let (list, fronts, kept) = cached(alloc, documents)?;
        let Some(addresses) = Addresses::from_rising(list) else {
            return Err(Want::Store);
        };
        Ok(Cache {
            addresses: Rc::new(alloc, addresses)?,
            fronts,
            kept,
            clock: 0,
            sought: SoughtName::none(alloc),
            stays: true,
        })
    }

    /// The shelf after a put: the front is that of the address, which is added where it was absent.
    /// Where memory is short there is none.
    pub fn with_document(self, address: &str, front: CachedDocument) -> Option<Cache>
        ensures { IfSome result (λ later. HasPut self later address.now front) }
    {
        match self.addresses.search(address) {
            Ok(place) => self.replaced(place, front),
            Err(place) => self.added(place, address, front),
        }
    }

    /// The shelf after a drop. Where memory is short there is none.
    pub fn without_document(self, address: &str) -> Option<Cache>
        ensures { IfSome result (λ later. HasDropped self later address.now) }
    {
        match self.addresses.search(address) {
            Ok(place) => self.removed(place),
            Err(_) => Some(self),
        }
    }

    /// The shelf with another front at a place.
    fn replaced(mut self, place: usize, front: CachedDocument) -> Option<Cache>
        ensures { IfSome result (λ later. (later.addresses.value ≡ self.addresses.value)
            × (later.fronts.items ≡ set self.fronts.items place front)) }
    {
        let old = self.fronts.get_mut(place)?;
        let fewer = self.kept.saturating_sub(old.bytes());
        self.kept = fewer.saturating_add(front.bytes());
        *old = front;
        Some(self)
    }

    /// The shelf with one address more.
    fn added(mut self, place: usize, address: &str, front: CachedDocument) -> Option<Cache>
        requires { IsGap self.addresses.value place address.now }
        ensures { IfSome result (λ later.
            (later.addresses.value ≡ insert self.addresses.value place address.now)
            × (later.fronts.items ≡ insert self.fronts.items place front)) }
    {
        if place > self.fronts.len() {
            return None;
        }
        let addresses = Rc::get_mut(&mut self.addresses)?;
        addresses.insert(place, address).ok()?;
        self.kept = self.kept.saturating_add(front.bytes());
        self.fronts.insert(place, front).ok()?;
        Some(self)
    }

    /// The shelf without the document at a place.
    fn removed(mut self, place: usize) -> Option<Cache>
        requires { place < length self.addresses.value }
        ensures { IfSome result (λ later.
            (later.addresses.value ≡ remove self.addresses.value place)
            × (later.fronts.items ≡ remove self.fronts.items place)) }
    {
        if place >= self.fronts.len() {
            return None;
        }
        let addresses = Rc::get_mut(&mut self.addresses)?;
        addresses.remove(place);
        let front = self.fronts.remove(place);
        self.kept = self.kept.saturating_sub(front.bytes());
        Some(self)
    }
}

//! Views: the documents of a store as trees whose rows are read where they lie.
ghost use Rattle.std.specs.Prelude.{◌≡◌, IfErr, IfOk, map, string_bytes};
ghost use Rattle.std.specs.FinMap.{keys, values};
ghost use Rattle.xq_tables.specs.Documents.{IsClean, IsOpen, Map, StandsFor};
ghost use Rattle.xq_tables.specs.Tables.{no_schema};
ghost use Rattle.xq_store.specs.Views.{Beginning, HeldDocuments, StoodFor, WasClean, WasOpen, beginning, trees_under};
ghost use Rattle.xq_sources.specs.Meters.{no_readings};

use crate::fronts::{NO_ROWS, RowRange};
use crate::shelves::{Cache, address_at};
use crate::stores::Store;
use sqlite::Alter;
use std::alloc::Global;
use std::marker::{Brand, Model, PhantomData};
use std::rc::Rc;
use xq_atoms::Want;
use xq_sources::{Addresses, Meter, RowSource, TreeSource};
use xq_trees::NodeRow;

/// Where a view began. A function that reads a store through a view has a parameter of this kind;
/// its caller passes `Brand`, and picks for it the store as that call begins, by `beginning`.
pub trait Origin {
    /// The store as the view began.
    ghost beginning: { Beginning };
}

impl Origin for Brand {
    ghost use Rattle.std.specs.Prelude.{[], false};

    ghost beginning = { record {
      database = record { schema = no_schema; trees = λ _. [] };
      is_open = false;
      is_clean = false;
    } };
}

/// The documents of a store: tree n is the document of the n-th address, in the order of their
/// bytes. It has the store until [`View::into_store`] gives it back, so nothing changes a document
/// meanwhile.
///
/// As a source it reads rows where they lie, by a statement for each call. As a lender it keeps the
/// first rows of each document, reads them on a part at a time where a row beyond them is wanted,
/// and lends them without a copy. What it gives and what it lends is counted, and not what it
/// reads. The store keeps them for its next views, but for those of a document that is put or
/// dropped.
///
/// Contracts see the store, the addresses, what the meter shows and what is lent.
#[derive(Drop)]
pub struct View<S: Alter, O: Origin> {
    pub(crate) store: Store<S>,
    pub(crate) shelf: Cache,
    pub(crate) meter: Meter,
    /// What the last fetch made ready.
    pub(crate) run: RowRange,
    origin: PhantomData<O>,
}

impl<S: Alter, O: Origin> Model for View<S, O> {
    ghost use Rattle.xq_store.specs.Views.{Viewed, viewed_code};
    ghost use Rattle.xq_store.specs.private.Shelves.{IsShelved, front_at, run_of};

    ghost Value = { Viewed S };

    ghost coded = { viewed_code S.code };

    ghost view = { λ v. record {
      store = v.store;
      addresses = v.shelf.addresses.value;
      meter = v.meter;
      lent = run_of (front_at v.shelf.fronts.items v.run.tree) v.run.low v.run.high;
    } };

    ghost invariant = { λ v. IsShelved S.Store O.beginning (record {
      store = v.store;
      addresses = v.shelf.addresses.value;
      meter = v.meter;
      lent = run_of (front_at v.shelf.fronts.items v.run.tree) v.run.low v.run.high;
    }) v.shelf.fronts.items v.shelf.stays };
}

impl<S: Alter> Store<S> {
    /// The documents to be read where they lie. A refusal gives the store back, with each document
    /// as it was.
    pub fn view<O: Origin>(self) -> Result<View<S, O>, (Want, Store<S>)>
        requires { beginning S.Store self ≡ O.beginning }
        ensures began { IfOk result (λ view. IsClean S.Store view.store
            → (m : Map) → StandsFor S.Store self m → StoodFor O.beginning m) }
        ensures addresses { IfOk result (λ view. IsClean S.Store view.store
            → (m : Map) → StoodFor O.beginning m → view.addresses ≡ keys m) }
        ensures trees { IfOk result (λ view. IsClean S.Store view.store
            → (m : Map) → StoodFor O.beginning m
            → ⟦<View<S, O> as TreeSource>⟧.forest view ≡ values m) }
        ensures clean { IfOk result (λ view. IsClean S.Store view.store
            → (m : Map) → StoodFor O.beginning m
            → ⟦<View<S, O> as TreeSource>⟧.is_clean view) }
        ensures open { IfOk result (λ view. IsClean S.Store view.store
            → IsOpen S.Store view.store) }
        ensures unread { IfOk result (λ view. view.meter ≡ no_readings) }
        ensures kept { IfErr result (λ e. IsClean S.Store e.1
            → (m : Map) → StandsFor S.Store self m → StandsFor S.Store e.1 m) }
        ensures was_open { IfErr result (λ e. IsClean S.Store e.1 → IsOpen S.Store e.1
            → IsOpen S.Store self) }
        ensures was_clean { IfErr result (λ e. IsClean S.Store e.1 → IsClean S.Store self) }
    {
        let mut store = self;
        match store.take_shelf() {
            Ok(mut shelf) => {
                shelf.clock = shelf.clock.saturating_add(1);
                Ok(View {
                    store,
                    shelf,
                    meter: Meter::new(),
                    run: NO_ROWS,
                    origin: PhantomData,
                })
            }
            Err(want) => Err((want, store)),
        }
    }
}

impl<S: Alter, O: Origin> View<S, O> {
    /// The addresses of the documents, each once, in the order of their bytes.
    pub fn addresses(&self) -> &[String]
        ensures { map string_bytes result.now ≡ self.now.addresses }
    {
        self.shelf.addresses.as_slice()
    }

    /// The list of addresses, which is there as long as it is held. While it is, no document can
    /// be put or dropped without the list being read anew.
    pub fn shared_addresses(&self) -> Result<Rc<Addresses>, Want>
        ensures { IfOk result (λ all. all.value ≡ self.now.addresses) }
    {
        Ok(self.shelf.addresses.clone()?)
    }

    /// Gives the store back, which stands for the map that it stood for as the view began. What was
    /// read stays with it.
    pub fn into_store(self) -> Store<S>
        ensures store { result ≡ self.store }
        ensures same { IsClean S.Store result
            → (m : Map) → StoodFor O.beginning m → StandsFor S.Store result m }
        ensures was_open { IsClean S.Store result → WasOpen O.beginning }
        ensures was_clean { IsClean S.Store result → WasClean O.beginning }
    {
        let View {
            store,
            shelf,
            meter: _,
            run: _,
            origin: _,
        } = self;
        if shelf.stays {
            store.keep(shelf)
        } else {
            store
        }
    }
}

impl<S: Alter, O: Origin> TreeSource for View<S, O> {
    ghost forest = { λ v. trees_under O.beginning v.addresses };

    ghost meter = { λ v. v.meter };

    ghost is_clean = { λ v. IsClean S.Store v.store × HeldDocuments O.beginning };

    fn trees(&self) -> usize {
        self.shelf.addresses.as_slice().len()
    }

    fn meter(&self) -> Meter {
        self.meter
    }
}

impl<S: Alter, O: Origin> RowSource for View<S, O> {
    fn range(
        &mut self,
        alloc: Global,
        tree: usize,
        low: u32,
        high: u32,
    ) -> Result<Vec<NodeRow>, Want> {
        let Some(address) = address_at(&self.shelf.addresses, tree) else {
            return Err(Want::Store);
        };
        let found = self.store.read_between(alloc, address, low, high)?;
        self.meter = self.meter.with_rows(found.len());
        Ok(found)
    }

    fn enclosing(&mut self, alloc: Global, tree: usize, node: u32) -> Result<Vec<NodeRow>, Want> {
        let Some(address) = address_at(&self.shelf.addresses, tree) else {
            return Err(Want::Store);
        };
        let found = self.store.read_above(alloc, address, node)?;
        self.meter = self.meter.with_singles(found.len());
        Ok(found)
    }

    fn row(&mut self, alloc: Global, tree: usize, node: u32) -> Result<NodeRow, Want> {
        let Some(address) = address_at(&self.shelf.addresses, tree) else {
            return Err(Want::Store);
        };
        let mut found = self.store.read_between(alloc, address, node, node)?;
        let Some(row) = found.pop() else {
            return Err(Want::Store);
        };
        self.meter = self.meter.with_singles(1);
        Ok(row)
    }
}

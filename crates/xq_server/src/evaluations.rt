//! Queries evaluated over the documents of a store.
//!
//! The documents are read through a view, which has the store meanwhile and gives it back. So
//! nothing of a query changes a document.
ghost use Rattle.std.specs.Prelude.{◌≡◌, ◌≤◌, IfOk, length};
ghost use Rattle.std.specs.FinMap.{keys, values};
ghost use Rattle.xq_readback.specs.Legible.{AreTrees};
ghost use Rattle.xq_queries.specs.Values.{plan_value};
ghost use Rattle.xq_tables.specs.Documents.{IsClean, IsOpen, Map, StandsFor};
ghost use Rattle.xq_store.specs.Views.{beginning};
ghost use Rattle.xq_sources.specs.Meters.{no_readings};
ghost use Rattle.xq_server.specs.private.Work.{Makes};

use crate::products::Product;
use core::mem::replace_with;
use sqlite::Alter;
use std::alloc::Global;
use std::marker::{Brand, PhantomData};
use xq_atoms::Fault;
use xq_meaning::Plan;
use xq_sources::{Addresses, TreeSource, Trees};
use xq_store::{Origin, Store, View};

/// What the plan's value makes over the documents of the store, which stay as they are. Where it
/// makes a product, the documents are trees.
pub(crate) fn evaluate<S: Alter + Drop, P: Product>(
    alloc: Global,
    store: &mut Store<S>,
    plan: &Plan,
) -> Result<P, Fault>
    ensures made { IsClean S.Store store.new → (m : Map) → StandsFor S.Store store.old m
        → Makes P.makes (plan_value plan.now (keys m) (values m)) result }
    ensures sound { IfOk result P.is_sound }
    ensures trees { IsClean S.Store store.new → (m : Map) → StandsFor S.Store store.old m
        → IfOk result (λ product. AreTrees (values m)) }
    ensures same { IsClean S.Store store.new → (m : Map) → StandsFor S.Store store.old m
        → StandsFor S.Store store.new m }
    ensures was_clean { IsClean S.Store store.new → IsClean S.Store store.old }
    ensures was_open { IsClean S.Store store.new → IsOpen S.Store store.new
        → IsOpen S.Store store.old }
{
    let question = Question {
        alloc,
        plan,
        product: PhantomData,
    };
    replace_with(store, question, product_of)
}

/// A plan, and what to make of its value.
#[derive(Clone, Copy)]
struct Question<'a, P> {
    alloc: Global,
    plan: &'a Plan,
    product: PhantomData<P>,
}

/// What the plan's value makes over the documents of a store, which is handed over and given back.
fn product_of<S: Alter + Drop, P: Product>(
    store: Store<S>,
    question: Question<'_, P>,
) -> (Store<S>, Result<P, Fault>)
    ensures made { IsClean S.Store result.0 → (m : Map) → StandsFor S.Store store m
        → Makes P.makes (plan_value question.entry.plan.now (keys m) (values m)) result.1 }
    ensures sound { IfOk result.1 P.is_sound }
    ensures trees { IsClean S.Store result.0 → (m : Map) → StandsFor S.Store store m
        → IfOk result.1 (λ product. AreTrees (values m)) }
    ensures same { IsClean S.Store result.0 → (m : Map) → StandsFor S.Store store m
        → StandsFor S.Store result.0 m }
    ensures was_clean { IsClean S.Store result.0 → IsClean S.Store store }
    ensures was_open { IsClean S.Store result.0 → IsOpen S.Store result.0
        → IsOpen S.Store store }
{
    over_view::<S, P, Brand>(question.alloc, store, question.plan)
}

/// What the plan's value makes over a view of the store, which `O` tells as the view begins.
fn over_view<S: Alter + Drop, P: Product, O: Origin>(
    alloc: Global,
    store: Store<S>,
    plan: &Plan,
) -> (Store<S>, Result<P, Fault>)
    requires { beginning S.Store store ≡ O.beginning }
    ensures made { IsClean S.Store result.0 → (m : Map) → StandsFor S.Store store m
        → Makes P.makes (plan_value plan.now (keys m) (values m)) result.1 }
    ensures sound { IfOk result.1 P.is_sound }
    ensures trees { IsClean S.Store result.0 → (m : Map) → StandsFor S.Store store m
        → IfOk result.1 (λ product. AreTrees (values m)) }
    ensures same { IsClean S.Store result.0 → (m : Map) → StandsFor S.Store store m
        → StandsFor S.Store result.0 m }
    ensures was_clean { IsClean S.Store result.0 → IsClean S.Store store }
    ensures was_open { IsClean S.Store result.0 → IsOpen S.Store result.0
        → IsOpen S.Store store }
{
    let view = match store.view::<O>() {
        Ok(view) => view,
        Err((want, store)) => return (store, Err(Fault::Want(want))),
    };
    let addresses = match view.shared_addresses() {
        Ok(addresses) => addresses,
        Err(want) => return (view.into_store(), Err(Fault::Want(want))),
    };
    let (world, product) = run_on_view(alloc, view, plan, &addresses);
    (world.into_source().into_store(), product)
}

/// What the plan's value makes over the trees of a view that has read nothing yet, those of the
/// documents at `addresses`; and these trees, with those that were constructed.
///
/// Their meter shows what was read, since the view began with none: the rows that were asked for,
/// each time that they were lent. What a view reads ahead of that, 1,024 rows at a time, or on the
/// way to a place, is not asked for and not counted.
fn run_on_view<S: Alter + Drop, P: Product, O: Origin>(
    alloc: Global,
    view: View<S, O>,
    plan: &Plan,
    addresses: &Addresses,
) -> (Trees<View<S, O>>, Result<P, Fault>)
    requires { view.meter ≡ no_readings }
    ensures made { ⟦<Trees<View<S, O>> as TreeSource>⟧.is_clean result.0
        → length addresses.now ≤ length (⟦<View<S, O> as TreeSource>⟧.forest view)
        → Makes P.makes (plan_value plan.now addresses.now
        (⟦<View<S, O> as TreeSource>⟧.forest view)) result.1 }
    ensures sound { IfOk result.1 P.is_sound }
    ensures reads { ⟦<Trees<View<S, O>> as TreeSource>⟧.is_clean result.0
        → length addresses.now ≤ length (⟦<View<S, O> as TreeSource>⟧.forest view)
        → P.has_read plan.now addresses.now (⟦<View<S, O> as TreeSource>⟧.forest view)
        no_readings (⟦<Trees<View<S, O>> as TreeSource>⟧.meter result.0) }
    ensures was_clean { ⟦<Trees<View<S, O>> as TreeSource>⟧.is_clean result.0
        → ⟦<View<S, O> as TreeSource>⟧.is_clean view }
{
    let mut world = Trees::new(alloc, view);
    let product = P::of(alloc, plan, &mut world, addresses);
    (world, product)
}

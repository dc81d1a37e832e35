//! What is done over a view of a store, which gives the store back.
ghost use Rattle.std.specs.Prelude.{◌≡◌};
ghost use Rattle.xq_store.specs.Views.{beginning};

use crate::calls::{Call, first_wrong};
use crate::loans::{Look, are_seen};
use sqlite::Alter;
use std::alloc::Global;
use std::marker::Brand;
use xq_atoms::Want;
use xq_samples::readings::{wrong_gift, wrong_loan};
use xq_samples::scans::{Counts, Scan, read_by};
use xq_sources::{Buffered, RowLender, RowSource};
use xq_store::{Origin, Store, View};

/// What is done over a view.
#[derive(Clone, Copy)]
pub enum Task {
    /// One step.
    Step(Scan),
    /// The rows of the first document are given as copies, by a statement.
    Statement,
    /// Two documents, an empty one and the library, are given and lent, by the view itself and by a
    /// buffer over it.
    Both,
    /// Names are looked for in documents, by their numbers.
    Names(&'static [(usize, Look)]),
}

/// A store, and how many rows a task read of it, where that is told; none where something is not as
/// the task says.
pub type Done<S> = (Store<S>, Option<Counts>);

/// What is told where no rows are.
fn told(is_right: bool) -> Option<Counts> {
    if is_right { Some((0, 0)) } else { None }
}

/// How many rows of the first tree are given as copies.
fn copied<L: RowSource>(alloc: Global, source: &mut L) -> Result<u64, Want> {
    Ok(source.range(alloc, 0, 0, u32::MAX)?.len() as u64)
}

/// Whether the source gives the rows of two documents, and lends them.
fn reads_both<L: RowSource + RowLender>(alloc: Global, source: &mut L) -> Result<bool, Want> {
    let gift = wrong_gift(alloc, source)?;
    Ok(gift.is_none() && source.trees() == 2 && wrong_loan(alloc, source)?.is_none())
}

/// Does the task over a view.
fn done<S: Alter, O: Origin>(
    alloc: Global,
    view: &mut View<S, O>,
    task: Task,
) -> Result<Option<Counts>, Want> {
    match task {
        Task::Step(scan) => read_by(alloc, view, scan),
        Task::Statement => Ok(Some((copied(alloc, view)?, 0))),
        Task::Both => Ok(told(view.addresses().len() == 2 && reads_both(alloc, view)?)),
        Task::Names(looks) => Ok(told(are_seen(alloc, view, looks)?)),
    }
}

/// The view, and whether a buffer over it lends the rows of two documents.
fn buffered<S: Alter + Drop, O: Origin + Drop>(
    alloc: Global,
    view: View<S, O>,
) -> Result<(View<S, O>, bool), Want> {
    let mut lender = Buffered::new(alloc, view);
    let wrong = wrong_loan(alloc, &mut lender)?;
    Ok((lender.into_source(), wrong.is_none()))
}

/// Does over a view what the task has a buffer do.
fn done_over<S: Alter + Drop, O: Origin + Drop>(
    alloc: Global,
    view: View<S, O>,
    task: Task,
) -> Result<(View<S, O>, bool), Want> {
    match task {
        Task::Both => buffered(alloc, view),
        _ => Ok((view, true)),
    }
}

/// Does the task over a view of the store, and gives the store back.
fn viewed<S: Alter + Drop, O: Origin + Drop>(
    alloc: Global,
    store: Store<S>,
    task: Task,
) -> Result<Done<S>, Want>
    requires { beginning S.Store store ≡ O.beginning }
{
    let mut view = match store.view::<O>() {
        Ok(view) => view,
        Err((want, _store)) => return Err(want),
    };
    let counts = done(alloc, &mut view, task)?;
    let (view, is_right) = done_over(alloc, view, task)?;
    Ok((view.into_store(), if is_right { counts } else { None }))
}

/// Does the task over a view of the store with a brand of its own, and gives the store back.
pub fn seen<S: Alter + Drop>(alloc: Global, store: Store<S>, task: Task) -> Result<Done<S>, Want> {
    viewed::<S, Brand>(alloc, store, task)
}

/// Calls of the store, and what is done over the view after them.
pub type Step = (&'static [Call], Task);

/// The store after a step, and whether all was as the step says.
pub fn stepped<S: Alter + Drop>(
    alloc: Global,
    store: Store<S>,
    (calls, task): Step,
) -> Result<(Store<S>, bool), Want> {
    let mut store = store;
    let wrong = first_wrong(alloc, &mut store, calls)?;
    let (store, counts) = seen(alloc, store, task)?;
    Ok((store, wrong == 0 && counts.is_some()))
}

/// The place of the first step that is not as it says.
pub fn wrong_step<S: Alter + Drop>(
    alloc: Global,
    store: Store<S>,
    steps: &[Step],
) -> Result<Option<usize>, Want> {
    let mut store = store;
    for (place, step) in steps.iter().enumerate() {
        let (after, is_right) = stepped(alloc, store, *step)?;
        store = after;
        if !is_right {
            return Ok(Some(place));
        }
    }
    Ok(None)
}

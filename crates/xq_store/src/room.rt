//! Room for the rows that are kept of documents: how much there is, and who is forgotten for whom.
ghost use Rattle.std.specs.Prelude.{◌≡◌, List, Some, IfSome};
ghost use Rattle.xq_trees.specs.Tree.{Tree};
ghost use Rattle.xq_store.specs.declared.shelves.Cache.{Cache};
ghost use Rattle.xq_store.specs.private.Shelves.{AreFronts};

use crate::shelves::{Cache, CachedDocument, Part};
use std::alloc::Global;

/// How many bytes are kept of all documents together where nobody asks for another bound.
pub(crate) const USUAL_BOUND: usize = 128 << 20;

/// Such a part of the bound is free once documents were forgotten: what comes next finds room for a
/// while without a look at all documents.
const FREED: usize = 32;

/// Such a part of the bound is for stubs, of documents whose rows were forgotten.
const STUBS: usize = 8;

/// Of so many documents that are read one counts as asked for again at once. So documents that are
/// in use now come to stay, where those that were in use before fill all the room.
const CHOSEN: u64 = 16;

/// The least rank of a document that was asked for again.
const AGAIN: u64 = 1 << 63;

/// Whether a document that is read at a time counts as asked for again.
pub(crate) fn is_chosen(time: u64) -> bool {
    time % CHOSEN == 0
}

/// The rank of a document among those that may be forgotten: that of the least rank goes first.
///
/// Those that were asked for once go before those that were asked for again, and of them the one
/// that was read last: so who goes over more documents than are kept, time after time, finds those
/// of the first time. Of those that were asked for again the one that was wanted longest ago goes
/// first.
fn rank(front: &CachedDocument) -> u64 {
    if front.is_wanted_again {
        AGAIN.saturating_add(front.wanted)
    } else {
        (AGAIN - 1).saturating_sub(front.wanted)
    }
}

/// How many bytes are kept of one document.
fn bytes_of(fronts: &[CachedDocument], tree: usize) -> usize {
    match fronts.get(tree) {
        Some(front) => front.bytes(),
        None => 0,
    }
}

/// How many bytes are free once a part is forgotten of the documents below a rank, but for one.
fn bytes_below(fronts: &[CachedDocument], tree: usize, part: Part, limit: u64) -> usize {
    let mut bytes = 0usize;
    for (other, front) in fronts.iter().enumerate() {
        if other != tree && rank(front) < limit {
            bytes = bytes.saturating_add(front.bytes_of(part));
        }
    }
    bytes
}

/// The least rank below which so many bytes are free once a part is forgotten of documents, but for
/// one, or one above all ranks by the time.
fn least_limit(fronts: &[CachedDocument], tree: usize, part: Part, bytes: usize, time: u64) -> u64 {
    let mut low = (AGAIN - 1).saturating_sub(time);
    let mut high = AGAIN.saturating_add(time).saturating_add(1);
    for _half in 0..u64::BITS {
        if low >= high {
            return high;
        }
        let middle = low.saturating_add(high.saturating_sub(low) / 2);
        if bytes_below(fronts, tree, part, middle) >= bytes {
            high = middle;
        } else {
            low = middle.saturating_add(1);
        }
    }
    high
}

/// Whether a part is kept of a document below a rank.
fn is_below(fronts: &[CachedDocument], tree: usize, part: Part, limit: u64) -> bool {
    match fronts.get(tree) {
        Some(front) => rank(front) < limit && front.bytes_of(part) > 0,
        None => false,
    }
}

/// Forgets a part of a tree, and tells how many bytes are free then.
fn forget(alloc: Global, fronts: &mut Vec<CachedDocument>, tree: usize, part: Part) -> usize
    ensures { (trees : List Tree) → AreFronts trees fronts.old.items
        → AreFronts trees fronts.new.items }
{
    let Some(front) = fronts.get_mut(tree) else {
        return 0;
    };
    let before = front.bytes();
    front.forget(alloc, part);
    before.saturating_sub(front.bytes())
}

/// Forgets a part of those of the trees that are below a rank, but for one, until no more than so
/// many bytes are kept.
fn forget_below(alloc: Global, shelf: &mut Cache, tree: usize, part: Part, limit: u64, left: usize)
    ensures addresses { shelf.new.addresses ≡ shelf.old.addresses }
    ensures fronts { (trees : List Tree) → AreFronts trees shelf.old.fronts.items
        → AreFronts trees shelf.new.fronts.items }
    ensures stays { shelf.new.stays ≡ shelf.old.stays }
{
    for other in 0..shelf.fronts.len() {
        if shelf.kept <= left {
            return;
        }
        if other != tree && is_below(&shelf.fronts, other, part, limit) {
            let count = forget(alloc, &mut shelf.fronts, other, part);
            shelf.kept = shelf.kept.saturating_sub(count);
        }
    }
}

/// Forgets a part of documents of the least rank, but for one, until no more than so many bytes are
/// kept.
fn forget_least(alloc: Global, shelf: &mut Cache, tree: usize, part: Part, left: usize)
    ensures addresses { shelf.new.addresses ≡ shelf.old.addresses }
    ensures fronts { (trees : List Tree) → AreFronts trees shelf.old.fronts.items
        → AreFronts trees shelf.new.fronts.items }
    ensures stays { shelf.new.stays ≡ shelf.old.stays }
{
    if bytes_below(&shelf.fronts, tree, part, u64::MAX) == 0 {
        return;
    }
    let bytes = shelf.kept.saturating_sub(left);
    let limit = least_limit(&shelf.fronts, tree, part, bytes, shelf.clock);
    // All that are below the last rank go, and then as many as have to of those that have it.
    forget_below(alloc, shelf, tree, part, limit.saturating_sub(1), left);
    forget_below(alloc, shelf, tree, part, limit, left);
}

/// Where stubs take more than their part of the bound, forgets those of the least rank, but for
/// one.
fn thin_stubs(alloc: Global, shelf: &mut Cache, tree: usize, bound: usize)
    ensures addresses { shelf.new.addresses ≡ shelf.old.addresses }
    ensures fronts { (trees : List Tree) → AreFronts trees shelf.old.fronts.items
        → AreFronts trees shelf.new.fronts.items }
    ensures stays { shelf.new.stays ≡ shelf.old.stays }
{
    let most = bound / STUBS;
    let stubs = bytes_below(&shelf.fronts, tree, Part::Stub, u64::MAX);
    if stubs <= most {
        return;
    }
    let surplus = stubs.saturating_sub(most).saturating_add(most / FREED);
    let left = shelf.kept.saturating_sub(surplus);
    forget_least(alloc, shelf, tree, Part::Stub, left);
}

/// Where more bytes are kept than the bound, with so many that come, forgets rows of documents of
/// the least rank, but for one; and stubs where these take more than their part.
pub(crate) fn make_room(alloc: Global, shelf: &mut Cache, tree: usize, coming: usize, bound: usize)
    ensures addresses { shelf.new.addresses ≡ shelf.old.addresses }
    ensures fronts { (trees : List Tree) → AreFronts trees shelf.old.fronts.items
        → AreFronts trees shelf.new.fronts.items }
    ensures stays { shelf.new.stays ≡ shelf.old.stays }
{
    let own = bytes_of(&shelf.fronts, tree);
    if shelf.kept <= own || shelf.kept.saturating_add(coming) <= bound {
        return;
    }
    let left = bound.saturating_sub(bound / FREED).saturating_sub(coming);
    forget_least(alloc, shelf, tree, Part::Rows, left);
    thin_stubs(alloc, shelf, tree, bound);
}

/// What is kept, with room for so many bytes more as far as others can be forgotten. It is later
/// then.
pub(crate) fn with_room(
    alloc: Global,
    shelf: Option<Cache>,
    coming: usize,
    bound: usize,
) -> Option<Cache>
    ensures { IfSome result (λ later. (earlier : Cache) × (shelf ≡ Some earlier)
        × (later.addresses ≡ earlier.addresses) × ((trees : List Tree)
        → AreFronts trees earlier.fronts.items → AreFronts trees later.fronts.items)) }
{
    let mut shelf = shelf?;
    let none = shelf.fronts.len();
    make_room(alloc, &mut shelf, none, coming, bound);
    shelf.clock = shelf.clock.saturating_add(1);
    Some(shelf)
}

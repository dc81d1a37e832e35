//! One request carried out over a store.
ghost use Rattle.std.specs.Prelude.{◌≡◌, IfOk, MatchResult};
ghost use Rattle.xq_atoms.specs.Address.{IsAddress};
ghost use Rattle.xq_atoms.specs.declared.refusals.Code.TheVariants.{ProfAddress};
ghost use Rattle.xq_tables.specs.Documents.{IsClean, IsOpen, Map, StandsFor};
ghost use Rattle.xq_frame.specs.Request.{request_meaning, query, put, remove as remove_one, list};
ghost use Rattle.xq_server.specs.private.Work.{GivesDocument, HasDocumentRoot, Tells, IsShort};

use crate::evaluations::evaluate;
use crate::listings::listing;
use crate::queries::understand;
use sqlite::Alter;
use std::alloc::Global;
use xq_atoms::{Code, Fault, address_ok};
use xq_frame::Request;
use xq_packed::PackedTree;
use xq_queries::{reads_at_most_once, reads_back, values_are_printable};
use xq_store::{Put, Store};

/// What a request is told that isn't refused.
#[derive(Drop)]
pub(crate) enum Answer {
    /// The printed value of a query, or the addresses.
    Text(String),
    /// The document is stored, and its address was absent.
    Stored,
    /// The document is stored in place of another.
    Replaced,
    /// The document is gone.
    Dropped,
}

/// Carries the request out. Refusals come in this order: frame, address, the text of a query,
/// its value, and last a value that is no document, or too long for a reply.
pub(crate) fn carry_out<S: Alter + Drop>(
    alloc: Global,
    store: &mut Store<S>,
    request: Request<'_>,
) -> Result<Answer, Fault>
    ensures tells { IsClean S.Store store.new → (m : Map) → StandsFor S.Store store.old m
        → (later : Map) × Tells m (request_meaning request.entry) later result
        × StandsFor S.Store store.new later }
    ensures was_clean { IsClean S.Store store.new → IsClean S.Store store.old }
    ensures was_open { IsClean S.Store store.new → IsOpen S.Store store.new
        → IsOpen S.Store store.old }
    ensures short { IsShort result }
{
    match request {
        Request::Query(text) => answer_query(alloc, store, text),
        Request::Put { address, text } => answer_put(alloc, store, address, text),
        Request::Remove(address) => answer_remove(store, address),
        Request::List => answer_list(alloc, store),
        Request::Bad => Err(Fault::Code(Code::ProfFrame)),
    }
}

/// Answers a query: the printed value of its text over the documents of the store.
fn answer_query<S: Alter + Drop>(
    alloc: Global,
    store: &mut Store<S>,
    text: &[u8],
) -> Result<Answer, Fault>
    ensures tells { IsClean S.Store store.new → (m : Map) → StandsFor S.Store store.old m
        → Tells m (query text.now) m result }
    ensures same { IsClean S.Store store.new → (m : Map) → StandsFor S.Store store.old m
        → StandsFor S.Store store.new m }
    ensures was_clean { IsClean S.Store store.new → IsClean S.Store store.old }
    ensures was_open { IsClean S.Store store.new → IsOpen S.Store store.new
        → IsOpen S.Store store.old }
    ensures short { IsShort result }
{
    reads_at_most_once();
    reads_back();
    values_are_printable();
    let held = understand(alloc, text)?;
    let printed: String = evaluate(alloc, store, &held.plan)?;
    Ok(Answer::Text(printed))
}

/// The document that the query of a text makes over the documents of the store, which stay as they
/// are.
fn document_of<S: Alter + Drop>(
    alloc: Global,
    store: &mut Store<S>,
    text: &[u8],
) -> Result<PackedTree, Fault>
    ensures made { IsClean S.Store store.new → (m : Map) → StandsFor S.Store store.old m
        → GivesDocument text.now m result }
    ensures document { IfOk result HasDocumentRoot }
    ensures same { IsClean S.Store store.new → (m : Map) → StandsFor S.Store store.old m
        → StandsFor S.Store store.new m }
    ensures was_clean { IsClean S.Store store.new → IsClean S.Store store.old }
    ensures was_open { IsClean S.Store store.new → IsOpen S.Store store.new
        → IsOpen S.Store store.old }
{
    let held = understand(alloc, text)?;
    let document: PackedTree = evaluate(alloc, store, &held.plan)?;
    Ok(document)
}

/// Answers a store: the document that the text makes goes under the address, in place of one
/// that is there.
fn answer_put<S: Alter + Drop>(
    alloc: Global,
    store: &mut Store<S>,
    address: &[u8],
    text: &[u8],
) -> Result<Answer, Fault>
    ensures tells { IsClean S.Store store.new → (m : Map) → StandsFor S.Store store.old m
        → (later : Map) × Tells m (put address.now text.now) later result
        × StandsFor S.Store store.new later }
    ensures was_clean { IsClean S.Store store.new → IsClean S.Store store.old }
    ensures was_open { IsClean S.Store store.new → IsOpen S.Store store.new
        → IsOpen S.Store store.old }
    ensures short { IsShort result }
{
    let address = good_address(address)?;
    let document = document_of(alloc, store, text)?;
    match store.put_owned(address, document)? {
        Put::Stored => Ok(Answer::Stored),
        Put::Replaced => Ok(Answer::Replaced),
    }
}

/// Answers a drop of the document under the address.
fn answer_remove<S: Alter + Drop>(store: &mut Store<S>, address: &[u8]) -> Result<Answer, Fault>
    ensures tells { IsClean S.Store store.new → (m : Map) → StandsFor S.Store store.old m
        → (later : Map) × Tells m (remove_one address.now) later result
        × StandsFor S.Store store.new later }
    ensures was_clean { IsClean S.Store store.new → IsClean S.Store store.old }
    ensures was_open { IsClean S.Store store.new → IsOpen S.Store store.new
        → IsOpen S.Store store.old }
    ensures short { IsShort result }
{
    let known = good_address(address)?;
    if store.drop_doc(known)? {
        Ok(Answer::Dropped)
    } else {
        Err(Fault::Code(Code::ProfAbsent))
    }
}

/// Answers a list: the addresses of all documents, printed.
fn answer_list<S: Alter + Drop>(alloc: Global, store: &mut Store<S>) -> Result<Answer, Fault>
    ensures tells { IsClean S.Store store.new → (m : Map) → StandsFor S.Store store.old m
        → Tells m (list) m result }
    ensures same { IsClean S.Store store.new → (m : Map) → StandsFor S.Store store.old m
        → StandsFor S.Store store.new m }
    ensures was_clean { IsClean S.Store store.new → IsClean S.Store store.old }
    ensures was_open { IsClean S.Store store.new → IsOpen S.Store store.new
        → IsOpen S.Store store.old }
    ensures short { IsShort result }
{
    let addresses = store.addresses()?;
    Ok(Answer::Text(listing(alloc, &addresses)?))
}

/// The address, or `prof:ADDRESS` for bytes that are none.
fn good_address(bytes: &[u8]) -> Result<&str, Code>
    ensures { MatchResult result (λ address. (address.now ≡ bytes.now) × IsAddress bytes.now)
        (λ code. (¬ (IsAddress bytes.now)) × (code ≡ ProfAddress)) }
{
    if !address_ok(bytes) {
        return Err(Code::ProfAddress);
    }
    Ok(std::str::from_utf8(bytes).unwrap())
}

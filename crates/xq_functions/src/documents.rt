//! Documents by their addresses (F&O 3.1, section 14.6).
ghost use Rattle.std.specs.Prelude.{◌≡◌, List, IfOk, IfErr};
ghost use Rattle.xq_trees.specs.Tree.{Tree};
ghost use Rattle.xq_meaning.specs.Functions as Functions;
ghost use Rattle.xq_functions.specs.Answers.{GivesItems, atomics, items_of, lent_items};
ghost use Rattle.xq_atoms.specs.Answers.{Gives};
ghost use Rattle.xq_functions.specs.private.Documents as Documents;

use crate::arguments::{optional, text_argument};
use crate::results::one;
use std::alloc::Global;
use xq_atoms::{Atom, Code, Fault, Want, address_ok};
use xq_sources::Addresses;
use xq_trees::{Item, Items, Node};

/// The document node at the address (fn:doc), nothing for nothing; the first trees are the
/// documents, in the order of `addresses`, in which the address is looked up by halves. FODC0005
/// for a text that is no address, FODC0002 where no document has it, XPTY0004 for more than one
/// atom, a number or a boolean.
pub fn doc(alloc: Global, addresses: &Addresses, atoms: &[Atom]) -> Result<Items, Fault>
    ensures { (trees : List Tree) → Gives (items_of trees)
        (Functions.doc addresses.now (atomics atoms.now)) result }
{
    let mut items = Vec::new(alloc);
    if let Some(atom) = optional(atoms)? {
        let tree = document(addresses, text_argument(atom)?)?;
        items.push(Item::Node(Node { tree, pre: 0 }))?;
    }
    Ok(items)
}

/// Whether a document has the address (fn:doc-available); false for nothing and for a text that is
/// no address. XPTY0004 for more than one atom, a number or a boolean.
pub fn doc_available(alloc: Global, addresses: &Addresses, atoms: &[Atom]) -> Result<Items, Fault>
    ensures { GivesItems (Functions.doc_available addresses.now (atomics atoms.now)) result }
{
    let is_there = match optional(atoms)? {
        Some(atom) => is_there(addresses, text_argument(atom)?),
        None => false,
    };
    Ok(one(alloc, Atom::Bool(is_there))?)
}

/// All document nodes, by their addresses (fn:collection).
pub fn collection(alloc: Global, addresses: &Addresses) -> Result<Items, Want>
    ensures nodes { IfOk result (λ items. (trees : List Tree) →
        items_of trees items ≡ Functions.collection addresses.now) }
    ensures want { IfErr result (λ want. want ≡ Want.Memory) }
{
    let mut items = Vec::new(alloc);
    for tree in 0..addresses.as_slice().len() {
        items.push(Item::Node(Node { tree, pre: 0 }))?;
    }
    Ok(items)
}

/// The root of the tree around a node (fn:root), nothing for nothing. XPTY0004 for an atom and
/// for more than one item.
pub fn root(alloc: Global, items: &[Item]) -> Result<Items, Fault>
    ensures { (trees : List Tree) → Gives (items_of trees)
        (Functions.root (lent_items trees items.now)) result }
{
    let mut roots = Vec::new(alloc);
    match items {
        [] => {}
        [Item::Node(node)] => roots.push(Item::Node(Node {
            tree: node.tree,
            pre: 0,
        }))?,
        [Item::Atom(_)] | [_, _, ..] => return Err(Fault::Code(Code::XPTY0004)),
    }
    Ok(roots)
}

/// Whether a document has the address.
fn is_there(addresses: &Addresses, address: &str) -> bool
    ensures { result ≡ Functions.is_there addresses.now address.now }
{
    document(addresses, address).is_ok()
}

/// The number of the tree of the document at the address.
fn document(addresses: &Addresses, address: &str) -> Result<usize, Code>
    ensures { Documents.document_at result ≡ Functions.document addresses.now address.now }
{
    if !address_ok(address.as_bytes()) {
        return Err(Code::FODC0005);
    }
    place(addresses, address)
}

/// Where the address stands: at one place only, since the addresses rise.
fn place(addresses: &Addresses, address: &str) -> Result<usize, Code>
    ensures { Documents.document_at result ≡ Functions.document_from 0 addresses.now address.now }
{
    match addresses.search(address) {
        Ok(tree) => Ok(tree),
        Err(_) => Err(Code::FODC0002),
    }
}

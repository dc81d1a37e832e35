//! What is made of a query's value while its documents can be read.
ghost use Rattle.std.specs.Prelude.{◌≤◌, List, IfOk, length};
ghost use Rattle.xq_atoms.specs.Judged.{Judged};
ghost use Rattle.xq_atoms.specs.Text.{Text};
ghost use Rattle.xq_trees.specs.Tree.{Tree};
ghost use Rattle.xq_sources.specs.Meters.{Readings};
ghost use Rattle.xq_meaning.specs.declared.plans.Plan.{Plan as PlanLem};
ghost use Rattle.xq_queries.specs.Reads.{ReadsAndCopies, ReadsAndPrints};
ghost use Rattle.xq_queries.specs.Values.{Value, plan_value};
ghost use Rattle.xq_server.specs.private.Work.{Makes, MakesText, MakesDocument, IsShortText, HasDocumentRoot};

use std::alloc::Global;
use xq_atoms::Fault;
use xq_meaning::Plan;
use xq_packed::PackedTree;
use xq_queries::{ask, make};
use xq_sources::{Addresses, TreeStore};

/// The text of a reply, or a document to be stored.
pub(crate) trait Product: Sized {
    /// The value makes this product, or is refused for this code.
    ghost makes: { Judged Value → Judged Self → Type 0 };

    /// What a product is, whatever the documents are.
    ghost is_sound: { Self → Type 0 };

    /// How much was read of the documents, by what the meter showed before and after.
    ghost has_read: { PlanLem → List Text → List Tree → Readings → Readings → Type 0 };

    /// What the plan's value makes over the trees of `world`, which begin with the documents at
    /// `addresses`.
    fn of<W: TreeStore>(
        alloc: Global,
        plan: &Plan,
        world: &mut W,
        addresses: &Addresses,
    ) -> Result<Self, Fault>
        ensures made { W.is_clean world.new → length addresses.now ≤ length (W.forest world.old)
            → Makes Self.makes (plan_value plan.now addresses.now (W.forest world.old)) result }
        ensures sound { IfOk result Self.is_sound }
        ensures reads { W.is_clean world.new → length addresses.now ≤ length (W.forest world.old)
            → Self.has_read plan.now addresses.now (W.forest world.old) (W.meter world.old)
            (W.meter world.new) }
        ensures was_clean { W.is_clean world.new → W.is_clean world.old };
}

impl Product for String {
    ghost makes = { MakesText };

    ghost is_sound = { IsShortText };

    ghost has_read = { ReadsAndPrints };

    fn of<W: TreeStore>(
        alloc: Global,
        plan: &Plan,
        world: &mut W,
        addresses: &Addresses,
    ) -> Result<String, Fault> {
        ask(alloc, plan, world, addresses)
    }
}

impl Product for PackedTree {
    ghost makes = { MakesDocument };

    ghost is_sound = { HasDocumentRoot };

    ghost has_read = { ReadsAndCopies };

    fn of<W: TreeStore>(
        alloc: Global,
        plan: &Plan,
        world: &mut W,
        addresses: &Addresses,
    ) -> Result<PackedTree, Fault> {
        make(alloc, plan, world, addresses)
    }
}

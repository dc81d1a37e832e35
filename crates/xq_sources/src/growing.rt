//! Trees to which others can be added.
ghost use Rattle.std.specs.Prelude.{◌≡◌, ◌++◌, ◌∷◌, ◌⊎◌, [], true, false, map, IfOk, IfSome, OnErr, IfNone, OnOk};
ghost use Rattle.xq_trees.specs.Items.{item_view};
ghost use Rattle.xq_sources.specs.Grafts.{lone, around_text, Grafts};

use crate::lenders::RowLender;
use xq_atoms::Want;
use xq_packed::PackedTree;
use xq_trees::{Item, Kind};

/// Trees that lend their rows, and to which a constructed one can be added: all that an evaluation
/// needs of them.
pub trait TreeStore: RowLender {
    /// Adds the tree after the others. Where it is refused, they are as before. What is lent was
    /// lent before.
    fn plant(&mut self, tree: PackedTree) -> Result<(), Want>
        ensures grown { OnOk result (Self.forest self.new ≡ Self.forest self.old ++ tree ∷ []) }
        ensures kept { OnErr result (Self.forest self.new ≡ Self.forest self.old) }
        ensures meter { Self.meter self.new ≡ Self.meter self.old }
        ensures lent { (Self.lent self.new ≡ Self.lent self.old) ⊎ (Self.lent self.new ≡ []) }
        ensures was_clean { Self.is_clean self.new → Self.is_clean self.old };

    /// Adds the tree of one node after the others, and says whether it did: only where there is
    /// such a tree. Else, and where it is refused, they are as before. What is lent was lent before.
    fn plant_lone(&mut self, kind: Kind, name: &str, value: &str) -> Result<bool, Want>
        ensures grown { IfOk result (λ did. did ≡ true → Self.forest self.new
            ≡ Self.forest self.old ++ lone kind name.now value.now ∷ []) }
        ensures left { IfOk result (λ did. did ≡ false
            → Self.forest self.new ≡ Self.forest self.old) }
        ensures kept { OnErr result (Self.forest self.new ≡ Self.forest self.old) }
        ensures meter { Self.meter self.new ≡ Self.meter self.old }
        ensures lent { (Self.lent self.new ≡ Self.lent self.old) ⊎ (Self.lent self.new ≡ []) }
        ensures was_clean { Self.is_clean self.new → Self.is_clean self.old };

    /// Adds an element with one text below it after the others, and says whether it did: only where
    /// there is such a tree. Else, and where it is refused, they are as before.
    fn plant_around(&mut self, name: &str, value: &str) -> Result<bool, Want>
        ensures grown { IfOk result (λ did. did ≡ true → Self.forest self.new
            ≡ Self.forest self.old ++ around_text name.now value.now ∷ []) }
        ensures left { IfOk result (λ did. did ≡ false
            → Self.forest self.new ≡ Self.forest self.old) }
        ensures kept { OnErr result (Self.forest self.new ≡ Self.forest self.old) }
        ensures meter { Self.meter self.new ≡ Self.meter self.old }
        ensures lent { (Self.lent self.new ≡ Self.lent self.old) ⊎ (Self.lent self.new ≡ []) }
        ensures was_clean { Self.is_clean self.new → Self.is_clean self.old };

    /// Adds a tree after the others: a root without a value, and below it copies of the trees whose
    /// roots the items are, side by side. Says whether it did: only where the items are roots of
    /// constructed trees, and there is such a tree; it is judged where these meet, and not within
    /// them. Else, and where it is refused, the trees are as before. What is lent was lent before.
    fn append_parent(&mut self, kind: Kind, name: &str, items: &[Item]) -> Result<bool, Want>
        ensures grown { IfOk result (λ did. did ≡ true → Grafts kind name.now
            (map item_view items.now) (Self.forest self.old) (Self.forest self.new)) }
        ensures left { IfOk result (λ did. did ≡ false
            → Self.forest self.new ≡ Self.forest self.old) }
        ensures kept { OnErr result (Self.forest self.new ≡ Self.forest self.old) }
        ensures meter { Self.meter self.new ≡ Self.meter self.old }
        ensures lent { (Self.lent self.new ≡ Self.lent self.old) ⊎ (Self.lent self.new ≡ []) }
        ensures was_clean { Self.is_clean self.new → Self.is_clean self.old };

    /// Takes the last tree away, where it is a constructed one, and gives it up; none where there
    /// is no such tree, and they are as before. What is lent was lent before.
    fn take_last(&mut self) -> Option<PackedTree>
        ensures taken { IfSome result (λ tree.
            Self.forest self.old ≡ Self.forest self.new ++ tree ∷ []) }
        ensures kept { IfNone result (Self.forest self.new ≡ Self.forest self.old) }
        ensures meter { Self.meter self.new ≡ Self.meter self.old }
        ensures lent { (Self.lent self.new ≡ Self.lent self.old) ⊎ (Self.lent self.new ≡ []) }
        ensures was_clean { Self.is_clean self.new → Self.is_clean self.old };
}

//! The laws of trees and their rows.
ghost use Rattle.xq_trees.specs.Beside.{RootsMakeTrees};
ghost use Rattle.xq_trees.specs.Laws.{RowsTellTrees, PathsHavePlaces, PlacesHavePaths, OrderIsThatOfPlaces, AxesAreRegions};
ghost use Rattle.xq_trees.specs.Subtrees.{SubtreesAreTrees};

/// Does nothing. Its contract says that rows tell of a tree all that there is to tell.
pub fn trees_are_their_rows()
    ensures equal { RowsTellTrees }
    ensures places { PathsHavePlaces }
    ensures paths { PlacesHavePaths }
    ensures order { OrderIsThatOfPlaces }
    ensures axes { AxesAreRegions }
{}

/// Does nothing. Its contract says that a node of a tree, with all that is below it, is a tree.
pub fn subtrees_are_trees()
    ensures { SubtreesAreTrees }
{}

/// Does nothing. Its contract says that trees that may meet below a root make a tree with it, whose
/// rows are the root's and after it theirs.
pub fn roots_make_trees()
    ensures { RootsMakeTrees }
{}

//! Every result of a query can be printed as a query: each function's contract is a law, and its
//! body does nothing.
ghost use Rattle.xq_readback.specs.Results.{LegibleIsPrintable, ResultsAreLegible};

/// Over documents that are trees, whatever query a text spells, each text of its result holds
/// characters of XML alone (XML 1.0, section 2.2), and each tree that it makes is a tree of XDM.
pub fn results_are_legible()
    ensures { ResultsAreLegible }
{}

/// Items with such texts over such trees can be printed so that they are read again, where their
/// numbers are within the bounds of their types.
pub fn legible_is_printable()
    ensures { LegibleIsPrintable }
{}

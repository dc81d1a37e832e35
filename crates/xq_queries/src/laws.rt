//! Laws about readings, and about values that are printed and read again.
ghost use Rattle.xq_queries.specs.ReadBack.{ReadsBack, ValuesArePrintable};
ghost use Rattle.xq_queries.specs.Reading.{ReadsAtMostOnce, FaultsComeLater};

use xq_readback::{
    legible_is_printable, print_spells, quoted_gives, results_are_legible, tokens_derive,
};

/// A text has one reading: an expression, or one code.
pub fn reads_at_most_once()
    ensures { ReadsAtMostOnce }
{}

/// A text in UTF-8 is refused for what its characters say: never as `prof:UTF8`, `prof:FRAME` or
/// `prof:ADDRESS`.
pub fn faults_come_later()
    ensures { FaultsComeLater }
{}

/// The text of a printable value is read as a query that gives this value, over any documents.
pub fn reads_back()
    ensures { ReadsBack }
{
    print_spells();
    tokens_derive();
    quoted_gives();
}

/// Each value of a query over documents that are trees is printable, where its numbers are within
/// the bounds of their types.
pub fn values_are_printable()
    ensures { ValuesArePrintable }
{
    results_are_legible();
    legible_is_printable();
}

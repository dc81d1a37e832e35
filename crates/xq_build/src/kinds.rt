//! What the printed form shows of a node, by its kind.
ghost use Rattle.std.specs.Prelude.{◌≡◌};
ghost use Rattle.xq_trees.specs.Print.{word as word_lem, is_named as is_named_lem, is_valued as is_valued_lem};

use xq_trees::Kind;

/// What a node of the kind begins with.
pub fn word(kind: Kind) -> &'static str
    ensures { result.now ≡ word_lem kind }
{
    match kind {
        Kind::Document => "document {",
        Kind::Element => "element ",
        Kind::Attribute => "attribute ",
        Kind::Text => "text {",
        Kind::Comment => "comment {",
        Kind::ProcessingInstruction => "processing-instruction ",
    }
}

/// Whether a name is printed.
pub fn is_named(kind: Kind) -> bool
    ensures { result ≡ is_named_lem kind }
{
    matches!(
        kind,
        Kind::Element | Kind::Attribute | Kind::ProcessingInstruction
    )
}

/// Whether a value is printed.
pub fn is_valued(kind: Kind) -> bool
    ensures { result ≡ is_valued_lem kind }
{
    !matches!(kind, Kind::Document | Kind::Element)
}

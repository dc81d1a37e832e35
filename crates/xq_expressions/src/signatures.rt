//! The functions that a query may call: their names, and how many arguments each takes.

ghost use Rattle.std.specs.Prelude.{◌≡◌};
ghost use Rattle.xq_expressions.specs.Signatures as spec;

/// A function of the library (F&O 3.1), or the constructor function of an atomic type
/// (XQuery 3.1, section 3.18.5): `ToInteger` is `xs:integer`.
#[derive(Clone, Copy, Debug, PartialEq, Eq)]
pub enum Function {
    Doc,
    DocAvailable,
    Collection,
    Root,
    Name,
    LocalName,
    String,
    Data,
    StringLength,
    NormalizeSpace,
    Concat,
    StringJoin,
    Contains,
    StartsWith,
    EndsWith,
    Substring,
    SubstringBefore,
    SubstringAfter,
    Count,
    Empty,
    Exists,
    Head,
    Tail,
    Reverse,
    DistinctValues,
    ZeroOrOne,
    OneOrMore,
    ExactlyOne,
    Not,
    Boolean,
    True,
    False,
    Position,
    Last,
    Sum,
    Min,
    Max,
    Abs,
    Floor,
    Ceiling,
    Round,
    ToInteger,
    ToDecimal,
    ToString,
    ToBoolean,
    ToUntyped,
}

/// How many arguments a function takes.
#[derive(Clone, Copy, Debug, PartialEq, Eq)]
pub struct Arity {
    pub least: usize,
    /// None: as many as the call has.
    pub greatest: Option<usize>,
}

impl Arity {
    /// So many arguments, no more and no fewer.
    fn exactly(count: usize) -> Arity
        ensures { result ≡ spec.exactly count }
    {
        Arity::between(count, count)
    }

    /// From the one number of arguments to the other, both included.
    fn between(least: usize, greatest: usize) -> Arity
        ensures { result ≡ spec.between least greatest }
    {
        Arity {
            least,
            greatest: Some(greatest),
        }
    }

    /// So many arguments or more.
    fn at_least(least: usize) -> Arity
        ensures { result ≡ spec.at_least least }
    {
        Arity {
            least,
            greatest: None,
        }
    }

    /// Whether a call may have so many arguments.
    pub fn admits(self, count: usize) -> bool
        ensures { result ≡ spec.admits self count }
    {
        self.least <= count
            && match self.greatest {
                Some(greatest) => count <= greatest,
                None => true,
            }
    }
}

/// The functions of F&O 3.1, whose names stand bare or after `fn:`.
const LIBRARY: [Function; 41] = [
    Function::Doc,
    Function::DocAvailable,
    Function::Collection,
    Function::Root,
    Function::Name,
    Function::LocalName,
    Function::String,
    Function::Data,
    Function::StringLength,
    Function::NormalizeSpace,
    Function::Concat,
    Function::StringJoin,
    Function::Contains,
    Function::StartsWith,
    Function::EndsWith,
    Function::Substring,
    Function::SubstringBefore,
    Function::SubstringAfter,
    Function::Count,
    Function::Empty,
    Function::Exists,
    Function::Head,
    Function::Tail,
    Function::Reverse,
    Function::DistinctValues,
    Function::ZeroOrOne,
    Function::OneOrMore,
    Function::ExactlyOne,
    Function::Not,
    Function::Boolean,
    Function::True,
    Function::False,
    Function::Position,
    Function::Last,
    Function::Sum,
    Function::Min,
    Function::Max,
    Function::Abs,
    Function::Floor,
    Function::Ceiling,
    Function::Round,
];

/// The constructor functions, whose names stand after `xs:`.
const CONSTRUCTORS: [Function; 5] = [
    Function::ToInteger,
    Function::ToDecimal,
    Function::ToString,
    Function::ToBoolean,
    Function::ToUntyped,
];

impl Function {
    /// The function's local name, as a call spells it: `count`, or `integer` of `xs:integer`.
    pub fn name(self) -> &'static str
        ensures { result.now ≡ spec.name self }
    {
        match self {
            Function::Doc => "doc",
            Function::DocAvailable => "doc-available",
            Function::Collection => "collection",
            Function::Root => "root",
            Function::Name => "name",
            Function::LocalName => "local-name",
            Function::String => "string",
            Function::Data => "data",
            Function::StringLength => "string-length",
            Function::NormalizeSpace => "normalize-space",
            Function::Concat => "concat",
            Function::StringJoin => "string-join",
            Function::Contains => "contains",
            Function::StartsWith => "starts-with",
            Function::EndsWith => "ends-with",
            Function::Substring => "substring",
            Function::SubstringBefore => "substring-before",
            Function::SubstringAfter => "substring-after",
            Function::Count => "count",
            Function::Empty => "empty",
            Function::Exists => "exists",
            Function::Head => "head",
            Function::Tail => "tail",
            Function::Reverse => "reverse",
            Function::DistinctValues => "distinct-values",
            Function::ZeroOrOne => "zero-or-one",
            Function::OneOrMore => "one-or-more",
            Function::ExactlyOne => "exactly-one",
            Function::Not => "not",
            Function::Boolean => "boolean",
            Function::True => "true",
            Function::False => "false",
            Function::Position => "position",
            Function::Last => "last",
            Function::Sum => "sum",
            Function::Min => "min",
            Function::Max => "max",
            Function::Abs => "abs",
            Function::Floor => "floor",
            Function::Ceiling => "ceiling",
            Function::Round => "round",
            Function::ToInteger => "integer",
            Function::ToDecimal => "decimal",
            Function::ToString => "string",
            Function::ToBoolean => "boolean",
            Function::ToUntyped => "untypedAtomic",
        }
    }

    /// How many arguments a call of the function has.
    pub fn arity(self) -> Arity
        ensures { result ≡ spec.arity self }
    {
        match self {
            Function::Doc => Arity::exactly(1),
            Function::DocAvailable => Arity::exactly(1),
            Function::Collection => Arity::exactly(0),
            Function::Root => Arity::between(0, 1),
            Function::Name => Arity::between(0, 1),
            Function::LocalName => Arity::between(0, 1),
            Function::String => Arity::between(0, 1),
            Function::Data => Arity::between(0, 1),
            Function::StringLength => Arity::between(0, 1),
            Function::NormalizeSpace => Arity::between(0, 1),
            Function::Concat => Arity::at_least(2),
            Function::StringJoin => Arity::between(1, 2),
            Function::Contains => Arity::exactly(2),
            Function::StartsWith => Arity::exactly(2),
            Function::EndsWith => Arity::exactly(2),
            Function::Substring => Arity::between(2, 3),
            Function::SubstringBefore => Arity::exactly(2),
            Function::SubstringAfter => Arity::exactly(2),
            Function::Count => Arity::exactly(1),
            Function::Empty => Arity::exactly(1),
            Function::Exists => Arity::exactly(1),
            Function::Head => Arity::exactly(1),
            Function::Tail => Arity::exactly(1),
            Function::Reverse => Arity::exactly(1),
            Function::DistinctValues => Arity::exactly(1),
            Function::ZeroOrOne => Arity::exactly(1),
            Function::OneOrMore => Arity::exactly(1),
            Function::ExactlyOne => Arity::exactly(1),
            Function::Not => Arity::exactly(1),
            Function::Boolean => Arity::exactly(1),
            Function::True => Arity::exactly(0),
            Function::False => Arity::exactly(0),
            Function::Position => Arity::exactly(0),
            Function::Last => Arity::exactly(0),
            Function::Sum => Arity::exactly(1),
            Function::Min => Arity::exactly(1),
            Function::Max => Arity::exactly(1),
            Function::Abs => Arity::exactly(1),
            Function::Floor => Arity::exactly(1),
            Function::Ceiling => Arity::exactly(1),
            Function::Round => Arity::exactly(1),
            Function::ToInteger => Arity::exactly(1),
            Function::ToDecimal => Arity::exactly(1),
            Function::ToString => Arity::exactly(1),
            Function::ToBoolean => Arity::exactly(1),
            Function::ToUntyped => Arity::exactly(1),
        }
    }

    /// The function of the library with this local name.
    pub fn in_library(name: &str) -> Option<Function>
        ensures { result ≡ spec.in_library name.now }
    {
        LIBRARY
            .iter()
            .copied()
            .find(|function| function.name() == name)
    }

    /// The constructor function of the atomic type with this local name.
    pub fn of_type(name: &str) -> Option<Function>
        ensures { result ≡ spec.of_type name.now }
    {
        CONSTRUCTORS
            .iter()
            .copied()
            .find(|function| function.name() == name)
    }
}

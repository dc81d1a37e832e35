//! Why a request is refused, and what a call may be in want of.
ghost use Rattle.std.specs.Prelude.{◌≡◌, ◌≤◌, length};

use std::alloc::{AllocError, AllocFailed};
use std::fmt;

/// The code that a refused request is answered with. The first 32 are error codes of
/// XQuery 3.1 (appendix F) and of Functions and Operators 3.1 (appendix C); those that begin
/// with `Prof` name a limit or a choice of this server's own profile.
#[derive(Clone, Copy, Debug, PartialEq, Eq)]
pub enum Code {
    XPST0003,
    XPST0008,
    XPST0017,
    XPDY0002,
    XPDY0050,
    XPTY0004,
    XPTY0018,
    XPTY0019,
    XPTY0020,
    XQST0089,
    XQST0090,
    XQST0094,
    XQTY0024,
    XQDY0025,
    XQDY0026,
    XQDY0041,
    XQDY0044,
    XQDY0064,
    XQDY0072,
    XQDY0074,
    FOAR0001,
    FOAR0002,
    FOCA0001,
    FOCA0003,
    FOCA0006,
    FODC0002,
    FODC0005,
    FORG0001,
    FORG0003,
    FORG0004,
    FORG0005,
    FORG0006,
    ProfUtf8,
    ProfDepth,
    ProfDigits,
    ProfDouble,
    ProfPrefix,
    ProfType,
    ProfRange,
    ProfLevel,
    ProfNodes,
    ProfReply,
    ProfFrame,
    ProfLong,
    ProfAddress,
    ProfAbsent,
    ProfNotdoc,
}

/// What a call was refused by its surroundings: memory, or a statement of the database.
#[derive(Clone, Copy, Debug, PartialEq, Eq)]
pub enum Want {
    Memory,
    Store,
}

/// Why a call that judges a request gave no value: the request's own fault, or a want.
#[derive(Clone, Copy, Debug, PartialEq, Eq)]
pub enum Fault {
    Code(Code),
    Want(Want),
}

impl Code {
    ghost use Rattle.xq_atoms.specs.Code.{code_text};

    /// The code's name, as a reply spells it: 8 to 12 bytes of ASCII.
    pub fn text(self) -> &'static str
        ensures text { result.now ≡ code_text self }
        ensures short { length result.now ≤ 12 }
    {
        match self {
            Code::XPST0003 => "XPST0003",
            Code::XPST0008 => "XPST0008",
            Code::XPST0017 => "XPST0017",
            Code::XPDY0002 => "XPDY0002",
            Code::XPDY0050 => "XPDY0050",
            Code::XPTY0004 => "XPTY0004",
            Code::XPTY0018 => "XPTY0018",
            Code::XPTY0019 => "XPTY0019",
            Code::XPTY0020 => "XPTY0020",
            Code::XQST0089 => "XQST0089",
            Code::XQST0090 => "XQST0090",
            Code::XQST0094 => "XQST0094",
            Code::XQTY0024 => "XQTY0024",
            Code::XQDY0025 => "XQDY0025",
            Code::XQDY0026 => "XQDY0026",
            Code::XQDY0041 => "XQDY0041",
            Code::XQDY0044 => "XQDY0044",
            Code::XQDY0064 => "XQDY0064",
            Code::XQDY0072 => "XQDY0072",
            Code::XQDY0074 => "XQDY0074",
            Code::FOAR0001 => "FOAR0001",
            Code::FOAR0002 => "FOAR0002",
            Code::FOCA0001 => "FOCA0001",
            Code::FOCA0003 => "FOCA0003",
            Code::FOCA0006 => "FOCA0006",
            Code::FODC0002 => "FODC0002",
            Code::FODC0005 => "FODC0005",
            Code::FORG0001 => "FORG0001",
            Code::FORG0003 => "FORG0003",
            Code::FORG0004 => "FORG0004",
            Code::FORG0005 => "FORG0005",
            Code::FORG0006 => "FORG0006",
            Code::ProfUtf8 => "prof:UTF8",
            Code::ProfDepth => "prof:DEPTH",
            Code::ProfDigits => "prof:DIGITS",
            Code::ProfDouble => "prof:DOUBLE",
            Code::ProfPrefix => "prof:PREFIX",
            Code::ProfType => "prof:TYPE",
            Code::ProfRange => "prof:RANGE",
            Code::ProfLevel => "prof:LEVEL",
            Code::ProfNodes => "prof:NODES",
            Code::ProfReply => "prof:REPLY",
            Code::ProfFrame => "prof:FRAME",
            Code::ProfLong => "prof:LONG",
            Code::ProfAddress => "prof:ADDRESS",
            Code::ProfAbsent => "prof:ABSENT",
            Code::ProfNotdoc => "prof:NOTDOC",
        }
    }
}

impl fmt::Display for Code {
    ghost use Rattle.std.specs.Prelude.{Some};
    ghost use Rattle.xq_atoms.specs.Code.{code_text};

    ghost output = { λ code. Some (code_text code) };

    fn fmt<W: fmt::Write>(&self, f: &mut fmt::Formatter<W>) -> fmt::Result {
        f.write_str(self.text())
    }
}

impl Want {
    ghost use Rattle.xq_atoms.specs.Code.{want_text};

    /// The word that a reply spells: `memory` or `store`.
    pub fn text(self) -> &'static str
        ensures text { result.now ≡ want_text self }
        ensures short { length result.now ≤ 6 }
    {
        match self {
            Want::Memory => "memory",
            Want::Store => "store",
        }
    }
}

impl fmt::Display for Want {
    ghost use Rattle.std.specs.Prelude.{Some};
    ghost use Rattle.xq_atoms.specs.Code.{want_text};

    ghost output = { λ want. Some (want_text want) };

    fn fmt<W: fmt::Write>(&self, f: &mut fmt::Formatter<W>) -> fmt::Result {
        f.write_str(self.text())
    }
}

/// A refused growth is want of memory.
impl From<AllocError> for Want {
    ghost use Rattle.xq_atoms.specs.declared.refusals.Want.TheVariants.{Memory};

    ghost from_gives = { λ _ want. want ≡ Memory };

    fn from(_refused: AllocError) -> Self {
        Want::Memory
    }
}

/// A refused growth is want of memory.
impl From<AllocError> for Fault {
    ghost use Rattle.xq_atoms.specs.declared.refusals.Fault.TheVariants.{Want as OfWant};
    ghost use Rattle.xq_atoms.specs.declared.refusals.Want.TheVariants.{Memory};

    ghost from_gives = { λ _ fault. fault ≡ OfWant Memory };

    fn from(_refused: AllocError) -> Self {
        Fault::Want(Want::Memory)
    }
}

/// A refused growth is want of memory; the item that found no room is dropped.
impl<T: Drop> From<AllocFailed<T>> for Want {
    ghost use Rattle.xq_atoms.specs.declared.refusals.Want.TheVariants.{Memory};

    ghost from_gives = { λ _ want. want ≡ Memory };

    fn from(_refused: AllocFailed<T>) -> Self {
        Want::Memory
    }
}

/// A refused growth is want of memory; the item that found no room is dropped.
impl<T: Drop> From<AllocFailed<T>> for Fault {
    ghost use Rattle.xq_atoms.specs.declared.refusals.Fault.TheVariants.{Want as OfWant};
    ghost use Rattle.xq_atoms.specs.declared.refusals.Want.TheVariants.{Memory};

    ghost from_gives = { λ _ fault. fault ≡ OfWant Memory };

    fn from(_refused: AllocFailed<T>) -> Self {
        Fault::Want(Want::Memory)
    }
}

impl From<Code> for Fault {
    ghost use Rattle.xq_atoms.specs.declared.refusals.Fault.TheVariants.{Code as OfCode};

    ghost from_gives = { λ code fault. fault ≡ OfCode code };

    fn from(code: Code) -> Self {
        Fault::Code(code)
    }
}

impl From<Want> for Fault {
    ghost use Rattle.xq_atoms.specs.declared.refusals.Fault.TheVariants.{Want as OfWant};

    ghost from_gives = { λ want fault. fault ≡ OfWant want };

    fn from(want: Want) -> Self {
        Fault::Want(want)
    }
}

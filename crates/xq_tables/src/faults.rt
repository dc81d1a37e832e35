//! Why a database is not adopted.
ghost use Rattle.std.specs.Prelude.{◌≡◌};

use crate::refusals::Refusal;
use thiserror::Error;
use xq_atoms::Want;

/// Why a database is not adopted.
#[derive(Debug, Drop, Error)]
pub enum OpenFault {
    /// Memory ran out, or the database refused for a cause that lies not in its tables.
    #[error("want of memory or of the database")]
    Want(Want),
    /// Its tables are not those of a store, or hold rows that are not those of documents.
    #[error("the database is no store of documents")]
    NotAStore,
}

/// A refusal of the database tells nothing of its tables, which are looked at before.
impl From<sqlite::Error> for OpenFault {
    ghost use Rattle.xq_tables.specs.Faults.{fault_of};

    ghost from_gives = { λ error fault. fault ≡ fault_of error };

    fn from(error: sqlite::Error) -> Self {
        OpenFault::Want(Want::from(Refusal(error)))
    }
}

impl From<Refusal> for OpenFault {
    ghost use Rattle.xq_tables.specs.Faults.{fault_of};

    ghost from_gives = { λ refusal fault. fault ≡ fault_of refusal.0 };

    fn from(refusal: Refusal) -> Self {
        OpenFault::Want(Want::from(refusal))
    }
}

impl From<Want> for OpenFault {
    ghost use Rattle.xq_tables.specs.declared.faults.OpenFault.TheVariants.{Want as Wanted};

    ghost from_gives = { λ want fault. fault ≡ Wanted want };

    fn from(want: Want) -> Self {
        OpenFault::Want(want)
    }
}

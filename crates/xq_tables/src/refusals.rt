//! What the database answers in place of a result.

ghost use Rattle.std.specs.Prelude.{◌≡◌};

use sqlite::{Error, ErrorCode};
use std::alloc::AllocFailed;
use xq_atoms::Want;

/// A refusal of the database, on its way to the caller of a store.
#[derive(Debug, Drop)]
pub struct Refusal(pub Error);

impl From<Error> for Refusal {
    ghost from_gives = { λ error refusal. refusal.0 ≡ error };

    fn from(error: Error) -> Self {
        Refusal(error)
    }
}

/// What is refused for memory is refused as the database refuses it.
impl<T: Drop> From<AllocFailed<T>> for Refusal {
    ghost use Rattle.sqlite.specs.declared.error.ErrorCode.TheVariants.{OutOfMemory};
    ghost use Rattle.sqlite.specs.declared.error.Error.TheVariants.{SqliteFailure};

    ghost from_gives = { λ _ refusal. refusal.0 ≡ SqliteFailure OutOfMemory };

    fn from(failed: AllocFailed<T>) -> Self {
        Refusal(Error::from(failed))
    }
}

/// The database's refusal for memory is want of memory, any other want of the store.
impl From<Refusal> for Want {
    ghost use Rattle.xq_tables.specs.Faults.{want_of};

    ghost from_gives = { λ refusal want. want ≡ want_of refusal.0 };

    fn from(refusal: Refusal) -> Self {
        match refusal.0 {
            Error::SqliteFailure(ErrorCode::OutOfMemory) => Want::Memory,
            _ => Want::Store,
        }
    }
}

//! The adoption of a database that was opened.
ghost use Rattle.std.specs.Prelude.{◌≡◌, ◌⊎◌, IfSome};
ghost use Rattle.std.specs.FinMap.{empty};
ghost use Rattle.xq_store.specs.Adoption.{HasTables, IsBlank};
ghost use Rattle.xq_tables.specs.Documents.{HoldsDocuments, IsClean, IsOpen, StandsFor, documents};

use crate::files::remove_log;
use sqlite::{Alter, Connection};
use xq_store::Store;

/// The store of a database that was opened: of its documents, or of none where it has no table.
/// Where it is refused it is still held as its log is removed. So many bytes of rows are kept at most.
pub fn adopted<S: Alter + Drop>(
    rt: &HostRuntime,
    conn: Connection<S>,
    log: Option<String>,
    kept: Option<usize>,
) -> Option<Store<S>>
    ensures known { IfSome result (λ store. IsBlank S.Store conn ⊎ HasTables S.Store conn) }
    ensures made { IfSome result (λ store. IsClean S.Store store → IsBlank S.Store conn
        → StandsFor S.Store store empty) }
    ensures found { IfSome result (λ store. IsClean S.Store store → HasTables S.Store conn
        → HoldsDocuments S.Store conn × StandsFor S.Store store (documents S.Store conn)) }
    ensures was_clean { IfSome result (λ store. IsClean S.Store store
        → IsClean S.Store conn) }
    ensures open { IfSome result (λ store. IsClean S.Store store → IsOpen S.Store store) }
{
    if !conn.is_autocommit() {
        return None;
    }
    match Store::adopt(rt.alloc(), conn, kept) {
        Ok(store) => Some(store),
        Err((_fault, _held)) => {
            remove_log(rt, log);
            None
        }
    }
}

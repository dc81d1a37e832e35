//! The service over the database in a file, from its opening to its close.
ghost use Rattle.std.specs.Prelude.{IfSome};
ghost use Rattle.sqlite.specs.WalFiles.{image_at};
ghost use Rattle.sqlite_wal.specs.Reads.{AreClean};
ghost use Rattle.xq_serve.specs.Files.{ServesFiles};

use sqlite::{FileFrom, Files, Start};
use sqlite_disk::Disk;
use std::io::{Read, Write};
use xq_databases::{close_store, open_store};
use xq_frame::Counted;
use xq_server::{End, Server};

/// Serves the database in the file at a path: how the service ended, and the files, which are closed
/// as they are let go. None for a file that can't be opened; no files where the log could not be
/// copied into the database: the two stay, and the next opening reads both.
///
/// `kept` says how many bytes of what queries read are kept for later ones; none leaves that to the
/// store. `start` stands for what the files hold as they are opened. While the disk returns what was
/// written, the requests are answered over the documents that the files held, and the files open to
/// those that the last accepted request left.
pub fn serve_file<S: Start, R: Read, W: Write>(
    rt: &HostRuntime,
    path: &str,
    start: S,
    kept: Option<usize>,
    reader: &mut Counted<R>,
    writer: &mut Counted<W>,
    max_frames: u64,
) -> Option<(End, Option<Files<FileFrom<S>>>)>
    ensures { IfSome result (λ served. IfSome served.1 (λ files.
        AreClean ⟦<FileFrom<S> as Disk>⟧ files.log files.db
        → ServesFiles ⟦<FileFrom<S> as Disk>⟧ (image_at S.Start)
        (R.remaining reader.old.inner) (R.remaining reader.new.inner)
        (W.contents writer.old.inner) (W.contents writer.new.inner) max_frames served.0 files)) }
{
    let store = open_store(rt, path, start, kept)?;
    let mut server = Server::new(rt.alloc(), store);
    let end = server.serve(reader, writer, max_frames);
    let store = server.into_store();
    Some((end, close_store(store)))
}

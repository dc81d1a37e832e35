//! How often a call that was interrupted is made again.
ghost use Rattle.std.specs.Prelude.{◌≡◌, ◌≢◌, ◌+◌, ◌⊎◌, true, false};
ghost use Rattle.std.specs.IoError.{error_kind};

use std::io::{Error, ErrorKind};

/// So many interruptions of one frame are borne, its reads and writes counted together; the next is
/// a fault.
const BORNE: u32 = 999;

/// How many interruptions are still borne.
#[derive(Clone, Copy)]
pub struct Tries {
    left: u32,
}

impl Tries {
    /// The tries for one frame and its reply.
    pub fn for_a_frame() -> Tries
        ensures { result.left ≡ 999 }
    {
        Tries { left: BORNE }
    }

    /// Whether a call that failed so should be made again. It then counts as one interruption.
    pub(crate) fn allows(&mut self, error: &Error) -> bool
        ensures interrupted { result ≡ true → error_kind error.now ≡ ErrorKind.Interrupted }
        ensures counted { result ≡ true → self.new.left + 1 ≡ self.old.left }
        ensures fault { result ≡ false → (error_kind error.now ≢ ErrorKind.Interrupted)
            ⊎ (self.old.left ≡ 0) }
        ensures kept { result ≡ false → self.new.left ≡ self.old.left }
    {
        if error.kind() != ErrorKind::Interrupted || self.left == 0 {
            return false;
        }
        self.left -= 1;
        true
    }
}

//! How the program ends: its exit status, and its line on standard error.
ghost use Rattle.std.specs.Prelude.{◌≡◌};
ghost use Rattle.xq_command.specs.Ending.{outcome as outcome_lem};

use xq_server::End;

/// The exit status and the line on standard error of a run that ended so; no line is empty but
/// that of a finished one.
pub fn outcome(end: End) -> (u8, &'static str)
    ensures { (result.0, result.1.now) ≡ outcome_lem end }
{
    match end {
        End::Finished => (0, ""),
        End::Cut => (1, "xq_server: cut frame"),
        End::TooLong => (1, "xq_server: frame too long"),
        End::Bound => (1, "xq_server: frame limit"),
        End::ReadFault => (1, "xq_server: read fault"),
        End::WriteFault => (1, "xq_server: write fault"),
        End::NoRoom => (1, "xq_server: memory"),
    }
}

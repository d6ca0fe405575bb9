// What an error of a reader or a writer comes to.
ghost use Rattle.std.specs.Prelude.{◌≡◌, ◌<◌, ◌≤◌, IsTrue, IsFalse};
ghost use Rattle.std.specs.IoError.{error_kind};
ghost use Rattle.grove_io.specs.Outside.{counted_once_more};
ghost use Rattle.grove_io.specs.Tries.{IsLast};

use std::io::{Error, ErrorKind};

/// Counts an error, and answers whether it ends the call of the source or sink. An interruption does only where the count
/// is at its last value.
pub(crate) fn ends_call(error: &Error, faults: &mut u64) -> bool
    ensures counted { faults.new ≡ counted_once_more faults.old }
    ensures never_falls { faults.old ≤ faults.new }
    ensures last { IsTrue result → IsLast faults.old error.now }
    ensures again { IsFalse result → error_kind error.now ≡ ErrorKind.Interrupted }
    ensures rises { IsFalse result → faults.old < faults.new }
{
    *faults = faults.saturating_add(1);
    error.kind() != ErrorKind::Interrupted || *faults == u64::MAX
}

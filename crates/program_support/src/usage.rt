//! Help, the version, and what is wrong with a command line.
ghost use Rattle.std.specs.Prelude.{◌≡◌, ◌≢◌, ◌⊎◌, IfOk};
ghost use Rattle.clap.specs.Values.{kind_of};
ghost use Rattle.clap.specs.declared.error.kind.ErrorKind.TheVariants.{DisplayHelp, DisplayVersion};

use crate::escape::escape_lines;
use crate::status::Status;
use std::alloc::AllocError;

/// Prints help, the version or what is wrong with a command line, with escapes of hidden characters, and
/// returns the status. The only error is an allocation failure.
pub fn print_usage(rt: &HostRuntime, error: &clap::Error) -> Result<Status, AllocError>
    ensures wrong { IfOk result (λ status. kind_of error.now ≢ DisplayHelp
        → kind_of error.now ≢ DisplayVersion → status ≡ Status.Unreadable) }
    ensures asked { IfOk result (λ status.
        (kind_of error.now ≡ DisplayHelp) ⊎ (kind_of error.now ≡ DisplayVersion) → status ≡ Status.Done) }
{
    let alloc = rt.alloc();
    let usage = format!(in alloc; "{error}")?;
    let shown = escape_lines(alloc, usage.as_str())?;
    if error.use_stderr() {
        let _ = rt.eprint(shown.as_str());
        Ok(Status::Unreadable)
    } else {
        let _ = rt.print(shown.as_str());
        Ok(Status::Done)
    }
}

ghost use Rattle.std.specs.Prelude.{◌≡◌};
ghost use Rattle.std.specs.Process.{exit_status};
ghost use Rattle.rt_program.specs.Status.{status_by};

use rt_lines::PlayFault;
use std::alloc::{Alloc, Global};
use std::io::Eprint;
use std::process::ExitCode;

/// The status with which a program of this usage line ends. A fault is told on standard error.
pub fn end<T: Drop, R: Eprint + Alloc<A = Global>>(
    rt: &R,
    ended: Result<T, PlayFault>,
    usage: &str,
) -> ExitCode
    ensures { exit_status result ≡ status_by ended }
{
    match ended {
        Ok(_) => ExitCode::SUCCESS,
        Err(fault) => {
            let _ = match fault.text(rt.alloc(), usage) {
                Ok(text) => eprintln!(rt; "{text}"),
                Err(_) => eprintln!(rt; "out of memory"),
            };
            ExitCode::from(fault.status())
        }
    }
}

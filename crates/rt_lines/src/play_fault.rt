ghost use Rattle.std.specs.Prelude.{◌≡◌, IfOk, string_bytes};
ghost use Rattle.rt_lines.specs.Fault.{fault_text, reason_text, refused_text, status_of};
ghost use Rattle.rt_lines.specs.declared.play_fault.PlayFault.TheVariants.{Memory};

use crate::LineReason;
use rt_base::Which;
use std::alloc::{AllocError, Global};

/// Why a run ended before its input did.
#[derive(Clone, Copy, Debug, PartialEq, Eq)]
pub enum PlayFault {
    /// The words aren't those of the program.
    Usage,
    /// The line of this number, counted from 1, is refused.
    Refused { line: u64, reason: LineReason },
    /// The source failed.
    ReadFault,
    /// The sink failed.
    WriteFault,
    /// Memory ran out.
    Memory,
    /// The input, its header or an event goes beyond a limit.
    Limit(Which),
}

impl From<AllocError> for PlayFault {
    ghost from_gives = { λ _ e. e ≡ Memory };

    fn from(_error: AllocError) -> Self {
        PlayFault::Memory
    }
}

impl PlayFault {
    /// The line for standard error, without its newline, of a program with this usage line.
    pub fn text(self, alloc: Global, usage: &str) -> Result<String, AllocError>
        ensures { IfOk result (λ text. string_bytes text ≡ fault_text usage.now self) }
    {
        match self {
            PlayFault::Usage => String::from_str(alloc, usage),
            PlayFault::Refused { line, reason } => refusal_text(alloc, line, reason),
            PlayFault::ReadFault => format!(in alloc; "read failed"),
            PlayFault::WriteFault => format!(in alloc; "write failed"),
            PlayFault::Memory => format!(in alloc; "out of memory"),
            PlayFault::Limit(which) => {
                let name = which.name();
                format!(in alloc; "limit: {name}")
            }
        }
    }

    /// The status with which a program ends.
    pub fn status(self) -> u8
        ensures { result ≡ status_of self }
    {
        match self {
            PlayFault::Usage => 2,
            PlayFault::Refused { .. } => 3,
            PlayFault::ReadFault => 4,
            PlayFault::WriteFault => 5,
            PlayFault::Memory => 6,
            PlayFault::Limit(_) => 7,
        }
    }
}

fn refusal_text(alloc: Global, line: u64, reason: LineReason) -> Result<String, AllocError>
    ensures { IfOk result (λ text. string_bytes text ≡ refused_text line (reason_text reason)) }
{
    let text = reason.text(alloc)?;
    refusal_line(alloc, line, text.as_str())
}

fn refusal_line(alloc: Global, line: u64, reason: &str) -> Result<String, AllocError>
    ensures { IfOk result (λ text. string_bytes text ≡ refused_text line reason.now) }
{
    format!(in alloc; "line {line}: {reason}")
}

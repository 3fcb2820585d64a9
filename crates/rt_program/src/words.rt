ghost use Rattle.std.specs.Prelude.{◌≡◌, ◌⊎◌, IfErr, IfOk, map, string_bytes};
ghost use Rattle.rt_lines.specs.declared.play_fault.PlayFault.TheVariants.{Usage, Memory};

use rt_lines::PlayFault;
use std::alloc::{Alloc, AllocError, Global};
use std::env::{self, Env};
use std::io;

/// The words behind a program's name. Fails with Usage where one of them isn't UTF-8, which is none of a program's, and
/// else only where memory is refused.
pub fn words_of<R: Env + Alloc<A = Global>>(rt: &R) -> Result<Vec<String>, PlayFault>
    ensures refused { IfErr result (λ fault. (fault ≡ Usage) ⊎ (fault ≡ Memory)) }
{
    let mut words = Vec::new(rt.alloc());
    let args = match env::args(rt) {
        Ok(args) => args,
        Err(error) if error.kind() == io::ErrorKind::OutOfMemory => return Err(PlayFault::Memory),
        Err(_) => return Err(PlayFault::Usage),
    };
    for word in args.skip(1) {
        if words.push(word).is_err() {
            return Err(PlayFault::Memory);
        }
    }
    Ok(words)
}

/// Texts as slices.
pub fn slices_of<'a>(alloc: Global, texts: &'a [String]) -> Result<Vec<&'a str>, AllocError>
    ensures { IfOk result (λ slices. map (λ slice. slice.now) slices.items ≡ map string_bytes texts.now) }
{
    let mut slices = Vec::new(alloc);
    for text in texts {
        slices.push(text.as_str())?;
    }
    Ok(slices)
}

use rt_front::{Blank, found};
use std::alloc::{AllocError, Global};

/// How long a front that has seen nothing finds the history before, between and after two entries of another front.
pub fn between(alloc: Global) -> Result<String, AllocError> {
    let (chronicle, mut keeper, mut fronts) = found(alloc, Blank::<u64>::new(alloc)?, 2)?;
    let Some(mut silent) = fronts.pop() else {
        return Err(AllocError);
    };
    let Some(mut front) = fronts.pop() else {
        return Err(AllocError);
    };
    let before = silent.look(&chronicle);
    keeper.advance(&chronicle, &mut front, &7);
    let between = silent.look(&chronicle);
    keeper.advance(&chronicle, &mut front, &8);
    let after = silent.look(&chronicle);
    let seen = silent.told();
    format!(in alloc; "{before}, {between}, {after}, with {seen} entries seen")
}

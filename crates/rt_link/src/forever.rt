use std::sync::Wait;

/// Waits for ever. It is for one whose count has come to its last value: it does nothing more.
pub fn never<T, R: Wait>(rt: &R) -> T
    ensures { ⊥ }
{
    for _ in rt.forever() {}
    unreachable!()
}

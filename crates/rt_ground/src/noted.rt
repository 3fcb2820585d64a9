/// For whom an entry was added: the first number of the front, and how many entries that front had seen before.
#[derive(Clone, Copy)]
pub struct Noted {
    pub front: u64,
    pub told: u64,
}

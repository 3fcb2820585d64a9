use crate::GroupKey;

/// A group of a table: its key and its number.
#[derive(Clone, Copy)]
pub(crate) struct GroupRef<'a> {
    pub(crate) key: &'a GroupKey,
    pub(crate) number: usize,
}

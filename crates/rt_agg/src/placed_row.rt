/// A row of a page, and the index of its group.
#[derive(Clone, Copy, Debug, PartialEq, Eq)]
pub struct PlacedRow {
    pub row: u32,
    pub group: usize,
}

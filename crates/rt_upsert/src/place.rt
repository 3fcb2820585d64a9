use rt_base::Sequence;

/// The place of a row in its partition: the segment by its sequence, then the row in it, counted from 0. Places are
/// ordered by sequence, then row.
#[derive(Clone, Copy, Debug, PartialEq, Eq, PartialOrd, Ord)]
pub struct Place {
    pub sequence: Sequence,
    pub row: u32,
}

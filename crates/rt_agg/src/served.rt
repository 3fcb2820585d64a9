use crate::Groups;
use rt_base::Range;

/// What a server answers for a piece: the range of offsets whose rows it took, and their groups.
#[derive(Drop)]
pub struct Served {
    pub range: Range,
    pub groups: Groups,
}

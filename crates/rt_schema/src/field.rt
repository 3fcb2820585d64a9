use crate::{Kind, Role};
use rt_lists::Text;

/// A field of a schema text: a column whose type isn't judged yet.
#[derive(Drop)]
pub(crate) struct Field {
    pub(crate) name: Text,
    /// None where the field's type isn't taken.
    pub(crate) kind: Option<Kind>,
    pub(crate) role: Role,
}

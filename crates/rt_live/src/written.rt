use rt_base::Offset;

/// What is told and written of a run whose caller isn't handed on.
#[derive(Drop)]
pub(crate) struct Written {
    pub(crate) ends: Vec<Offset>,
    pub(crate) text: String,
}

/// The fault that a call of a store or of another outside object meets.
#[derive(Clone, Copy, Debug, PartialEq, Eq)]
pub enum Fault {
    /// None: the call is carried out, and answered.
    Nothing,
    /// The call isn't carried out, and its answer is lost.
    Lost,
    /// The call is carried out, and only its answer is lost.
    Kept,
}

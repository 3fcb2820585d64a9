/// One end of a range of keys.
#[derive(Debug, Drop)]
pub enum Edge<K> {
    /// Bounds nothing.
    Open,
    /// The range reaches to this key and has it.
    At(K),
    /// The range reaches to this key and leaves it out.
    Past(K),
}

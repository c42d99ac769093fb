//! What a principal acts on, as its functions are given it.

/// What a player acts on: standard output, the link that it plays over, and the source of random bytes.
#[derive(Drop)]
pub struct Stage<'a, O, L, R> {
    /// Standard output.
    pub out: &'a mut O,
    /// The link.
    pub link: &'a mut L,
    /// The source of random bytes.
    pub fresh: &'a mut R,
}

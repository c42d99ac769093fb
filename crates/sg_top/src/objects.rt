//! What the program acts on, as the functions under `top` are given it.

/// The objects that a command may be about. Standard error isn't among them: of a work it is said there only how it ended.
#[derive(Drop)]
pub struct Objects<'a, F, O, L, R, D, S, P, I> {
    /// The files that the arguments name.
    pub files: &'a mut F,
    /// Standard output.
    pub out: &'a mut O,
    /// The link.
    pub link: &'a mut L,
    /// The source of random bytes.
    pub fresh: &'a mut R,
    /// The disk of a ledger.
    pub disk: &'a mut D,
    /// The link over connections.
    pub stream: &'a mut S,
    /// The link over connections that are kept.
    pub port: &'a mut P,
    /// Standard input.
    pub input: &'a mut I,
}

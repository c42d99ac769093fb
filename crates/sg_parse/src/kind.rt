//! The kinds of statements after a graph's name.
ghost use Rattle.std.specs.Prelude.{◌≡◌};
ghost use Rattle.sg_parse.specs.Kinds.{first_word};

// What a statement declares.
#[derive(Clone, Copy)]
pub enum Kind {
    Role,
    Var,
    Node,
    Edge,
}

// The word that begins a statement of this kind.
pub fn first_word(kind: Kind) -> &'static [u8]
    ensures { result.now ≡ first_word kind }
{
    match kind {
        Kind::Role => b"role",
        Kind::Var => b"var",
        Kind::Node => b"node",
        Kind::Edge => b"edge",
    }
}

//! Numbers that mean something. A clause sees each as its number, and an identifier or a tag as its bytes.
ghost use Rattle.std.specs.Prelude.{◌∷◌, []};
ghost use Rattle.std.specs.Cmp.Rules.{hashing};
ghost use Rattle.std.proofs.Common.{rules};

use std::hash::{Hash, Hasher};
use std::marker::Model;

/// A role of a graph, by its index in the order of declaration, from 0 to 15.
#[derive(Debug, Clone, Copy, PartialEq, Eq, Hash)]
pub struct Role(pub u8);

impl Model for Role {
    ghost use Rattle.std.specs.Prelude.{ℕ};

    ghost Value = { ℕ };

    ghost view = { λ r. r.0 };

    ghost inverse = { λ n. record { 0 = n } };
}

/// A variable of a graph, by its index in the order of declaration, from 0 to 31.
#[derive(Debug, Clone, Copy, PartialEq, Eq)]
pub struct Var(pub u8);

impl Model for Var {
    ghost use Rattle.std.specs.Prelude.{ℕ};

    ghost Value = { ℕ };

    ghost view = { λ v. v.0 };

    ghost inverse = { λ n. record { 0 = n } };
}

/// A node of a graph, by its index in the order of declaration, from 0 to 255. Node 0 is the start.
#[derive(Debug, Clone, Copy, PartialEq, Eq)]
pub struct NodeId(pub u16);

impl Model for NodeId {
    ghost use Rattle.std.specs.Prelude.{ℕ};

    ghost Value = { ℕ };

    ghost view = { λ n. n.0 };

    ghost inverse = { λ n. record { 0 = n } };
}

/// An edge of a graph, which is its label, by its index in the order of declaration, from 0 to 511.
#[derive(Debug, Clone, Copy, PartialEq, Eq)]
pub struct Label(pub u16);

impl Model for Label {
    ghost use Rattle.std.specs.Prelude.{ℕ};

    ghost Value = { ℕ };

    ghost view = { λ l. l.0 };

    ghost inverse = { λ n. record { 0 = n } };
}

/// The time of a step in its session, in steps: the first message has time 1, and the greatest time is 1,000,000.
#[derive(Debug, Clone, Copy, PartialEq, Eq)]
pub struct Time(pub u32);

impl Model for Time {
    ghost use Rattle.std.specs.Prelude.{ℕ};

    ghost Value = { ℕ };

    ghost view = { λ t. t.0 };

    ghost inverse = { λ n. record { 0 = n } };
}

/// A session identifier: the SHA-256 digest of the session's text.
#[derive(Clone, Copy, PartialEq, Eq)]
pub struct Sid(pub [u8; 32]);

impl Model for Sid {
    ghost use Rattle.std.specs.Prelude.{ℕ, List};

    ghost Value = { List ℕ };

    ghost view = { λ s. s.0 };

    ghost inverse = { λ bytes. record { 0 = bytes } };
}

// Its bytes in one piece: a hash table is asked for sessions more often than for anything else.
impl Hash for Sid {
    ghost hash_input = { λ s. s ∷ [] };

    ghost respects_eq = { Prim.search (hashing, rules) };

    fn hash<H: Hasher>(&self, state: &mut H) {
        state.write(&self.0);
    }
}

/// An HMAC-SHA-256 tag (RFC 2104), of 32 bytes.
#[derive(Clone, Copy, PartialEq, Eq)]
pub struct Tag(pub [u8; 32]);

impl Model for Tag {
    ghost use Rattle.std.specs.Prelude.{ℕ, List};

    ghost Value = { List ℕ };

    ghost view = { λ t. t.0 };

    ghost inverse = { λ bytes. record { 0 = bytes } };
}

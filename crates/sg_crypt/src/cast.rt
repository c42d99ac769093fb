//! Who takes part in a session.
ghost use Rattle.std.specs.Prelude.{◌≡◌, ◌↔◌, ◌≤◌, length, slice_get, IfSome, IsSome, IsTrue};
ghost use Rattle.std.specs.List.{AllByRecursion};
ghost use Rattle.sg_model.specs.Names.{is_name};
ghost use Rattle.sg_protocol.specs.Frame.{IsCastOf};
ghost use Rattle.sg_protocol.specs.TextLaws.{IsVersion};
ghost use Rattle.sg_crypt.specs.Model.{filled};

use sg_base::{Name, Role, facts_of_bytes};
use std::marker::Model;

/// Who takes part in a session: the version of its frames, 1 or 2, the digest of its graph, sixteen bytes that distinguish it from other
/// sessions, and the principal of each role in order, 2 to 16.
#[derive(Clone, Copy, PartialEq, Eq)]
pub struct Cast {
    version: u8,
    graph: [u8; 32],
    nonce: [u8; 16],
    count: u8,
    names: [Name; 16],
}

impl Model for Cast {
    ghost use Rattle.sg_protocol.specs.Frame.{Cast};

    ghost Value = { Cast };

    ghost use Rattle.sg_crypt.specs.Model.{cast_of, fields_of};
    ghost use Rattle.sg_crypt.specs.Invariant.{HoldsCast};
    ghost use Rattle.sg_crypt.specs.CastsBack.{fields_of-cast_of};

    ghost view = { cast_of };

    ghost invariant = { HoldsCast };

    ghost inverse = { fields_of };

    ghost inverse_ok = { fields_of-cast_of };
}

impl Cast {
    /// The cast of these parts, or `None` if the version is neither 1 nor 2, or there are fewer than 2 or more than 16 names. It
    /// takes no memory.
    pub fn new(version: u8, graph: [u8; 32], nonce: [u8; 16], names: &[Name]) -> Option<Cast>
        ensures found { IsSome result ↔ (IsVersion version × (2 ≤ length names.now) × (length names.now ≤ 16)) }
        ensures value { IfSome result (λ c. c ≡ record { version = version; graph = graph; nonce = nonce; names = names.now }) }
    {
        if (version != 1 && version != 2) || names.len() < 2 || names.len() > 16 {
            return None;
        }
        facts_of_bytes(&graph);
        facts_of_bytes(&nonce);
        facts_of_names(names);
        Some(Cast {
            version,
            graph,
            nonce,
            count: names.len() as u8,
            names: filled(names),
        })
    }

    /// The version of the session's frames: 1 or 2.
    pub fn version(&self) -> u8
        ensures value { result ≡ self.now.version }
        ensures version { IsVersion self.now.version }
        ensures cast { IsCastOf self.now.version self.now }
    {
        self.version
    }

    /// The digest of the session's graph.
    pub fn graph(&self) -> [u8; 32]
        ensures { result ≡ self.now.graph }
    {
        self.graph
    }

    /// The sixteen bytes that distinguish the session from others.
    pub fn nonce(&self) -> [u8; 16]
        ensures { result ≡ self.now.nonce }
    {
        self.nonce
    }

    /// The number of roles, from 2 to 16.
    pub fn count(&self) -> u8
        ensures value { result ≡ length self.now.names }
        ensures bounds { (2 ≤ result) × (result ≤ 16) }
    {
        self.count
    }

    /// The principal of a role, or `None` if the role isn't below the count. It takes no memory.
    pub fn of(&self, role: Role) -> Option<Name>
        ensures { result ≡ slice_get self.now.names role }
    {
        self.names().get(role.0 as usize).copied()
    }

    /// The principal of each role in order.
    pub fn names(&self) -> &[Name]
        ensures { result.now ≡ self.now.names }
    {
        &self.names[..self.count as usize]
    }
}

// The names in sixteen slots, the first again after the last.
fn filled(names: &[Name]) -> [Name; 16]
    requires some { 2 ≤ length names.now }
    requires fits { length names.now ≤ 16 }
    ensures { result ≡ filled names.now }
{
    let mut slots = [names[0]; 16];
    slots[..names.len()].copy_from_slice(names);
    slots
}

// What the type `Name` says of each of these.
fn facts_of_names(names: &[Name])
    ensures { AllByRecursion (λ n. IsTrue (is_name n)) names.now }
{
    for name in names {
        let _ = name.as_bytes();
    }
}

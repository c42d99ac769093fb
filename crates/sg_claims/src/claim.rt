//! Claims and their names.
ghost use Rattle.std.specs.Prelude.{◌≡◌};
ghost use Rattle.sg_model.specs.Claims.{right_bit};

use crate::LabelSet;
use sg_base::Name;
use std::marker::Model;

/// Whether a claim asks that something stands before, or that it doesn't.
#[derive(Clone, Copy, PartialEq, Eq)]
pub enum ClaimKind {
    /// Wherever a label of `later` stands, one of `earlier` stands before it.
    Needs,
    /// Wherever a label of `later` stands, none of `earlier` stands before it.
    Bars,
}

impl ClaimKind {
    ghost use Rattle.sg_claims.specs.Kind.{kind_of};

    // The bit before a label of `later` with which the claim holds.
    pub(crate) fn right_bit(self) -> bool
        ensures { result ≡ right_bit (kind_of self) }
    {
        match self {
            ClaimKind::Needs => true,
            ClaimKind::Bars => false,
        }
    }
}

/// A claim on the walks of a graph from its start. Only what stands before a label since the last label of `since` counts, and that
/// label itself.
#[derive(Drop)]
pub struct Claim {
    /// What the claim asks.
    pub kind: ClaimKind,
    /// The labels that need others before them, or are barred.
    pub later: LabelSet,
    /// The labels that are needed, or that bar.
    pub earlier: LabelSet,
    /// The labels after which those of `earlier` count anew.
    pub since: LabelSet,
}

impl Model for Claim {
    ghost use Rattle.sg_model.specs.Claims.{Claim};
    ghost use Rattle.sg_claims.specs.Kind.{kind_of};

    ghost Value = { Claim };

    ghost view = { λ c. record { kind = kind_of c.kind; later = c.later; earlier = c.earlier; since = c.since } };
}

/// A claim with its name.
#[derive(Drop)]
pub struct NamedClaim {
    /// Its name.
    pub name: Name,
    /// The claim.
    pub claim: Claim,
}

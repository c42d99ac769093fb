//! The claims that are read so far, with their names.
ghost use Rattle.std.specs.Prelude.{◌≡◌, ◌++◌, [], ◌∷◌, false, OnOk};
ghost use Rattle.sg_claims_text.specs.Grammar.{claim_names};
ghost use Rattle.sg_model.specs.Lists.{has_text};

use sg_base::{Name, OutOfMemory, Seq};
use sg_claims::NamedClaim;
use sg_parse::NameSet;
use std::alloc::Global;
use std::marker::Model;

// Claims whose names differ. A clause sees the claims.
#[derive(Drop)]
pub struct ClaimList {
    claims: Seq<NamedClaim>,
    names: NameSet,
}

impl Model for ClaimList {
    ghost use Rattle.std.specs.Prelude.{◌≡◌, List};
    ghost use Rattle.sg_claims.specs.declared.claim.NamedClaim.{NamedClaim};
    ghost use Rattle.sg_claims_text.specs.Grammar.{claim_names};

    ghost Value = { List NamedClaim };

    ghost view = { λ l. l.claims };

    ghost invariant = { λ l. l.names ≡ claim_names l.claims };
}

impl ClaimList {
    // No claims. It takes no memory.
    pub fn new(alloc: Global) -> ClaimList
        ensures { result ≡ [] }
    {
        ClaimList {
            claims: Seq::new(alloc),
            names: NameSet::new(alloc),
        }
    }

    // Whether a claim has the name.
    pub fn has(&self, name: &Name) -> bool
        ensures { result ≡ has_text name.now (claim_names self.now) }
    {
        self.names.has(name)
    }

    // Adds a claim whose name no claim has.
    pub fn push(&mut self, claim: NamedClaim) -> Result<(), OutOfMemory>
        requires { has_text claim.name (claim_names self.old) ≡ false }
        ensures { OnOk result (self.new ≡ self.old ++ claim ∷ []) }
    {
        let name = claim.name;
        let count = self.claims.len();
        self.claims.push(claim)?;
        if let Err(fault) = self.names.add(name) {
            self.claims.truncate(count);
            return Err(fault);
        }
        Ok(())
    }

    // The claims.
    pub fn into_claims(self) -> Seq<NamedClaim>
        ensures { result ≡ self }
    {
        let ClaimList { claims, names: _ } = self;
        claims
    }
}

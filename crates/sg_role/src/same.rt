//! Whether two roles keep the same.
ghost use Rattle.std.specs.Prelude.{◌≡◌, ◌↔◌, IsTrue};
ghost use Rattle.sg_role.specs.Model.{state_of};

use crate::kept_state::KeptState;
use sg_base::{Name, Opening, Role, Tag, Var};
use sg_crypt::Cast;
use sg_frame::Item;

// What is compared part by part.
trait SameAs {
    // Whether both are the same.
    fn same(&self, other: &Self) -> bool
        ensures { IsTrue result ↔ (self.now ≡ other.now) };
}

/// Whether both keep the same of a session. It takes no memory.
#[tactic(auto, using(crate::proofs::SameHeld::same_held))]
pub(crate) fn same(one: &KeptState, other: &KeptState) -> bool
    ensures { IsTrue result ↔ ((state_of one.now).held ≡ (state_of other.now).held) }
{
    same_session(one, other) && same_step(one, other) && same_lists(one, other)
}

// Whether both are of one session and role.
fn same_session(one: &KeptState, other: &KeptState) -> bool
    ensures { IsTrue result ↔ ((one.now.sid ≡ other.now.sid) × (one.now.cast ≡ other.now.cast) × ((state_of one.now).held.role ≡ (state_of other.now).held.role)) }
{
    one.sid == other.sid
        && one.cast.get().same(other.cast.get())
        && one.program.role() == other.program.role()
}

// Whether both are at one step.
fn same_step(one: &KeptState, other: &KeptState) -> bool
    ensures { IsTrue result ↔ (((state_of one.now).held.kept.origin ≡ (state_of other.now).held.kept.origin)
        × (one.now.own_time ≡ other.now.own_time) × (one.now.time ≡ other.now.time) × (one.now.place ≡ other.now.place)) }
{
    one.from == other.from
        && one.own_time == other.own_time
        && one.time == other.time
        && one.place == other.place
}

// Whether the items, commitments and openings are the same.
fn same_lists(one: &KeptState, other: &KeptState) -> bool
    ensures { IsTrue result ↔ ((one.now.items.items ≡ other.now.items.items) × (one.now.commitments.items ≡ other.now.commitments.items)
        × (one.now.openings.items ≡ other.now.openings.items)) }
{
    all_same(one.items.as_slice(), other.items.as_slice())
        && all_same(one.commitments.as_slice(), other.commitments.as_slice())
        && all_same(one.openings.as_slice(), other.openings.as_slice())
}

// Whether both lists have the same elements.
fn all_same<T: SameAs>(one: &[T], other: &[T]) -> bool
    ensures { IsTrue result ↔ (one.now ≡ other.now) }
{
    if one.len() != other.len() {
        return false;
    }
    for at in 0..one.len() {
        if !one[at].same(&other[at]) {
            return false;
        }
    }
    true
}

impl SameAs for Cast {
    fn same(&self, other: &Cast) -> bool {
        self.version() == other.version()
            && self.graph() == other.graph()
            && self.nonce() == other.nonce()
            && all_same(self.names(), other.names())
    }
}

impl SameAs for Name {
    fn same(&self, other: &Name) -> bool {
        self.as_bytes() == other.as_bytes()
    }
}

impl SameAs for Item {
    fn same(&self, other: &Item) -> bool {
        self.role == other.role
            && self.label == other.label
            && self.time == other.time
            && all_same(self.delta.as_slice(), other.delta.as_slice())
            && all_same(self.tags.as_slice(), other.tags.as_slice())
    }
}

impl SameAs for (Var, [u8; 32]) {
    fn same(&self, other: &(Var, [u8; 32])) -> bool {
        self.0 == other.0 && self.1 == other.1
    }
}

impl SameAs for (Role, Tag) {
    fn same(&self, other: &(Role, Tag)) -> bool {
        self.0 == other.0 && self.1 == other.1
    }
}

impl SameAs for Option<[u8; 32]> {
    fn same(&self, other: &Option<[u8; 32]>) -> bool {
        match (self, other) {
            (None, None) => true,
            (Some(one), Some(other)) => *one == *other,
            _ => false,
        }
    }
}

impl SameAs for Option<Opening> {
    fn same(&self, other: &Option<Opening>) -> bool {
        match (self, other) {
            (None, None) => true,
            (Some(one), Some(other)) => opens_same(one, other),
            _ => false,
        }
    }
}

fn opens_same(one: &Opening, other: &Opening) -> bool
    ensures { IsTrue result ↔ (one.now ≡ other.now) }
{
    one.var == other.var && one.confounder == other.confounder && one.value.same(&other.value)
}

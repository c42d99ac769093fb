//! The table of a node's sessions.
ghost use Rattle.std.specs.Prelude.{◌≡◌, ◌<◌, ◌++◌, [], ◌∷◌, if◌then◌else◌, length, None, Some, map, option_and_then, slice_get, Contains, OnOk};
ghost use Rattle.std.specs.Option.{option_copied};
ghost use Rattle.indexmap.specs.IndexMap.{set_value_at, spare};
ghost use Rattle.sg_node.specs.Slots.{first_index, has_version, held_in, is_for, is_live, is_of, is_of_role, state_in};

use indexmap::IndexMap;
use sg_base::{OutOfMemory, Role, Sid};
use sg_frame::Frame;
use sg_role::{Await, Turn};
use std::alloc::Global;
use std::marker::Model;

/// A live session: its role is at its turn, or waits for a frame.
#[derive(Drop)]
pub(crate) enum Live<'p> {
    AtTurn(Turn<'p>),
    Waiting(Await<'p>),
}

/// A slot for each join of a node's life, in the order of joining, empty if the session is over; the number of those that aren't;
/// and a bound that each role is below.
#[derive(Drop)]
pub(crate) struct Sessions<'p> {
    slots: IndexMap<(Sid, Role), Option<Live<'p>>>,
    live: usize,
    bound: u8,
}

impl<'p> Model for Sessions<'p> {
    ghost use Rattle.indexmap.specs.IndexMap.{spare};
    ghost use Rattle.sg_node.specs.Slots.{Table, HoldsTable};

    ghost Value = { Table };

    ghost view = { λ s. record { slots = s.slots.entries; spare = spare s.slots } };

    ghost invariant = { λ s. HoldsTable s.slots.entries s.live s.bound };
}

impl<'p> Sessions<'p> {
    /// No sessions. It takes no memory.
    pub fn new(alloc: Global) -> Sessions<'p>
        ensures { result.slots ≡ [] }
    {
        Sessions {
            slots: IndexMap::new(alloc),
            live: 0,
            bound: 0,
        }
    }

    /// The number of live sessions. It takes no memory.
    pub fn live(&self) -> usize
        ensures { result ≡ length (held_in self.now.slots) }
    {
        self.live
    }

    /// Makes room for one more slot.
    pub fn reserve(&mut self) -> Result<(), OutOfMemory>
        ensures room { OnOk result (0 < self.new.spare) }
        ensures same { self.new.slots ≡ self.old.slots }
    {
        self.slots.reserve(1)
    }

    // The slot of a live session in a role; if `only_turns`, of one that is at its turn.
    fn find(&self, sid: &Sid, role: Role, only_turns: bool) -> Option<usize>
        ensures { result ≡ first_index (is_of_role only_turns sid.now role) self.now.slots }
    {
        let index = self.slots.get_index_of(&(*sid, role));
        self.if_live(index, only_turns)
    }

    /// The slot of the live session for which a frame is, by its sid, its receiver and its version. It takes no memory.
    pub fn find_for(&self, frame: &Frame) -> Option<usize>
        ensures { result ≡ first_index (is_for frame.now) self.now.slots }
    {
        let index = self.slots.get_index_of(&(frame.sid, frame.receiver));
        self.if_of_version(index, frame.version)
    }

    // The slot, if the frames of the session there have this version.
    fn if_of_version(&self, index: Option<usize>, version: u8) -> Option<usize>
        ensures { result ≡ option_and_then (λ i. if has_version version (option_and_then (λ s. s.1) (slice_get self.now.slots i)) then Some i else None) index }
    {
        match index {
            Some(index) if has_version(self.get(index), version) => Some(index),
            _ => None,
        }
    }

    // The slot, if a session is live there; if `only_turns`, one that is at its turn.
    fn if_live(&self, index: Option<usize>, only_turns: bool) -> Option<usize>
        ensures { result ≡ option_and_then (λ i. if is_live only_turns (option_and_then (λ s. s.1) (slice_get self.now.slots i)) then Some i else None) index }
    {
        match index {
            Some(index) if passes(self.get(index), only_turns) => Some(index),
            _ => None,
        }
    }

    /// The slot of the first live session; if `only_turns`, of the first that is at its turn. There is one slot for each role, so
    /// it looks once for each role up to the highest that was joined. It takes no memory.
    #[tactic(auto, using(crate::proofs::Keys::none_below, crate::proofs::Keys::one_below, crate::proofs::Keys::all_below))]
    pub fn first(&self, sid: &Sid, only_turns: bool) -> Option<usize>
        ensures { result ≡ first_index (is_of only_turns sid.now) self.now.slots }
    {
        let _count = self.live;
        let mut first = None;
        for role in 0..self.bound {
            first = earlier(first, self.find(sid, Role(role), only_turns));
        }
        first
    }

    /// The live session in a slot. It takes no memory.
    pub fn get(&self, index: usize) -> Option<&Live<'p>>
        ensures { option_copied result ≡ option_and_then (λ s. s.1) (slice_get self.now.slots index) }
    {
        match self.slots.get_index(index) {
            Some((_, Some(live))) => Some(live),
            _ => None,
        }
    }

    /// Takes the session from its slot, which stays. It takes no memory.
    pub fn take(&mut self, index: usize) -> Option<Live<'p>>
        requires { index < length self.old.slots }
        ensures taken { result ≡ option_and_then (λ s. s.1) (slice_get self.old.slots index) }
        ensures slots { self.new.slots ≡ set_value_at self.old.slots index None }
        ensures spare { self.new.spare ≡ self.old.spare }
    {
        match take_at(&mut self.slots, index) {
            Some(live) => {
                self.live -= 1;
                Some(live)
            }
            None => None,
        }
    }

    /// Puts a session into a slot that is empty. It takes no memory.
    pub fn put(&mut self, index: usize, live: Live<'p>)
        requires empty { option_and_then (λ s. s.1) (slice_get self.old.slots index) ≡ None }
        requires within { index < length self.old.slots }
        ensures slots { self.new.slots ≡ set_value_at self.old.slots index (Some live.entry) }
    {
        let _len = self.slots.len();
        put_at(&mut self.slots, index, live);
        self.live += 1;
    }

    /// Puts a slot with a session after the others. It takes no memory.
    pub fn push(&mut self, sid: Sid, role: Role, live: Live<'p>)
        requires room { 0 < self.old.spare }
        requires absent { ¬ Contains (map (λ s. s.0) self.old.slots) (sid, role) }
        requires role { role < 16 }
        ensures { self.new.slots ≡ self.old.slots ++ ((sid, role), Some live.entry) ∷ [] }
    {
        let _len = self.slots.len();
        put_last(&mut self.slots, (sid, role), live);
        self.live += 1;
        if self.bound <= role.0 {
            self.bound = role.0 + 1;
        }
    }
}

ghost use Rattle.sg_node.specs.Slots.{earlier_of};

// The lesser of two slots.
fn earlier(one: Option<usize>, other: Option<usize>) -> Option<usize>
    ensures { result ≡ earlier_of one other }
{
    match (one, other) {
        (Some(one), Some(other)) => Some(if one < other { one } else { other }),
        (Some(one), None) => Some(one),
        (None, other) => other,
    }
}

// A session is there, at its turn if only turns are looked for.
fn passes(live: Option<&Live>, only_turns: bool) -> bool
    ensures { result ≡ is_live only_turns (option_copied live.entry) }
{
    match live {
        Some(Live::AtTurn(_)) => true,
        Some(Live::Waiting(_)) => !only_turns,
        None => false,
    }
}

// A session is there whose frames have this version.
fn has_version(live: Option<&Live>, version: u8) -> bool
    ensures { result ≡ has_version version (option_copied live.entry) }
{
    match live {
        Some(live) => version_of(live) == version,
        None => false,
    }
}

// The version of a session's frames.
fn version_of(live: &Live) -> u8
    ensures { result ≡ (state_in live.now).held.cast.version }
{
    match live {
        Live::AtTurn(turn) => turn.cast().version(),
        Live::Waiting(wait) => wait.before().cast().version(),
    }
}

// Empties a slot.
fn take_at<'p>(
    slots: &mut IndexMap<(Sid, Role), Option<Live<'p>>>,
    index: usize,
) -> Option<Live<'p>>
    requires { index < length slots.old.entries }
    ensures taken { result ≡ option_and_then (λ s. s.1) (slice_get slots.old.entries index) }
    ensures entries { slots.new.entries ≡ set_value_at slots.old.entries index None }
    ensures spare { spare slots.new ≡ spare slots.old }
{
    slots[index].take()
}

// Fills a slot.
fn put_at<'p>(slots: &mut IndexMap<(Sid, Role), Option<Live<'p>>>, index: usize, live: Live<'p>)
    requires { index < length slots.old.entries }
    ensures { slots.new.entries ≡ set_value_at slots.old.entries index (Some live.entry) }
{
    slots[index] = Some(live);
}

// Adds a slot for a pair that has none, as the last one.
fn put_last<'p>(
    slots: &mut IndexMap<(Sid, Role), Option<Live<'p>>>,
    join: (Sid, Role),
    live: Live<'p>,
)
    requires room { 0 < spare slots.old }
    requires absent { ¬ Contains (map (λ s. s.0) slots.old.entries) join }
    ensures { slots.new.entries ≡ slots.old.entries ++ (join, Some live.entry) ∷ [] }
{
    let _ = slots.insert(join, Some(live));
}

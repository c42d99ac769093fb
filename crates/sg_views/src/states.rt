//! The states that a search has found: a node, and what a role sees of a walk to it.
ghost use Rattle.std.specs.Prelude.{◌≡◌, ◌<◌, ◌≤◌, ◌^◌, ◌++◌, ◌&&◌, [], ◌∷◌, Some, if◌then◌else◌, length, map, slice_get, IfOk, OnErr, OnOk};
ghost use Rattle.sg_model.specs.Limits.{most_open_views};
ghost use Rattle.sg_base.specs.Sets.{members};
ghost use Rattle.sg_protocol.specs.Evidence.{mask};
ghost use Rattle.sg_views.specs.Keys.{AreKeyed, AreSets, key_of};
ghost use Rattle.sg_views.specs.Search.{Adds, Puts, is_open, open_states, open_view};

use crate::OpenView;
use indexmap::IndexMap;
use sg_base::{Label, NodeId, OutOfMemory, Seq};
use sg_vis::{Origin, Seen, View, mask_of, number_of};
use std::alloc::Global;
use std::marker::Model;

/// A node, what a role sees of a walk to it, the state before it on that walk, and the label that leads on from there. At the role's own
/// nodes nothing is kept of what it sees, since its view begins again with its next step.
#[derive(Drop)]
pub(crate) struct State {
    pub node: NodeId,
    pub view: View,
    pub before: usize,
    pub label: Label,
}

/// States in the order in which they were found, all different, and the number of those that are open views.
#[derive(Drop)]
pub(crate) struct States {
    alloc: Global,
    found: IndexMap<Vec<u32>, State>,
    open: usize,
}

impl Model for States {
    ghost use Rattle.std.specs.Prelude.{List};
    ghost use Rattle.sg_views.specs.declared.states.State.{State};

    ghost Value = { List State };

    ghost use Rattle.sg_views.specs.Keys.{states_of, HoldsStates};

    ghost view = { states_of };

    ghost invariant = { HoldsStates };
}

impl States {
    /// No state. It takes no memory.
    pub(crate) fn new(alloc: Global) -> States
        ensures { result ≡ [] }
    {
        States {
            alloc,
            found: IndexMap::new(alloc),
            open: 0,
        }
    }

    /// The number of states.
    pub(crate) fn len(&self) -> usize
        ensures len { result ≡ length self.now }
        ensures small { result < 2 ^ 63 }
    {
        self.found.len()
    }

    /// The number of states that are open views.
    pub(crate) fn open(&self) -> usize
        ensures { result ≡ length (open_states self.now) }
    {
        self.open
    }

    /// The state of a number.
    pub(crate) fn get(&self, at: usize) -> &State
        requires { at < length self.now }
        ensures { slice_get self.now at ≡ Some result.now }
    {
        match self.found.get_index(at) {
            Some((_, state)) => state,
            None => unreachable!(),
        }
    }

    /// Puts a state at the end, if its node and view are not there.
    pub(crate) fn add(&mut self, state: State) -> Result<(), OutOfMemory>
        requires { length (open_states self.old) ≤ most_open_views }
        ensures added { OnOk result (Adds self.old self.new state) }
        ensures err { OnErr result (self.new ≡ self.old) }
    {
        let key = key_of(self.alloc, state.node, &state.view)?;
        let opens = is_open(&state.view);
        let new = put(&mut self.found, key, state)?;
        self.open += one_if(new, opens);
        Ok(())
    }

    /// The open views, each copied.
    pub(crate) fn open_views(&self) -> Result<Seq<OpenView>, OutOfMemory>
        ensures { IfOk result (λ list. list ≡ map open_view (open_states self.now)) }
    {
        let alloc = self.alloc;
        let mut list = Vec::new(alloc);
        for at in 0..self.len() {
            let state = self.get(at);
            if is_open(&state.view) {
                list.push(copied(alloc, state)?)?;
            }
        }
        Ok(Seq::from_vec(list))
    }
}

// The open view of a state.
fn copied(alloc: Global, state: &State) -> Result<OpenView, OutOfMemory>
    ensures { IfOk result (λ o. o ≡ open_view state.now) }
{
    Ok(OpenView {
        node: state.node,
        view: state.view.copy(alloc)?,
    })
}

// Puts a state under its key at the end, if the key is not there, and says whether it did.
fn put(
    found: &mut IndexMap<Vec<u32>, State>,
    key: Vec<u32>,
    state: State,
) -> Result<bool, OutOfMemory>
    requires keyed { AreKeyed found.old.entries }
    requires key { key.items ≡ key_of state.node state.view }
    requires sets { AreSets state.view.items }
    ensures keyed { AreKeyed found.new.entries }
    ensures put { IfOk result (Puts (map (λ e. e.1) found.old.entries) (map (λ e. e.1) found.new.entries) state) }
    ensures err { OnErr result (found.new.entries ≡ found.old.entries) }
{
    if found.contains_key(&key) {
        return Ok(false);
    }
    found.insert(key, state)?;
    Ok(true)
}

// 1 if both hold, and otherwise 0.
fn one_if(new: bool, opens: bool) -> usize
    ensures { result ≡ (if new && opens then 1 else 0) }
{
    if new && opens { 1 } else { 0 }
}

// Whether a step was taken.
fn is_open(view: &View) -> bool
    ensures { result ≡ is_open view.now }
{
    match view.from {
        Origin::Start => view.items.len() > 0,
        Origin::After(_) => true,
    }
}

// A node and a view as one list of numbers.
fn key_of(alloc: Global, node: NodeId, view: &View) -> Result<Vec<u32>, OutOfMemory>
    ensures key { IfOk result (λ key. key.items ≡ key_of node view.now) }
    ensures sets { IfOk result (λ key. AreSets view.now.items) }
{
    let mut key = Vec::new(alloc);
    key.push(u32::from(node.0))?;
    key.push(number_of(view.from))?;
    for item in view.items.as_slice() {
        put_item(&mut key, item)?;
    }
    Ok(key)
}

// Puts an item's label and mask at the end.
fn put_item(key: &mut Vec<u32>, item: &Seen) -> Result<(), OutOfMemory>
    ensures put { OnOk result (key.new.items ≡ key.old.items ++ item.now.label ∷ mask item.now.delta ∷ []) }
    ensures set { OnOk result (members 32 (mask item.now.delta) ≡ item.now.delta) }
{
    key.push(u32::from(item.label.0))?;
    key.push(mask_of(item.delta))?;
    Ok(())
}

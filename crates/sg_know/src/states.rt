//! What walks say of one variable and one role, and the list of all that they say.
ghost use Rattle.std.specs.Prelude.{◌≡◌, ◌<◌, ◌≤◌, [], length, MatchOption, IfSome, IfOk, OnOk, OnErr};
ghost use Rattle.sg_know.specs.States.{Enters, Has, IsPath, key_of, rank_of, state_at, step_at};

use sg_base::{Label, NodeId, OutOfMemory};
use std::alloc::Global;
use std::marker::Model;

/// What a walk says of a variable and a role.
#[derive(Clone, Copy)]
pub(crate) enum Mark {
    /// The variable was not written.
    Unwritten,
    /// It was written, and the role doesn't know it.
    Unknown,
    /// The role knows it.
    Known,
}

/// Where a walk ends, and its mark.
#[derive(Clone, Copy)]
pub(crate) struct WalkState {
    pub node: NodeId,
    pub mark: Mark,
}

/// The edge by which a state was reached, and the index of the state before it.
#[derive(Clone, Copy)]
pub(crate) struct Arrival {
    pub from: usize,
    pub label: Label,
}

/// A state, and how it was reached: that of the empty walk by no step.
#[derive(Clone, Copy)]
pub(crate) struct ReachedState {
    pub state: WalkState,
    pub by: Option<Arrival>,
}

/// States, each once, in the order in which they were reached. There are 256 nodes and three marks at most.
#[derive(Drop)]
pub(crate) struct States {
    list: Vec<ReachedState>,
    indices: Vec<Option<usize>>,
}

impl Model for States {
    ghost use Rattle.std.specs.Prelude.{List};
    ghost use Rattle.sg_know.specs.declared.states.ReachedState.{ReachedState};

    ghost Value = { List ReachedState };

    ghost use Rattle.sg_know.specs.Model.{states_of};
    ghost use Rattle.sg_know.specs.Invariant.{HoldsStates};

    ghost view = { states_of };

    ghost invariant = { HoldsStates };
}

impl States {
    /// No states. It takes memory for the table of indices.
    pub(crate) fn new(alloc: Global) -> Result<States, OutOfMemory>
        ensures { IfOk result (λ states. states ≡ []) }
    {
        Ok(States {
            list: Vec::new(alloc),
            indices: vec![in alloc; None; 768]?,
        })
    }

    /// The number of states, at most 768.
    pub(crate) fn len(&self) -> usize
        ensures count { result ≡ length self.now }
        ensures most { length self.now ≤ 768 }
    {
        self.list.len()
    }

    /// The state at an index.
    pub(crate) fn state(&self, index: usize) -> WalkState
        requires { index < length self.now }
        ensures state { result ≡ state_at self.now index }
        ensures there { result.node < 256 }
    {
        self.list[index].state
    }

    /// The edge by which the state at an index was reached, from an earlier one.
    fn step(&self, index: usize) -> Option<Arrival>
        requires { index < length self.now }
        ensures step { result ≡ step_at self.now index }
        ensures earlier { IfSome result (λ s. s.from < index) }
    {
        self.list[index].by
    }

    /// Puts a state at the end, unless it is there. If memory runs out, the list is as before.
    pub(crate) fn enter(&mut self, reached: ReachedState) -> Result<(), OutOfMemory>
        requires node { reached.state.node < 256 }
        requires order { IfSome reached.by (λ s. s.from < length self.old) }
        ensures ok { OnOk result (Enters self.old reached self.new) }
        ensures err { OnErr result (self.new ≡ self.old) }
    {
        let key = key_of_state(&reached.state);
        if self.indices[key].is_some() {
            return Ok(());
        }
        let index = self.list.len();
        self.list.push(reached)?;
        self.indices[key] = Some(index);
        Ok(())
    }

    /// The index of a state.
    pub(crate) fn find(&self, state: &WalkState) -> Option<usize>
        requires { state.now.node < 256 }
        ensures { MatchOption result (Has self.now state.now → ⊥) (λ i. (i < length self.now) × (state_at self.now i ≡ state.now)) }
    {
        self.indices[key_of_state(state)]
    }

    /// The labels of the walk by which the state at an index was reached.
    pub(crate) fn path(&self, alloc: Global, index: usize) -> Result<Vec<Label>, OutOfMemory>
        requires { index < length self.now }
        ensures { IfOk result (λ labels. IsPath self.now index labels.items) }
    {
        let mut labels = Vec::new(alloc);
        let mut at = index;
        while let Some(step) = self.step(at) {
            labels.push(step.label)?;
            at = step.from;
        }
        labels.reverse();
        Ok(labels)
    }
}

/// A number for each state.
fn key_of_state(state: &WalkState) -> usize
    requires { state.now.node < 256 }
    ensures key { result ≡ key_of state.now }
    ensures most { result < 768 }
{
    3 * state.node.0 as usize + rank(state.mark)
}

fn rank(mark: Mark) -> usize
    ensures rank { result ≡ rank_of mark }
    ensures most { result < 3 }
{
    match mark {
        Mark::Unwritten => 0,
        Mark::Unknown => 1,
        Mark::Known => 2,
    }
}

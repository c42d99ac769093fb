//! Whether exactly the values that no honest role wrote or received are hidden.
ghost use Rattle.std.specs.Prelude.{◌≡◌, ℕ, ◌<◌, true, false, not, ◌&&◌, ◌||◌, if◌then◌else◌, length, nat_lt, get_or, is_none, option_map};
ghost use Rattle.std.specs.List.{AllByRecursion, list_all};
ghost use Rattle.std.specs.Bool.{beq};
ghost use Rattle.sg_model.specs.Lists.{is_in, keys_of};
ghost use Rattle.sg_protocol.specs.Walk.{are_hidden};
ghost use Rattle.sg_base.specs.Model.{value_of};
ghost use Rattle.sg_explain.specs.Matching.{IsNamed};
ghost use Rattle.sg_walk.specs.Model.{steps_of, writes_of};

use super::pairs::{counts, edge_of, index_of};
use sg_base::{RoleSet, Value, Var, VarSet};
use sg_graph::Graph;
use sg_walk::{StoredStep, StoredWalk};

/// Whether exactly the values that no honest role wrote or received are hidden. `taken` says whether the last receipt counts.
pub(super) fn hides(graph: &Graph, honest: RoleSet, taken: bool, walk: &StoredWalk) -> bool
    requires { AllByRecursion (IsNamed graph.now) (steps_of walk.now) }
    ensures { result ≡ are_hidden graph.now (λ r. is_in r honest) taken (steps_of walk.now) }
{
    let steps = walk.steps.as_slice();
    let mut carried = [false; 32];
    let mut left = steps.len();
    while left > 0 {
        let is_last = left == steps.len();
        left -= 1;
        let step = &steps[left];
        let hears = counts(honest, graph.receiver(step.label), taken, is_last);
        let edge = edge_of(graph, step.label);
        carry(&mut carried, hears, edge.reads);
        if !hides_all(step, honest.has(graph.sender(step.label)), &carried) {
            return false;
        }
        drop_written(&mut carried, step);
    }
    true
}

/// Carries each variable of the set, if it is heard.
fn carry(carried: &mut [bool; 32], hears: bool, vars: VarSet)
    ensures { (x : ℕ) → x < 32 → get_or carried.new x false ≡ ((hears && is_in x vars) || get_or carried.old x false) }
{
    if !hears {
        return;
    }
    for number in 0..32u8 {
        if vars.has(Var(number)) {
            carried[number as usize] = true;
        }
    }
}

/// No longer carries what the step writes.
fn drop_written(carried: &mut [bool; 32], step: &StoredStep)
    requires { list_all (λ x. nat_lt x 32) (keys_of step.now.writes) ≡ true }
    ensures { (x : ℕ) → x < 32 → get_or carried.new x false ≡ (if is_in x (keys_of step.now.writes) then false else get_or carried.old x false) }
{
    for write in step.writes.as_slice() {
        carried[index_of(write.0)] = false;
    }
}

/// Whether the step hides what it writes if its sender isn't honest and the variable isn't carried, and nothing else.
fn hides_all(step: &StoredStep, honest: bool, carried: &[bool; 32]) -> bool
    requires { list_all (λ x. nat_lt x 32) (keys_of step.now.writes) ≡ true }
    ensures { result ≡ list_all (λ w. beq (is_none w.1) (not honest && not (get_or carried.now w.0 false))) (writes_of step.now.writes) }
{
    for write in step.writes.as_slice() {
        if !hides_one(&write.1, honest || carried[index_of(write.0)]) {
            return false;
        }
    }
    true
}

/// Whether the value is hidden exactly if it isn't known.
fn hides_one(value: &Option<Value>, known: bool) -> bool
    ensures { result ≡ beq (is_none (option_map value_of value.now)) (not known) }
{
    match value {
        Some(_) => known,
        None => !known,
    }
}

//! The order of the variables that a line names.
ghost use Rattle.std.specs.Prelude.{◌≡◌, ◌<◌, ◌+◌, ◌&&◌, nat_lt, not, map, true, false};
ghost use Rattle.std.specs.List.{list_any};
ghost use Rattle.std.specs.Option.{option_map_or};
ghost use Rattle.sg_model.specs.Lists.{keys_of, rises_from};
ghost use Rattle.sg_audit.specs.LineContents.{differ, falls, rise};
ghost use Rattle.sg_audit.specs.SoFar.{is_unknown};
ghost use Rattle.sg_audit.specs.TakingLines.{assigned_values, assigned_writes, step_in_line};

use crate::assignments::Assignments;
use crate::step::LogStep;
use sg_base::{Value, Var};

/// Whether the variables of an event rise.
pub(crate) fn values_rise(given: &Assignments<Value>) -> bool
    ensures { result ≡ rise (assigned_values given.now) }
{
    rises(given.pairs.as_slice())
}

/// Whether all variables of an event are declared, none is named twice, and they don't rise.
pub(crate) fn values_fall(given: &Assignments<Value>) -> bool
    ensures { result ≡ falls (assigned_values given.now) }
{
    given.known && values_differ(given) && !values_rise(given)
}

fn values_differ(given: &Assignments<Value>) -> bool
    ensures { result ≡ differ (keys_of (assigned_values given.now).pairs) }
{
    differ(given.pairs.as_slice())
}

/// Whether the variables of some step are all declared, none is named twice, and they don't rise.
pub(crate) fn some_fall(steps: &[LogStep]) -> bool
    ensures { result ≡ list_any (λ s. falls s.writes) (map step_in_line steps.now) }
{
    for step in steps {
        if writes_fall(&step.writes) {
            return true;
        }
    }
    false
}

/// Whether the variables of some step don't rise.
pub(crate) fn some_not_rise(steps: &[LogStep]) -> bool
    ensures { result ≡ list_any (λ s. not (rise s.writes)) (map step_in_line steps.now) }
{
    for step in steps {
        if !writes_rise(&step.writes) {
            return true;
        }
    }
    false
}

/// Whether the label or a variable of some step isn't declared.
pub(crate) fn some_unknown(steps: &[LogStep]) -> bool
    ensures { result ≡ list_any is_unknown (map step_in_line steps.now) }
{
    for step in steps {
        if is_unknown(step) {
            return true;
        }
    }
    false
}

fn is_unknown(step: &LogStep) -> bool
    ensures { result ≡ is_unknown (step_in_line step.now) }
{
    step.label.is_none() || !step.writes.known
}

fn writes_rise(given: &Assignments<Option<Value>>) -> bool
    ensures { result ≡ rise (assigned_writes given.now) }
{
    rises(given.pairs.as_slice())
}

fn writes_fall(given: &Assignments<Option<Value>>) -> bool
    ensures { result ≡ falls (assigned_writes given.now) }
{
    given.known && writes_differ(given) && !writes_rise(given)
}

fn writes_differ(given: &Assignments<Option<Value>>) -> bool
    ensures { result ≡ differ (keys_of (assigned_writes given.now).pairs) }
{
    differ(given.pairs.as_slice())
}

// Whether the variables rise.
fn rises<T>(pairs: &[(Var, T)]) -> bool
    ensures { result ≡ rises_from 0 (map (λ w. w.0) pairs.now) }
{
    let mut last: Option<Var> = None;
    for pair in pairs {
        let var = pair.0;
        if is_behind(last, var) {
            return false;
        }
        last = Some(var);
    }
    true
}

// Whether there is a last variable, and the other isn't greater.
fn is_behind(last: Option<Var>, var: Var) -> bool
    ensures { result ≡ nat_lt var (option_map_or (λ x. x + 1) last 0) }
{
    match last {
        Some(last) => var.0 <= last.0,
        None => false,
    }
}

// Whether no variable stands twice.
fn differ<T>(pairs: &[(Var, T)]) -> bool
    ensures { result ≡ differ (map (λ w. w.0) pairs.now) }
{
    let mut seen = [false; 256];
    let mut left = pairs.len();
    while left > 0 {
        left -= 1;
        let index = index_of(pairs[left].0);
        if seen[index] {
            return false;
        }
        seen[index] = true;
    }
    true
}

// The variable's index among all.
fn index_of(var: Var) -> usize
    ensures index { result ≡ var }
    ensures within { result < 256 }
{
    var.0 as usize
}

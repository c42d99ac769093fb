//! The values of an act, in rising number of the variables.
ghost use Rattle.std.specs.Prelude.{◌≡◌, ℕ, ◌<◌, ◌+◌, ◌++◌, length, map, slice_get, Some, None, option_map, MatchOption, IfOk, OnOk, IsTrue};
ghost use Rattle.std.specs.List.{list_all};
ghost use Rattle.sg_base.specs.declared.value.Value.{Value};
ghost use Rattle.sg_base.specs.Model.{value_of};
ghost use Rattle.sg_model.specs.Lists.{all_differ, value_at};
ghost use Rattle.sg_sched.specs.Format.Forms.{is_assignment};
ghost use Rattle.sg_sched.specs.Format.Items.{variables_of};
ghost use Rattle.sg_sched.specs.Format.Values.{is_value, value_of as spelled};
ghost use Rattle.sg_sched_text.specs.Adding.{known_values};
ghost use Rattle.sg_sched_text.specs.Numbers.{numbers_of, numbered, from_number};

use sg_base::{OutOfMemory, Seq, Value, Var};
use sg_graph::Graph;
use sg_parse::NameSet;
use sg_sched::index::var_index;
use sg_sched::{Assignment, read_value};
use std::alloc::Global;

/// What is given to variables of the graph, or `None` if a variable isn't one of them.
#[tactic(auto, using(crate::proofs::ValueLaws::as_many, crate::proofs::ValueLaws::by_numbers))]
pub fn known_values(
    alloc: Global,
    graph: &Graph,
    values: &[Assignment<'_>],
) -> Result<Option<Seq<(Var, Value)>>, OutOfMemory>
    requires { IsTrue (list_all is_assignment values.now) }
    ensures { IfOk result (λ o. option_map (λ ws. map (λ (w : ℕ × Value). (w.0, value_of w.1)) ws) o ≡ known_values (Some graph.now) values.now) }
{
    match numbers(alloc, graph, values)? {
        Some(numbers) => Ok(Some(in_order(alloc, numbers.as_slice(), values)?)),
        None => Ok(None),
    }
}

// The number of each variable, or `None` if one isn't the graph's.
fn numbers(
    alloc: Global,
    graph: &Graph,
    values: &[Assignment<'_>],
) -> Result<Option<Seq<Var>>, OutOfMemory>
    ensures { IfOk result (λ o. o ≡ numbers_of (variables_of (Some graph.now)) values.now) }
{
    let mut found = Seq::new(alloc);
    for given in values {
        match var_index(graph, &given.variable) {
            Some(var) => found.push(var)?,
            None => return Ok(None),
        }
    }
    Ok(Some(found))
}

// The values that stand in the places of these numbers, in rising number.
#[tactic(auto, using(crate::proofs::ValueLaws::at_end))]
fn in_order(
    alloc: Global,
    numbers: &[Var],
    values: &[Assignment<'_>],
) -> Result<Seq<(Var, Value)>, OutOfMemory>
    requires same { length numbers.now ≡ length values.now }
    requires assigned { IsTrue (list_all is_assignment values.now) }
    ensures { IfOk result (λ ws. map (λ (w : ℕ × Value). (w.0, value_of w.1)) ws ≡ from_number 0 (numbered numbers.now values.now)) }
{
    let mut found = Seq::from_vec(Vec::with_capacity(alloc, numbers.len())?);
    for number in 0..32u8 {
        put_value(alloc, numbers, values, number, &mut found)?;
    }
    Ok(found)
}

// Puts the value that stands in the place of a number after those of lesser numbers, if there is one.
#[tactic(auto, using(crate::proofs::FormParts::each, crate::proofs::FormParts::assigned_value, crate::proofs::ValueLaws::next_none, crate::proofs::ValueLaws::next_some))]
fn put_value(
    alloc: Global,
    numbers: &[Var],
    values: &[Assignment<'_>],
    number: u8,
    found: &mut Seq<(Var, Value)>,
) -> Result<(), OutOfMemory>
    requires few { number < 32 }
    requires same { length numbers.now ≡ length values.now }
    requires assigned { IsTrue (list_all is_assignment values.now) }
    ensures { OnOk result (map (λ (w : ℕ × Value). (w.0, value_of w.1)) found.old ++ from_number number (numbered numbers.now values.now)
        ≡ map (λ (w : ℕ × Value). (w.0, value_of w.1)) found.new ++ from_number (number + 1) (numbered numbers.now values.now)) }
{
    let Some(at) = index_of(numbers, values, number) else {
        return Ok(());
    };
    let given = &values[at];
    let value = spelled_value(alloc, given.value)?;
    found.push((Var(number), value))?;
    Ok(())
}

// The index of a number, if it is there.
fn index_of(numbers: &[Var], values: &[Assignment<'_>], number: u8) -> Option<usize>
    requires { length numbers.now ≡ length values.now }
    ensures { MatchOption result (value_at (numbered numbers.now values.now) number ≡ None)
        (λ i. (i < length values.now) × (value_at (numbered numbers.now values.now) number ≡ option_map (λ v. spelled v.value) (slice_get values.now i))) }
{
    for at in 0..numbers.len() {
        let one = numbers[at];
        if one.0 == number {
            return Some(at);
        }
    }
    None
}

/// The value of a word that spells one.
pub(crate) fn spelled_value(alloc: Global, word: &[u8]) -> Result<Value, OutOfMemory>
    requires { IsTrue (is_value word.now) }
    ensures { IfOk result (λ v. value_of v ≡ spelled word.now) }
{
    match read_value(alloc, word)? {
        Some(value) => Ok(value),
        None => unreachable!(),
    }
}

/// Whether the variables are different.
pub fn differ(alloc: Global, values: &[Assignment<'_>]) -> Result<bool, OutOfMemory>
    ensures { IfOk result (λ b. b ≡ all_differ (map (λ v. v.variable) values.now)) }
{
    let mut names = NameSet::new(alloc);
    for given in values {
        if names.has(&given.variable) {
            return Ok(false);
        }
        names.add(given.variable)?;
    }
    Ok(true)
}

//! The values that receipts give to steps before them.
ghost use Rattle.std.specs.Prelude.{◌≡◌, ◌<◌, ◌==◌, ℕ, if◌then◌else◌, None, option_map};
ghost use Rattle.std.specs.Option.{option_or};
ghost use Rattle.sg_base.specs.Model.{value_of};
ghost use Rattle.sg_model.specs.Lists.{is_in, keys_of, value_at};
ghost use Rattle.sg_certify.specs.Filling.{value_in};
ghost use Rattle.sg_walk.specs.Model.{values_of};

use sg_base::{Value, Var, VarSet};

/// For each variable below 32 the value that the earliest receipt since gives it, if no step since writes it.
#[derive(Drop)]
pub(crate) struct KeptValues<'e> {
    pub values: [Option<&'e Value>; 32],
}

/// Nothing is kept.
pub(crate) fn nothing<'e>() -> KeptValues<'e>
    ensures { (x : ℕ) → x < 32 → value_in result x ≡ None }
{
    KeptValues { values: [None; 32] }
}

/// Keeps this for a variable, if the variable is below 32.
pub(crate) fn put<'e>(kept: &mut KeptValues<'e>, var: Var, value: Option<&'e Value>)
    ensures { (x : ℕ) → x < 32 → value_in kept.new x ≡ (if var == x then option_map (λ v. value_of v.now) value.entry else value_in kept.old x) }
{
    if var.0 < 32 {
        let values = &mut kept.values[..];
        values[var.0 as usize] = value;
    }
}

/// Keeps what was received, in place of what was received later.
pub(crate) fn learn<'e>(kept: &mut KeptValues<'e>, values: &'e [(Var, Value)])
    ensures { (x : ℕ) → x < 32 → value_in kept.new x ≡ option_or (value_at (values_of values.now) x) (value_in kept.old x) }
{
    for back in 0..values.len() {
        let pair = &values[values.len() - 1 - back];
        put(kept, pair.0, Some(&pair.1));
    }
}

/// Keeps nothing for the variables of these values.
pub(crate) fn forget<'e>(kept: &mut KeptValues<'e>, values: &[(Var, Value)])
    ensures { (x : ℕ) → x < 32 → value_in kept.new x ≡ (if is_in x (keys_of values.now) then None else value_in kept.old x) }
{
    for pair in values {
        put(kept, pair.0, None);
    }
}

/// Keeps nothing for the variables of the set.
pub(crate) fn forget_all<'e>(kept: &mut KeptValues<'e>, vars: VarSet)
    ensures { (x : ℕ) → x < 32 → value_in kept.new x ≡ (if is_in x vars then None else value_in kept.old x) }
{
    for number in 0..32u8 {
        if vars.has(Var(number)) {
            put(kept, Var(number), None);
        }
    }
}

//! Values of variables, and what opens a commitment to one.
ghost use Rattle.std.specs.Prelude.{◌≡◌, ◌↔◌, IfOk, IsTrue};

use crate::{Chars, OutOfMemory, Seq, Var};
use std::alloc::Global;
use std::marker::Model;

/// The type of a variable.
#[derive(Debug, Clone, Copy, PartialEq, Eq)]
pub enum VarType {
    /// An `i64`.
    Int,
    /// UTF-8 of at most 1,024 bytes.
    Text,
}

/// A value of a variable.
#[derive(Drop)]
pub enum Value {
    /// A number.
    Int(i64),
    /// A text.
    Text(Chars),
}

impl Value {
    ghost use Rattle.sg_base.specs.Model.{kind_of};

    /// The type of the value.
    pub fn kind(&self) -> VarType
        ensures { result ≡ kind_of self.now }
    {
        match self {
            Value::Int(_) => VarType::Int,
            Value::Text(_) => VarType::Text,
        }
    }

    /// An equal value.
    pub fn copy(&self, alloc: Global) -> Result<Value, OutOfMemory>
        ensures { IfOk result (λ v. v ≡ self.now) }
    {
        match self {
            Value::Int(number) => Ok(Value::Int(*number)),
            Value::Text(text) => Ok(Value::Text(text.copy(alloc)?)),
        }
    }

    /// Whether both are the same value. It takes no memory.
    pub fn same(&self, other: &Value) -> bool
        ensures { IsTrue result ↔ (self.now ≡ other.now) }
    {
        match (self, other) {
            (Value::Int(one), Value::Int(two)) => *one == *two,
            (Value::Text(one), Value::Text(two)) => one.as_bytes() == two.as_bytes(),
            _ => false,
        }
    }
}

/// What opens a commitment: the variable, the sixteen bytes that hide the value, and the value.
#[derive(Drop)]
pub struct Opening {
    /// The variable.
    pub var: Var,
    /// The bytes that hide the value.
    pub confounder: [u8; 16],
    /// The value.
    pub value: Value,
}

impl Model for Opening {
    ghost use Rattle.sg_model.specs.Values.{Opening};
    ghost use Rattle.sg_base.specs.Model.{value_of};

    ghost Value = { Opening };

    ghost view = { λ o. record { variable = o.var; confounder = o.confounder; value = value_of o.value } };
}

impl Opening {
    /// An equal opening.
    pub fn copy(&self, alloc: Global) -> Result<Opening, OutOfMemory>
        ensures { IfOk result (λ o. o ≡ self.now) }
    {
        let value = self.value.copy(alloc)?;
        Ok(Opening {
            var: self.var,
            confounder: self.confounder,
            value,
        })
    }
}

/// Equal openings.
pub fn copy_openings(alloc: Global, openings: &[Opening]) -> Result<Seq<Opening>, OutOfMemory>
    ensures { IfOk result (λ o. o ≡ openings.now) }
{
    let mut copies = Seq::new(alloc);
    for opening in openings {
        copies.push(opening.copy(alloc)?)?;
    }
    Ok(copies)
}

//! Where places are, once their subscripts or indices are evaluated.

ghost use Rattle.std.specs.Prelude.{◌≡◌};
ghost use Rattle.pawk_store.specs.Places.{array_at, element_of, variable_aim};
ghost use Rattle.pawk_runtime.specs.Moments.{aim_view, holds_of, table_view};

use crate::run::{Parameter, give_back};
use pawk_code::name::{Array, Variable};

/// Where a place is.
#[derive(Drop)]
pub enum Target {
    /// The parameter of this number.
    Parameter(usize),
    /// The global scalar of this slot.
    Scalar(usize),
    /// The element with this key of the global array of this slot.
    Element(usize, Vec<u8>),
    /// The element with this key of the local array of this number.
    LocalElement(usize, Vec<u8>),
    /// The field with this index; 0 is the record.
    Field(usize),
    Nowhere,
}

/// The array that a name stands for.
#[derive(Clone, Copy)]
pub enum ArrayReference {
    /// None: the name is that of a value.
    None,
    /// The global array of this slot.
    Global(usize),
    /// The local array of this number.
    Local(usize),
}

/// The array that a name stands for, among these parameters.
#[inline(always)]
pub fn table_of(frame: &[Parameter], array: Array) -> ArrayReference
    ensures { table_view result ≡ array_at (holds_of frame.now) array }
{
    match array {
        Array::Global(slot) => ArrayReference::Global(slot),
        Array::Local(number) => match frame.get(number) {
            Some(Parameter::Global(slot)) => ArrayReference::Global(*slot),
            Some(Parameter::Local(number)) => ArrayReference::Local(*number),
            _ => ArrayReference::None,
        },
    }
}

/// Where the element of an array is.
#[inline(always)]
pub fn element_target(table: ArrayReference, key: Vec<u8>) -> Target
    ensures { aim_view result ≡ element_of (table_view table) key.items }
{
    match table {
        ArrayReference::None => Target::Nowhere,
        ArrayReference::Global(slot) => Target::Element(slot, key),
        ArrayReference::Local(number) => Target::LocalElement(number, key),
    }
}

/// Gives the key of a target back.
#[inline(always)]
pub fn give_back_target(spare: &mut Vec<Vec<u8>>, target: Target) {
    match target {
        Target::Element(_, key) => give_back(spare, key),
        Target::LocalElement(_, key) => give_back(spare, key),
        _ => {}
    }
}

/// The target that a scalar variable is, by its slot or by the number of its parameter.
pub fn variable_target(variable: Variable) -> Target
    ensures { aim_view result ≡ variable_aim variable }
{
    match variable {
        Variable::Global(slot) => Target::Scalar(slot),
        Variable::Local(number) => Target::Parameter(number),
    }
}

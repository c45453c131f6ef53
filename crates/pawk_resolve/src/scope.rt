//! What names stand for.

ghost use Rattle.std.specs.Prelude.{◌≡◌};
ghost use Rattle.pawk_code.specs.ExpressionViews.{leaf_view};
ghost use Rattle.pawk_resolve.specs.Scopes as spec;

use crate::table::NameTable;
use pawk_code::leaf::{Leaf, Special};
use pawk_code::name::{Array, Variable};
use pawk_syntax_check::kinds::Kinds;

/// The names of a program, by their slots.
#[derive(Drop)]
pub struct GlobalNames<'t> {
    pub kinds: Kinds<'t>,
    pub scalars: NameTable<'t>,
    pub arrays: NameTable<'t>,
    pub functions: NameTable<'t>,
    /// The texts of the expressions between slashes.
    pub expressions: NameTable<'t>,
}

/// The names in an item.
#[derive(Clone, Copy)]
pub struct Scope<'s, 't> {
    pub globals: &'s GlobalNames<'t>,
    /// The number of the item, counted from 1; where it has no parameters, of any.
    pub item: usize,
    pub parameters: &'s NameTable<'t>,
}

/// The variable of this name that the run sets, if there is one.
#[tactic(auto, unfolding(crate::specs::Scopes::special_of))]
pub fn special_of(name: &[u8]) -> Option<Special>
    ensures { result ≡ spec.special_of name.now }
{
    if name == b"NR".as_slice() {
        Some(Special::Nr)
    } else if name == b"NF".as_slice() {
        Some(Special::Nf)
    } else if name == b"FNR".as_slice() {
        Some(Special::Fnr)
    } else if name == b"FILENAME".as_slice() {
        Some(Special::Filename)
    } else if name == b"RSTART".as_slice() {
        Some(Special::Rstart)
    } else if name == b"RLENGTH".as_slice() {
        Some(Special::Rlength)
    } else {
        None
    }
}

impl<'s, 't> Scope<'s, 't> {
    ghost use Rattle.pawk_resolve.specs.ScopeViews.{scope_view};

    /// What a scalar of this name is.
    pub fn leaf(&self, name: &[u8]) -> Leaf
        ensures { leaf_view result ≡ spec.leaf_of (scope_view self.now) name.now }
    {
        match self.parameters.place(name) {
            Some(number) => Leaf::Local(number),
            None => match special_of(name) {
                Some(special) => Leaf::Special(special),
                None => Leaf::Global(self.globals.scalars.slot(name)),
            },
        }
    }

    /// The scalar of this name, to be set.
    pub fn variable(&self, name: &[u8]) -> Variable
        ensures { result ≡ spec.variable_of (scope_view self.now) name.now }
    {
        match self.parameters.place(name) {
            Some(number) => Variable::Local(number),
            None => Variable::Global(self.globals.scalars.slot(name)),
        }
    }

    /// The array of this name.
    pub fn array(&self, name: &[u8]) -> Array
        ensures { result ≡ spec.array_of (scope_view self.now) name.now }
    {
        match self.parameters.place(name) {
            Some(number) => Array::Local(number),
            None => Array::Global(self.globals.arrays.slot(name)),
        }
    }

    /// Whether a name is an array's.
    pub fn is_array(&self, name: &'t [u8]) -> bool
        ensures { result ≡ spec.is_array (scope_view self.now) name.now }
    {
        match self.parameters.place(name) {
            Some(_) => self.globals.kinds.is_array(self.item, name),
            None => self.globals.kinds.is_array(0, name),
        }
    }
}

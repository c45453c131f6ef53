//! The variables of a program, by numbers.

ghost use Rattle.std.specs.Prelude.{◌≡◌, OnOk, IfOk, None};
ghost use Rattle.pawk_syntax_check.specs.Tables.{key_view, IsTable, Names, Extends, number_of};

use std::alloc::{AllocError, Global};
use std::collections::BTreeMap;

/// A name in a scope: the number of the item that is the function, counted from 1, or 0 outside of
/// functions.
#[derive(Clone, Copy, PartialEq, Eq, PartialOrd, Ord)]
pub struct ScopedName<'t> {
    pub scope: usize,
    pub name: &'t [u8],
}

/// A name in a scope, and its number.
#[derive(Clone, Copy)]
pub struct NumberedName<'t> {
    pub key: ScopedName<'t>,
    pub number: usize,
}

/// Names in scopes, numbered from 0 in the order in which they come.
#[derive(Drop)]
pub struct Variables<'t> {
    pub keys: Vec<ScopedName<'t>>,
    pub map: BTreeMap<ScopedName<'t>, usize>,
}

impl<'t> Variables<'t> {
    /// A table that holds no variables.
    pub fn new(alloc: Global) -> Variables<'t>
        ensures { IsTable result }
    {
        Variables {
            keys: Vec::new(alloc),
            map: BTreeMap::new(alloc),
        }
    }

    /// The number of a name in a scope, if it has one.
    pub fn number(&self, key: ScopedName<'t>) -> Option<usize>
        ensures { result ≡ number_of self.now (key_view key.entry) }
    {
        self.map.get(&key).copied()
    }

    /// The variable of this name in this scope; a new one gets the next number.
    pub fn variable(&mut self, key: ScopedName<'t>) -> Result<NumberedName<'t>, AllocError>
        requires { IsTable self.old }
        ensures key { IfOk result (λ v. v.key ≡ key.entry) }
        ensures number { IfOk result (Names self.new) }
        ensures table { OnOk result (IsTable self.new) }
        ensures more { OnOk result (Extends self.old self.new) }
    {
        match self.number(key) {
            Some(number) => Ok(NumberedName { key, number }),
            None => self.add(key),
        }
    }

    /// A new variable, with the next number.
    fn add(&mut self, key: ScopedName<'t>) -> Result<NumberedName<'t>, AllocError>
        requires table { IsTable self.old }
        requires new { number_of self.old (key_view key) ≡ None }
        ensures key { IfOk result (λ v. v.key ≡ key.entry) }
        ensures number { IfOk result (Names self.new) }
        ensures table { OnOk result (IsTable self.new) }
        ensures more { OnOk result (Extends self.old self.new) }
    {
        let number = self.keys.len();
        self.keys.push(key)?;
        self.map.insert(key, number)?;
        Ok(NumberedName { key, number })
    }
}

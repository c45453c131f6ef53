//! The functions of a program, by their names.

ghost use Rattle.std.specs.Prelude.{◌≡◌, OnOk, IfOk, map};
ghost use Rattle.std.specs.Option.{option_map};
ghost use Rattle.pawk_lex.specs.Bytes.{Text};
ghost use Rattle.pawk_syntax_tree.specs.Item.{part};
ghost use Rattle.pawk_syntax_check.specs.Functions.{or_else, function_at, function_of};
ghost use Rattle.pawk_syntax_check.specs.FunctionViews.{function_view, function_under};

use pawk_syntax_tree::item::ProgramItem;
use pawk_syntax_tree::tree::Name;
use std::alloc::{AllocError, Global};
use std::collections::BTreeMap;

/// A function: the number of its item, counted from 1, and its parameters.
#[derive(Clone, Copy)]
pub struct FunctionHead<'t> {
    pub scope: usize,
    pub parameters: &'t [Name],
}

/// The functions of a program, each name with its first definition.
#[derive(Drop)]
pub struct Functions<'t> {
    map: BTreeMap<&'t [u8], FunctionHead<'t>>,
}

impl<'t> Functions<'t> {
    /// The functions that these items define.
    pub fn new(alloc: Global, items: &'t [ProgramItem]) -> Result<Functions<'t>, AllocError>
        ensures { IfOk result (λ fs. (x : Text) → function_under fs x ≡
            function_of (map part items.now) x) }
    {
        let mut functions = Functions {
            map: BTreeMap::new(alloc),
        };
        for (index, item) in items.iter().enumerate() {
            functions.add(index + 1, item)?;
        }
        Ok(functions)
    }

    /// Adds what an item of this number defines, if its name is new.
    fn add(&mut self, scope: usize, item: &'t ProgramItem) -> Result<(), AllocError>
        ensures { OnOk result ((x : Text) → function_under self.new x ≡
            or_else (function_under self.old x) (function_at scope (part item.now) x)) }
    {
        if let ProgramItem::Function(name, parameters, _) = item {
            if !self.map.contains_key(name.text.as_slice()) {
                self.map
                    .insert(name.text.as_slice(), FunctionHead { scope, parameters })?;
            }
        }
        Ok(())
    }

    /// The function of this name.
    pub fn get(&self, name: &[u8]) -> Option<FunctionHead<'t>>
        ensures { option_map function_view result ≡ function_under self.now name.now }
    {
        self.map.get(name).copied()
    }
}

//! What a program asks of the kinds of its names, collected.

ghost use Rattle.std.specs.Prelude.{◌≡◌, ◌++◌, ◌∷◌, [], OnOk, IfOk, map};
ghost use Rattle.std.specs.Option.{option_map};
ghost use Rattle.std.specs.List.{flat_map, list_any};
ghost use Rattle.std.specs.Str.{bytes_eq};
ghost use Rattle.pawk_syntax_tree.specs.Item.{part};
ghost use Rattle.pawk_syntax_check.specs.Mentions.{of_part};
ghost use Rattle.pawk_syntax_check.specs.Views.{mention_view};
ghost use Rattle.pawk_syntax_check.specs.FunctionViews.{function_under};
ghost use Rattle.pawk_syntax_check.specs.Tables.{key_view, Names, IsTable, Extends};
ghost use Rattle.pawk_syntax_check.specs.Demands as spec;
ghost use Rattle.pawk_syntax_check.specs.DemandViews.{demands_in, demand_view, AreNumbered, Speaks};

use crate::demand::Demand;
use crate::functions::Functions;
use crate::item::mentions;
use crate::mention::Mention;
use crate::variables::{NumberedName, ScopedName, Variables};
use pawk_syntax_tree::item::ProgramItem;
use pawk_syntax_tree::tree::Name;
use std::alloc::{AllocError, Global};

/// Demands, and the numbers of their names.
#[derive(Drop)]
pub struct Demands<'t> {
    pub variables: Variables<'t>,
    pub list: Vec<Demand<'t>>,
}

/// Whether a name is among these.
fn is_parameter(parameters: &[Name], name: &Name) -> bool
    ensures { result ≡ list_any (λ p. bytes_eq name.now.text.items p.text.items) parameters.now }
{
    parameters
        .iter()
        .any(|p| name.text.as_slice() == p.text.as_slice())
}

/// The scope of a name in the item of this number.
#[tactic(auto, using(crate::proofs::KindLists::among_parameters))]
fn scope_of(number: usize, item: &ProgramItem, name: &Name) -> usize
    ensures { result ≡ spec.scope_of number (part item.now) name.now.text.items }
{
    match item {
        ProgramItem::Function(_, parameters, _) => {
            if is_parameter(parameters, name) {
                number
            } else {
                0
            }
        }
        ProgramItem::Begin(_)
        | ProgramItem::End(_)
        | ProgramItem::Always(_)
        | ProgramItem::When(_, _)
        | ProgramItem::Range(_, _, _) => 0,
    }
}

/// A name in the item of this number.
pub fn name_in<'t>(number: usize, item: &ProgramItem, name: &'t Name) -> ScopedName<'t>
    ensures { key_view result ≡ spec.name_in number (part item.now) name.now.text.items }
{
    ScopedName {
        scope: scope_of(number, item, name),
        name: name.text.as_slice(),
    }
}

/// The parameter at this place of a function, counted from 0, if they are there.
fn parameter<'t>(functions: &Functions<'t>, function: &Name, place: usize) -> Option<ScopedName<'t>>
    ensures { option_map key_view result ≡
        spec.parameter (function_under functions.now function.now.text.items) place }
{
    let function = functions.get(function.text.as_slice())?;
    let name = function.parameters.get(place)?;
    Some(ScopedName {
        scope: function.scope,
        name: name.text.as_slice(),
    })
}

impl<'t> Demands<'t> {
    /// Nothing is asked.
    fn none(alloc: Global) -> Demands<'t>
        ensures numbered { AreNumbered result }
        ensures demands { demands_in result ≡ [] }
    {
        Demands {
            variables: Variables::new(alloc),
            list: Vec::new(alloc),
        }
    }

    /// The name is an array.
    #[tactic(auto, using(crate::proofs::KindLists::speaks_on, crate::proofs::KindLists::one_more_demand))]
    fn array(&mut self, key: ScopedName<'t>) -> Result<(), AllocError>
        requires { AreNumbered self.old }
        ensures numbered { OnOk result (AreNumbered self.new) }
        ensures demands { OnOk result (demands_in self.new ≡ demands_in self.old ++
            spec.array_at (key_view key.entry) ∷ []) }
    {
        let variable = self.variables.variable(key)?;
        self.list.push(Demand::Array(variable))?;
        Ok(())
    }

    /// The name is a scalar.
    #[tactic(auto, using(crate::proofs::KindLists::speaks_on, crate::proofs::KindLists::one_more_demand))]
    fn scalar(&mut self, key: ScopedName<'t>) -> Result<(), AllocError>
        requires { AreNumbered self.old }
        ensures numbered { OnOk result (AreNumbered self.new) }
        ensures demands { OnOk result (demands_in self.new ≡ demands_in self.old ++
            spec.scalar_at (key_view key.entry) ∷ []) }
    {
        let variable = self.variables.variable(key)?;
        self.list.push(Demand::Scalar(variable))?;
        Ok(())
    }

    /// Both names are of one kind.
    #[tactic(auto, using(crate::proofs::KindLists::speaks_on, crate::proofs::KindLists::one_more_demand))]
    fn alike(&mut self, key: ScopedName<'t>, other: ScopedName<'t>) -> Result<(), AllocError>
        requires { AreNumbered self.old }
        ensures numbered { OnOk result (AreNumbered self.new) }
        ensures demands { OnOk result (demands_in self.new ≡ demands_in self.old ++
            spec.alike (key_view key.entry) (key_view other.entry) ∷ []) }
    {
        let variable = self.variables.variable(key)?;
        let parameter = self.variables.variable(other)?;
        self.list.push(Demand::Alike(variable, parameter))?;
        Ok(())
    }

    /// Adds what a mention in the item of this number asks.
    fn add(
        &mut self,
        functions: &Functions<'t>,
        number: usize,
        item: &'t ProgramItem,
        mention: Mention<'t>,
    ) -> Result<(), AllocError>
        requires { AreNumbered self.old }
        ensures numbered { OnOk result (AreNumbered self.new) }
        ensures demands { OnOk result (demands_in self.new ≡ demands_in self.old ++
            spec.demands_of (function_under functions.now) number (part item.now)
            (mention_view mention.entry)) }
    {
        match mention {
            Mention::Array(x) => self.array(name_in(number, item, x)),
            Mention::Scalar(x) => self.scalar(name_in(number, item, x)),
            Mention::Target(x) => self.scalar(name_in(number, item, x)),
            Mention::Argument(x, function, place) => match parameter(functions, function, place) {
                None => Ok(()),
                Some(parameter) => self.alike(name_in(number, item, x), parameter),
            },
            Mention::Value(function, place) => match parameter(functions, function, place) {
                None => Ok(()),
                Some(parameter) => self.scalar(parameter),
            },
            Mention::Call(_, _)
            | Mention::Builtin(_, _, _)
            | Mention::Leave(_, _, _)
            | Mention::Return(_) => Ok(()),
        }
    }

    /// Adds what the item of this number asks.
    fn add_item(
        &mut self,
        alloc: Global,
        functions: &Functions<'t>,
        number: usize,
        item: &'t ProgramItem,
    ) -> Result<(), AllocError>
        requires { AreNumbered self.old }
        ensures numbered { OnOk result (AreNumbered self.new) }
        ensures demands { OnOk result (demands_in self.new ≡ demands_in self.old ++
            flat_map (spec.demands_of (function_under functions.now) number (part item.now))
            (of_part (part item.now))) }
    {
        let mentions = mentions(alloc, item)?;
        for mention in mentions.as_slice() {
            self.add(functions, number, item, *mention)?;
        }
        Ok(())
    }

    /// What these items ask of the kinds of names.
    pub fn new(
        alloc: Global,
        functions: &Functions<'t>,
        items: &'t [ProgramItem],
    ) -> Result<Demands<'t>, AllocError>
        ensures numbered { IfOk result AreNumbered }
        ensures demands { IfOk result (λ d. demands_in d ≡
            spec.demands_from (function_under functions.now) 1 (map part items.now)) }
    {
        let mut demands = Demands::none(alloc);
        for (index, item) in items.iter().enumerate() {
            demands.add_item(alloc, functions, index + 1, item)?;
        }
        Ok(demands)
    }
}

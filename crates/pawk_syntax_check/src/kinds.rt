//! The kinds of the names of a program, and whether every name has one.

ghost use Rattle.std.specs.Prelude.{◌≡◌, ◌<◌, IfOk, IsTrue, map, length, true, false};
ghost use Rattle.std.specs.Option.{is_none};
ghost use Rattle.std.specs.List.{list_all, All};
ghost use Rattle.pawk_lex.specs.Bytes.{Text};
ghost use Rattle.pawk_syntax_tree.specs.Item.{part};
ghost use Rattle.pawk_syntax_check.specs.Functions.{function_of};
ghost use Rattle.pawk_syntax_check.specs.FunctionViews.{function_under};
ghost use Rattle.pawk_syntax_check.specs.Tables.{key_view};
ghost use Rattle.pawk_syntax_check.specs.Demands.{KindsFit, AreKindsOf, KindsAreUnique, KindsExist};
ghost use Rattle.pawk_syntax_check.specs.DemandViews.{AreNumbered};
ghost use Rattle.pawk_syntax_check.specs.KindViews.{kinds_in, AreFoundFor};
ghost use Rattle.pawk_syntax_check.specs.Marks as marking;
ghost use Rattle.pawk_syntax_check.specs.Found as spec;

use crate::demand::Demand;
use crate::demands::Demands;
use crate::functions::Functions;
use crate::marks::marks;
use crate::places::first_clash;
use crate::variables::{NumberedName, ScopedName, Variables};
use pawk_lex::vocabulary::is_variable;
use pawk_syntax_tree::item::ProgramItem;
use std::alloc::{AllocError, Global};

/// What a program asks of the kinds of its names, and for each of the names, by its number, whether that
/// shows it to be an array.
#[derive(Drop)]
struct MarkedDemands<'t> {
    demands: Demands<'t>,
    marks: Vec<bool>,
}

impl<'t> MarkedDemands<'t> {
    /// What these items ask, whose functions are given, with the names that are shown to be arrays.
    fn new(
        alloc: Global,
        functions: &Functions<'t>,
        items: &'t [ProgramItem],
    ) -> Result<MarkedDemands<'t>, AllocError>
        requires { (x : Text) → function_under functions.now x ≡ function_of (map part items.now) x }
        ensures { IfOk result (AreFoundFor (map part items.now)) }
    {
        let demands = Demands::new(alloc, functions, items)?;
        let marks = marks(alloc, demands.list.as_slice(), demands.variables.keys.len())?;
        Ok(MarkedDemands { demands, marks })
    }
}

/// Which names of a program are arrays (POSIX.1-2017, awk, "Variables and Special Variables": a name
/// is a scalar or an array).
#[derive(Drop)]
pub struct Kinds<'t> {
    variables: Variables<'t>,
    marks: Vec<bool>,
}

impl<'t> Kinds<'t> {
    /// The kinds of the names of these items, whose functions are given. Where no kinds meet what the
    /// items ask, see `clash`, nothing is known of what `is_array` answers.
    ///
    /// What the items ask is not kept, since it takes much more room than the names.
    pub fn new(
        alloc: Global,
        functions: &Functions<'t>,
        items: &'t [ProgramItem],
    ) -> Result<Kinds<'t>, AllocError>
        requires { (x : Text) → function_under functions.now x ≡ function_of (map part items.now) x }
        ensures { IfOk result (λ k.
            KindsFit (map part items.now) → AreKindsOf (map part items.now) (kinds_in k)) }
    {
        let found = MarkedDemands::new(alloc, functions, items)?;
        let MarkedDemands { demands, marks } = found;
        let Demands { variables, .. } = demands;
        Ok(Kinds { variables, marks })
    }

    /// Whether a name is an array in a scope: the number of an item that is a function, counted from 1,
    /// where the name is one of its parameters, and 0 for every other name.
    pub fn is_array(&self, scope: usize, name: &'t [u8]) -> bool
        ensures { result ≡ kinds_in self.now (scope, name.now) }
    {
        let key = ScopedName { scope, name };
        if is_given(key) {
            return false;
        }
        match self.variables.number(key) {
            None => false,
            Some(number) => self.marks.get(number).copied().unwrap_or(false),
        }
    }
}

/// A program has one choice of kinds at most.
pub fn kinds_are_unique()
    ensures { KindsAreUnique }
{}

/// A program has a choice of kinds where some kinds meet what it asks, as they do of each program
/// that passes the check.
pub fn kinds_exist()
    ensures { KindsExist }
{}

/// Whether a name in a scope is a variable of the language.
fn is_given(key: ScopedName<'_>) -> bool
    ensures { result ≡ spec.is_given (key_view key.entry) }
{
    key.scope == 0 && is_variable(key.name)
}

/// Whether a variable is an array by its mark; a variable of the language is none.
fn is_array(marks: &[bool], variable: NumberedName<'_>) -> bool
    requires { variable.number < length marks.now }
    ensures { result ≡ spec.is_array marks.now variable.entry }
{
    if is_given(variable.key) {
        false
    } else {
        marks[variable.number]
    }
}

/// Whether the marks meet a demand.
pub fn meets(marks: &[bool], demand: Demand<'_>) -> bool
    requires { marking.IsBelow (length marks.now) demand }
    ensures { result ≡ spec.meets_marks marks.now demand.entry }
{
    match demand {
        Demand::Array(v) => is_array(marks, v),
        Demand::Scalar(v) => !is_array(marks, v),
        Demand::Alike(v, w) => {
            if is_array(marks, v) {
                is_array(marks, w)
            } else {
                !is_array(marks, w)
            }
        }
    }
}

/// Whether the marks meet all demands.
fn meets_all(marks: &[bool], demands: &[Demand<'_>]) -> bool
    requires { marking.AreBelow (length marks.now) demands.now }
    ensures { result ≡ list_all (spec.meets_marks marks.now) demands.now }
{
    for demand in demands {
        if !meets(marks, *demand) {
            return false;
        }
    }
    true
}

/// Where the kinds of names clash, if they do: every name of a program is to have one kind, so that
/// some names are arrays and the others scalars, and every use of a name agrees (POSIX.1-2017, awk,
/// "Variables and Special Variables"). Answers the byte, counted from 0, where a name first occurs
/// of those that have to be of one kind and are not.
pub fn clash<'t>(
    alloc: Global,
    functions: &Functions<'t>,
    items: &'t [ProgramItem],
) -> Result<Option<usize>, AllocError>
    requires { (x : Text) → function_under functions.now x ≡ function_of (map part items.now) x }
    ensures fit { IfOk result (λ o. is_none o ≡ true → KindsFit (map part items.now)) }
    ensures unfit { IfOk result (λ o. is_none o ≡ false → KindsFit (map part items.now) → ⊥) }
{
    let kinds = MarkedDemands::new(alloc, functions, items)?;
    if meets_all(kinds.marks.as_slice(), kinds.demands.list.as_slice()) {
        return Ok(None);
    }
    Ok(Some(first_clash(alloc, &kinds.demands, kinds.marks.as_slice(), items)?))
}

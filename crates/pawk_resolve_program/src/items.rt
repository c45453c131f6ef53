//! The code of items.

ghost use Rattle.std.specs.Prelude.{◌≡◌, ◌++◌, IfOk, OnOk, IsOkAnd, map};
ghost use Rattle.std.specs.Option.{option_to_list};
ghost use Rattle.pawk_syntax_tree.specs.Tree.{view as tree_view};
ghost use Rattle.pawk_syntax_tree.specs.Item.{part, seen as tree_seen, texts as name_texts};
ghost use Rattle.pawk_code.specs.ExpressionViews.{view};
ghost use Rattle.pawk_code.specs.StatementViews.{seen};
ghost use Rattle.pawk_code.specs.Programs as code;
ghost use Rattle.pawk_code.specs.ProgramViews.{body_view, rule_view, selector_view, function_view};
ghost use Rattle.pawk_resolve.specs.ScopeViews.{scope_view, table_names, globals_view};
ghost use Rattle.pawk_resolve.specs.Resolved.{resolved};
ghost use Rattle.pawk_resolve.specs.ResolvedStatements.{resolved_body};
ghost use Rattle.pawk_resolve.specs.ResolvedPrograms as spec;

use crate::expression::expression;
use crate::names::table_of;
use crate::statement::body;
use crate::vectors::push_result;
use pawk_code::expression::Expr;
use pawk_code::program::{Function, ParameterKind, Rule, Selector};
use pawk_code::statement::Statement;
use pawk_resolve::scope::{GlobalNames, Scope};
use pawk_resolve::table::NameTable;
use pawk_syntax_parse::build::both;
use pawk_syntax_tree::item::ProgramItem;
use pawk_syntax_tree::statement::StatementTree as TreeStatement;
use pawk_syntax_tree::tree::{ExpressionTree as Tree, Name};
use std::alloc::{AllocError, Global};

/// What runs before, on and after the records.
#[derive(Drop)]
pub struct Actions {
    pub begins: Vec<Vec<Statement>>,
    pub rules: Vec<Rule>,
    pub ends: Vec<Vec<Statement>>,
}

/// The code of a body outside of functions.
fn global_body<'t>(
    globals: &GlobalNames<'t>,
    alloc: Global,
    a: &'t [TreeStatement],
) -> Result<Vec<Statement>, AllocError>
    ensures { IfOk result (λ v. seen v.items ≡
        resolved_body (spec.global_scope (globals_view globals.now)) (tree_seen a.now)) }
{
    let parameters = NameTable::new(alloc);
    let scope = Scope {
        globals,
        item: 0,
        parameters: &parameters,
    };
    body(&scope, alloc, a)
}

/// The code of an expression outside of functions.
fn global_expression<'t>(
    globals: &GlobalNames<'t>,
    alloc: Global,
    e: &'t Tree,
) -> Result<Expr, AllocError>
    ensures { IfOk result (λ x. view x ≡
        resolved (spec.global_scope (globals_view globals.now)) (tree_view e.now)) }
{
    let parameters = NameTable::new(alloc);
    let scope = Scope {
        globals,
        item: 0,
        parameters: &parameters,
    };
    expression(&scope, alloc, e)
}

/// The records for which an expression holds.
fn when<'t>(globals: &GlobalNames<'t>, alloc: Global, e: &'t Tree) -> Result<Selector, AllocError>
    ensures { IfOk result (λ s. selector_view s ≡ code.matching
        (resolved (spec.global_scope (globals_view globals.now)) (tree_view e.now))) }
{
    Ok(Selector::When(global_expression(globals, alloc, e)?))
}

/// A range of records.
fn range<'t>(
    globals: &GlobalNames<'t>,
    alloc: Global,
    e: &'t Tree,
    f: &'t Tree,
) -> Result<Selector, AllocError>
    ensures { IfOk result (λ s. selector_view s ≡ code.between
        (resolved (spec.global_scope (globals_view globals.now)) (tree_view e.now))
        (resolved (spec.global_scope (globals_view globals.now)) (tree_view f.now))) }
{
    let first = global_expression(globals, alloc, e);
    let (first, last) = both(first, global_expression(globals, alloc, f))?;
    Ok(Selector::Range(first, last))
}

/// A rule on the records that are selected.
fn rule<'t>(
    globals: &GlobalNames<'t>,
    alloc: Global,
    selector: Result<Selector, AllocError>,
    a: &'t [TreeStatement],
) -> Result<Rule, AllocError>
    ensures { IfOk result (λ r. IsOkAnd selector (λ s. rule_view r ≡
        spec.rule (globals_view globals.now) (selector_view s) (tree_seen a.now))) }
{
    let (selector, body) = both(selector, global_body(globals, alloc, a))?;
    Ok(Rule { selector, body })
}

/// Adds the action or the rule, if the item is one.
pub fn add_action<'t>(
    actions: &mut Actions,
    globals: &GlobalNames<'t>,
    alloc: Global,
    item: &'t ProgramItem,
) -> Result<(), AllocError>
    ensures begins { OnOk result (map body_view actions.new.begins.items ≡
        map body_view actions.old.begins.items ++
        spec.begin_of (globals_view globals.now) (part item.now)) }
    ensures rules { OnOk result (map rule_view actions.new.rules.items ≡
        map rule_view actions.old.rules.items ++
        spec.rule_of (globals_view globals.now) (part item.now)) }
    ensures ends { OnOk result (map body_view actions.new.ends.items ≡
        map body_view actions.old.ends.items ++
        spec.end_of (globals_view globals.now) (part item.now)) }
{
    match item {
        ProgramItem::Begin(a) => push_result(&mut actions.begins, global_body(globals, alloc, a)),
        ProgramItem::End(a) => push_result(&mut actions.ends, global_body(globals, alloc, a)),
        ProgramItem::Always(a) => {
            let rule = rule(globals, alloc, Ok(Selector::Always), a);
            push_result(&mut actions.rules, rule)
        }
        ProgramItem::When(e, a) => {
            let rule = rule(globals, alloc, when(globals, alloc, e), a);
            push_result(&mut actions.rules, rule)
        }
        ProgramItem::Range(e, f, a) => {
            let rule = rule(globals, alloc, range(globals, alloc, e, f), a);
            push_result(&mut actions.rules, rule)
        }
        ProgramItem::Function(_, _, _) => Ok(()),
    }
}

/// What a parameter is.
fn kind_of<'t>(globals: &GlobalNames<'t>, number: usize, name: &'t Name) -> ParameterKind
    ensures { result ≡ spec.kind_of
        ((globals_view globals.now).kinds (number, name.now.text.items)) }
{
    if globals.kinds.is_array(number, name.text.as_slice()) {
        ParameterKind::Array
    } else {
        ParameterKind::Scalar
    }
}

/// The kinds of the parameters of the item of this number.
fn kinds_of<'t>(
    globals: &GlobalNames<'t>,
    alloc: Global,
    number: usize,
    names: &'t [Name],
) -> Result<Vec<ParameterKind>, AllocError>
    ensures { IfOk result (λ v. v.items ≡
        map (λ x. spec.kind_of ((globals_view globals.now).kinds (number, x.text.items))) names.now) }
{
    let mut kinds = Vec::new(alloc);
    for name in names {
        kinds.push(kind_of(globals, number, name))?;
    }
    Ok(kinds)
}

/// The code of the body of the item of this number, whose parameters are given.
fn function_body<'t>(
    globals: &GlobalNames<'t>,
    alloc: Global,
    number: usize,
    names: &'t [Name],
    a: &'t [TreeStatement],
) -> Result<Vec<Statement>, AllocError>
    ensures { IfOk result (λ v. seen v.items ≡ resolved_body
        (spec.function_scope (globals_view globals.now) number (name_texts names.now))
        (tree_seen a.now)) }
{
    let parameters = table_of(alloc, names)?;
    let scope = Scope {
        globals,
        item: number,
        parameters: &parameters,
    };
    body(&scope, alloc, a)
}

/// The function in the item of this number, whose parameters are given.
fn function<'t>(
    globals: &GlobalNames<'t>,
    alloc: Global,
    number: usize,
    names: &'t [Name],
    a: &'t [TreeStatement],
) -> Result<Function, AllocError>
    ensures { IfOk result (λ f. function_view f ≡ spec.function
        (globals_view globals.now) number (name_texts names.now) (tree_seen a.now)) }
{
    let kinds = kinds_of(globals, alloc, number, names)?;
    let body = function_body(globals, alloc, number, names, a)?;
    Ok(Function { kinds, body })
}

/// The function, if the item of this number is one.
pub fn function_of<'t>(
    globals: &GlobalNames<'t>,
    alloc: Global,
    number: usize,
    item: &'t ProgramItem,
) -> Result<Option<Function>, AllocError>
    ensures { IfOk result (λ o. map function_view (option_to_list o) ≡
        spec.function_at (globals_view globals.now) number (part item.now)) }
{
    match item {
        ProgramItem::Function(_, names, a) => Ok(Some(function(globals, alloc, number, names, a)?)),
        _ => Ok(None),
    }
}

//! Expressions with no other inside.

ghost use Rattle.std.specs.Prelude.{◌≡◌, IfOk};
ghost use Rattle.pawk_code.specs.ExpressionViews.{view};
ghost use Rattle.pawk_syntax_tree.specs.Tree.{view as tree_view};
ghost use Rattle.pawk_resolve.specs.ScopeViews.{scope_view};
ghost use Rattle.pawk_resolve.specs.Resolved.{resolved_small};

use pawk_code::expression::Expr;
use pawk_code::leaf::Leaf;
use pawk_resolve::scope::Scope;
use pawk_resolve::sorted::{nothing, numeral};
use pawk_syntax_tree::tree::ExpressionTree as Tree;
use std::alloc::{AllocError, Global};

/// The code of an expression with no other inside; of another one the number 0.
pub fn small(scope: &Scope<'_, '_>, alloc: Global, tree: &Tree) -> Result<Expr, AllocError>
    ensures { IfOk result (λ e. view e ≡
        resolved_small (scope_view scope.now) (tree_view tree.now)) }
{
    match tree {
        Tree::Number(n) => Ok(Expr::Leaf(Leaf::Number(numeral(*n)))),
        Tree::String(text) => {
            let text = Vec::from_slice(alloc, text.as_slice())?;
            Ok(Expr::Leaf(Leaf::Text(text)))
        }
        Tree::Variable(name) => Ok(Expr::Leaf(scope.leaf(name.text.as_slice()))),
        _ => Ok(nothing()),
    }
}

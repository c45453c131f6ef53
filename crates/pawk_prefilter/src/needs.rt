//! Words of which a record needs one for a pattern to hold.

ghost use Rattle.std.specs.Prelude.{◌≡◌, ◌≤◌, ℕ, List, length, slice_get, IfOk, IfSome, Some};
ghost use Rattle.pawk_code.specs.Expressions.{Expr as Expression};
ghost use Rattle.pawk_code.specs.ExpressionViews.{pattern_view, test_view, view};
ghost use Rattle.pawk_code.specs.ProgramViews.{selector_view};
ghost use Rattle.pawk_prefilter.specs.Needs.{IsIdle, IsIdleSelector, IsIdleTest, Needs, NeedsInRecord};
ghost use Rattle.pawk_prefilter.specs.Passages.{texts_of};

use memchr::memmem::Finder;
use pawk_code::expression::{Expr, Numeric, Pattern, Test};
use pawk_code::leaf::Leaf;
use pawk_code::program::Selector;
use pawk_ere::{Ere, EreRefusal, needed_words_of};
use std::alloc::{AllocError, Global};

/// Words that may be needed; none, where none are known.
type Words = Vec<Finder<'static>>;

/// The expression of this number, if there is one.
fn expression_at(expressions: &[Vec<u8>], number: usize) -> Option<&[u8]>
    ensures { IfSome result (λ text.
        slice_get (texts_of expressions.now) number ≡ Some text.now) }
{
    Some(expressions.get(number)?.as_slice())
}

/// Words of which each text holds one in which the expression of this number matches.
fn words_of_number(
    alloc: Global,
    expressions: &[Vec<u8>],
    number: usize,
) -> Result<Words, AllocError>
    ensures { IfOk result (λ words. 1 ≤ length words.items
        → Needs (texts_of expressions.now) words.items number) }
{
    let Some(text) = expression_at(expressions, number) else {
        return Ok(Vec::new(alloc));
    };
    match Ere::parse(alloc, text) {
        Ok(ere) => needed_words_of(alloc, &ere),
        Err(EreRefusal::Memory) => Err(AllocError),
        Err(_) => Ok(Vec::new(alloc)),
    }
}

/// Words of which a record holds one in which the pattern is found, where it is looked for in the record.
fn words_in_record(
    alloc: Global,
    expressions: &[Vec<u8>],
    text: &Expr,
    pattern: &Pattern,
) -> Result<Words, AllocError>
    ensures { IfOk result (λ words. 1 ≤ length words.items
        → NeedsInRecord (texts_of expressions.now) words.items (view text.now)
        (pattern_view pattern.now)) }
{
    match (text, pattern) {
        (Expr::Leaf(Leaf::Field(0)), Pattern::Fixed(number)) => {
            words_of_number(alloc, expressions, *number)
        }
        _ => Ok(Vec::new(alloc)),
    }
}

/// Words of which a record holds one for which one of two expressions holds that need these words.
fn words_of_either(alloc: Global, first: Words, second: Words) -> Result<Words, AllocError>
    ensures { (eres : List (List ℕ)) (a b : Expression) →
        (1 ≤ length first.entry.items → IsIdle eres first.entry.items a) →
        (1 ≤ length second.entry.items → IsIdle eres second.entry.items b) →
        IfOk result (λ words. 1 ≤ length words.items
        → IsIdle eres words.items a × IsIdle eres words.items b) }
{
    let (mut words, mut others) = (first, second);
    if words.is_empty() || others.is_empty() {
        return Ok(Vec::new(alloc));
    }
    words.append(&mut others)?;
    Ok(words)
}

/// Words of which a record holds one for which the expression holds.
#[cycle(needs)]
fn words_of(alloc: Global, expressions: &[Vec<u8>], e: &Expr) -> Result<Words, AllocError>
    ensures { IfOk result (λ words. 1 ≤ length words.items
        → IsIdle (texts_of expressions.now) words.items (view e.now)) }
{
    match e {
        Expr::Test(test) => words_of_test(alloc, expressions, test),
        Expr::Numeric(Numeric::Find(text, pattern)) => {
            words_in_record(alloc, expressions, text, pattern)
        }
        _ => Ok(Vec::new(alloc)),
    }
}

/// Words of which a record holds one for which the test holds.
#[cycle(needs)]
fn words_of_test(alloc: Global, expressions: &[Vec<u8>], test: &Test) -> Result<Words, AllocError>
    ensures { IfOk result (λ words. 1 ≤ length words.items
        → IsIdleTest (texts_of expressions.now) words.items (test_view test.now)) }
{
    match test {
        Test::Match(true, text, pattern) => words_in_record(alloc, expressions, text, pattern),
        Test::And(first, _) => words_of(alloc, expressions, first),
        Test::Or(first, second) => {
            let words = words_of(alloc, expressions, first)?;
            words_of_either(alloc, words, words_of(alloc, expressions, second)?)
        }
        _ => Ok(Vec::new(alloc)),
    }
}

/// Words of which a record holds one that a rule of this selector is for, unless its range has begun.
pub(crate) fn words_of_selector(
    alloc: Global,
    expressions: &[Vec<u8>],
    selector: &Selector,
) -> Result<Words, AllocError>
    ensures { IfOk result (λ words. 1 ≤ length words.items
        → IsIdleSelector (texts_of expressions.now) words.items (selector_view selector.now)) }
{
    match selector {
        Selector::Always => Ok(Vec::new(alloc)),
        Selector::When(e) => words_of(alloc, expressions, e),
        Selector::Range(first, _) => words_of(alloc, expressions, first),
    }
}

//! How operators bind (POSIX.1-2017, awk, "Expressions in awk").

ghost use Rattle.std.specs.Prelude.{◌≡◌, Some, if◌then◌else◌, nat_le};
ghost use Rattle.pawk_syntax_tree.specs.Levels as spec;

use crate::tree::{Double, Single};
use pawk_lex::token::Mark;

/// The level of an expression, the loosest.
pub const OF_EXPR: u8 = 0;
/// The level of `k in a`.
pub const OF_MEMBER: u8 = 3;
/// The level of what has a sign before it.
pub const OF_PREFIXED: u8 = 9;
/// The level of what is incremented or decremented.
pub const OF_INCREMENT: u8 = 11;
/// The level of a primary, be it an lvalue or not.
pub const OF_PRIMARY: u8 = 12;
/// The level of a primary that is no lvalue.
pub const OF_VALUE: u8 = 13;
/// The level of an lvalue.
pub const OF_LVALUE: u8 = 14;

/// What an operator after an operand does.
#[derive(Clone, Copy)]
pub enum Turn {
    Infix(Double),
    Beside,
    Membership,
    Choosing,
    Postfix(Single),
}

/// How an operator binds: the level of what it makes, and the levels that its operands need.
#[derive(Clone, Copy)]
pub struct Row {
    pub turn: Turn,
    pub level: u8,
    pub left: u8,
    pub right: u8,
}

fn some_row(turn: Turn, level: u8, left: u8, right: u8) -> Option<Row>
    ensures { result ≡ Some (record { turn = turn; level = level; left = left; right = right }) }
{
    Some(Row {
        turn,
        level,
        left,
        right,
    })
}

/// The row of an operator between two operands.
fn joining(op: Double) -> Option<Row>
    ensures { result ≡ spec.joining op }
{
    let turn = Turn::Infix(op);
    match op {
        Double::Or => some_row(turn, 1, 1, 2),
        Double::And => some_row(turn, 2, 2, 3),
        Double::Match | Double::NotMatch => some_row(turn, 4, 5, 5),
        Double::Less
        | Double::LessEqual
        | Double::Equal
        | Double::NotEqual
        | Double::Greater
        | Double::GreaterEqual => some_row(turn, 5, 6, 6),
        Double::Concatenate => some_row(turn, 6, 6, 7),
        Double::Add | Double::Subtract => some_row(turn, 7, 7, 8),
        Double::Multiply | Double::Divide | Double::Remainder => some_row(turn, 8, 8, 9),
        Double::Power => some_row(turn, 10, 11, 9),
        _ => some_row(turn, OF_EXPR, OF_LVALUE, OF_EXPR),
    }
}

/// The row of two operands side by side.
pub fn beside() -> Option<Row>
    ensures { result ≡ spec.beside }
{
    some_row(Turn::Beside, 6, 6, 7)
}

/// The row of `++` or `--`: a postfix after an lvalue, elsewhere the beginning of an operand.
fn step(top: u8, op: Single) -> Option<Row>
    ensures { result ≡ (if nat_le 14 top then spec.stepping op else spec.beside) }
{
    if OF_LVALUE <= top {
        some_row(Turn::Postfix(op), OF_INCREMENT, OF_LVALUE, OF_EXPR)
    } else {
        beside()
    }
}

/// What a sign does after an operand of the level `top`; `compares` says that `>` is a comparison
/// there.
pub fn row_of_sign(compares: bool, top: u8, sign: Mark) -> Option<Row>
    ensures { result ≡ spec.row_of_sign compares top sign }
{
    match sign {
        Mark::Or => joining(Double::Or),
        Mark::And => joining(Double::And),
        Mark::Tilde => joining(Double::Match),
        Mark::NotMatch => joining(Double::NotMatch),
        Mark::Less => joining(Double::Less),
        Mark::LessEqual => joining(Double::LessEqual),
        Mark::Equal => joining(Double::Equal),
        Mark::NotEqual => joining(Double::NotEqual),
        Mark::Greater => {
            if compares {
                joining(Double::Greater)
            } else {
                None
            }
        }
        Mark::GreaterEqual => joining(Double::GreaterEqual),
        Mark::Plus => joining(Double::Add),
        Mark::Minus => joining(Double::Subtract),
        Mark::Star => joining(Double::Multiply),
        Mark::Slash => joining(Double::Divide),
        Mark::Percent => joining(Double::Remainder),
        Mark::Caret => joining(Double::Power),
        Mark::Assign => joining(Double::Assign),
        Mark::PlusAssign => joining(Double::AddAssign),
        Mark::MinusAssign => joining(Double::SubtractAssign),
        Mark::StarAssign => joining(Double::MultiplyAssign),
        Mark::SlashAssign => joining(Double::DivideAssign),
        Mark::PercentAssign => joining(Double::RemainderAssign),
        Mark::CaretAssign => joining(Double::PowerAssign),
        Mark::In => some_row(Turn::Membership, OF_MEMBER, OF_MEMBER, OF_EXPR),
        Mark::Question => some_row(Turn::Choosing, OF_EXPR, 1, OF_EXPR),
        Mark::PlusPlus => step(top, Single::IncrementAfter),
        Mark::MinusMinus => step(top, Single::DecrementAfter),
        Mark::Not | Mark::Dollar | Mark::LeftParenthesis => beside(),
        _ => None,
    }
}

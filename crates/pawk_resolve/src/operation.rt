//! What operators with two operands do.

ghost use Rattle.std.specs.Prelude.{◌≡◌};
ghost use Rattle.pawk_resolve.specs.Sorted as spec;

use pawk_code::word::Relation;
use pawk_syntax_tree::tree::Double;
use pawk_value::Op;

/// What an operator with two operands does.
#[derive(Clone, Copy)]
pub enum Operation {
    Or,
    And,
    /// `~`, or, with `false`, `!~`
    Match(bool),
    Compare(Relation),
    Join,
    Arithmetic(Op),
    Assign,
    Change(Op),
}

/// What an operator with two operands does.
pub fn operation_of(op: Double) -> Operation
    ensures { result ≡ spec.operation op }
{
    match op {
        Double::Or => Operation::Or,
        Double::And => Operation::And,
        Double::Match => Operation::Match(true),
        Double::NotMatch => Operation::Match(false),
        Double::Less => Operation::Compare(Relation::Less),
        Double::LessEqual => Operation::Compare(Relation::LessEqual),
        Double::Equal => Operation::Compare(Relation::Equal),
        Double::NotEqual => Operation::Compare(Relation::NotEqual),
        Double::Greater => Operation::Compare(Relation::Greater),
        Double::GreaterEqual => Operation::Compare(Relation::GreaterEqual),
        Double::Concatenate => Operation::Join,
        Double::Add => Operation::Arithmetic(Op::Add),
        Double::Subtract => Operation::Arithmetic(Op::Subtract),
        Double::Multiply => Operation::Arithmetic(Op::Multiply),
        Double::Divide => Operation::Arithmetic(Op::Divide),
        Double::Remainder => Operation::Arithmetic(Op::Remainder),
        Double::Power => Operation::Arithmetic(Op::Power),
        Double::Assign => Operation::Assign,
        Double::AddAssign => Operation::Change(Op::Add),
        Double::SubtractAssign => Operation::Change(Op::Subtract),
        Double::MultiplyAssign => Operation::Change(Op::Multiply),
        Double::DivideAssign => Operation::Change(Op::Divide),
        Double::RemainderAssign => Operation::Change(Op::Remainder),
        Double::PowerAssign => Operation::Change(Op::Power),
    }
}

//! What the place of an expression makes of a name that is alone there.

ghost use Rattle.std.specs.Prelude.{◌≡◌};
ghost use Rattle.pawk_syntax_check.specs.Mentions as spec;
ghost use Rattle.pawk_syntax_check.specs.Views.{mention_view, role_view, setting_view};

use crate::mention::Mention;
use pawk_lex::token::Builtin;
use pawk_syntax_tree::tree::{Double, Name, Single};

/// What becomes of a name that is alone.
#[derive(Clone, Copy)]
pub enum NameRole<'t> {
    /// Its value is read.
    Value,
    /// It is assigned.
    Target,
    /// `split` fills it.
    Array,
    /// It is passed to this function, at this place, counted from 0.
    Argument(&'t Name, usize),
}

/// What a list of expressions belongs to.
#[derive(Clone, Copy)]
pub enum Setting<'t> {
    /// Subscripts, keys, or what is printed.
    Plain,
    /// Arguments of a function of the program.
    Call(&'t Name),
    /// Arguments of a built-in function.
    Builtin(Builtin),
}

impl<'t> NameRole<'t> {
    /// The mention of a name that is alone in this role.
    pub fn mention(self, name: &'t Name) -> Mention<'t>
        ensures { mention_view result ≡ spec.mention (role_view self.entry) name.now.text.items }
    {
        match self {
            NameRole::Value => Mention::Scalar(name),
            NameRole::Target => Mention::Target(name),
            NameRole::Array => Mention::Array(name),
            NameRole::Argument(function, place) => Mention::Argument(name, function, place),
        }
    }
}

impl<'t> Setting<'t> {
    /// The role of the expression at this place of the list, counted from 0.
    pub fn role_at(self, place: usize) -> NameRole<'t>
        ensures { role_view result ≡ spec.role_at (setting_view self.entry) place }
    {
        match self {
            Setting::Plain => NameRole::Value,
            Setting::Call(function) => NameRole::Argument(function, place),
            Setting::Builtin(Builtin::Sub) if place == 2 => NameRole::Target,
            Setting::Builtin(Builtin::Gsub) if place == 2 => NameRole::Target,
            Setting::Builtin(Builtin::Split) if place == 1 => NameRole::Array,
            Setting::Builtin(_) => NameRole::Value,
        }
    }
}

/// The role of the operand of this operator.
pub fn role_under<'t>(op: Single) -> NameRole<'t>
    ensures { role_view result ≡ spec.role_under op }
{
    match op {
        Single::Field | Single::Not | Single::Plus | Single::Minus => NameRole::Value,
        _ => NameRole::Target,
    }
}

/// The role of the left operand of this operator.
pub fn role_left<'t>(op: Double) -> NameRole<'t>
    ensures { role_view result ≡ spec.role_left op }
{
    match op {
        Double::Assign
        | Double::AddAssign
        | Double::SubtractAssign
        | Double::MultiplyAssign
        | Double::DivideAssign
        | Double::RemainderAssign
        | Double::PowerAssign => NameRole::Target,
        _ => NameRole::Value,
    }
}

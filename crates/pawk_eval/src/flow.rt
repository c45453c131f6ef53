//! How statements leave.

ghost use Rattle.std.specs.Prelude.{◌≡◌, MatchOption, Some, None};
ghost use Rattle.pawk_value.specs.Value.{shown};
ghost use Rattle.pawk_store.specs.Meaning.{left_by, value_of_way};
ghost use Rattle.pawk_eval.specs.Flows.{way_of};

use pawk_value::Value;

/// How a statement leaves.
#[derive(Drop)]
pub enum Flow {
    /// To what follows it.
    On,
    Break,
    Continue,
    /// Out of the function, which has this value.
    Return(Value),
}

impl Flow {
    /// How a loop is left whose body leaves so, if it is left.
    pub(crate) fn loop_end(self) -> Option<Flow>
        ensures { MatchOption result (left_by (way_of self) ≡ None)
            (λ end. left_by (way_of self) ≡ Some (way_of end)) }
    {
        match self {
            Flow::On => None,
            Flow::Break => Some(Flow::On),
            Flow::Continue => None,
            Flow::Return(value) => Some(Flow::Return(value)),
        }
    }

    /// The value of a function whose body leaves so.
    pub(crate) fn value(self) -> Value
        ensures { shown result ≡ value_of_way (way_of self) }
    {
        match self {
            Flow::Return(value) => value,
            _ => Value::Uninit,
        }
    }
}

//! A number that contracts alone see.

ghost use Rattle.std.specs.Prelude.{◌≡◌, ◌+◌, ℕ};
ghost use Rattle.std.specs.Borrow.{ftrue};

use std::marker::Model;

/// How often something came to pass: a number without bound that takes no memory, since contracts alone see it.
#[derive(Drop)]
pub struct Count {
    pub ghost times: { ℕ },
}

impl Model for Count {
    ghost also_owns = { λ _. ftrue };
}

impl Count {
    /// The count of an event that never came to pass.
    pub(crate) fn new() -> Count
        ensures { result.times ≡ 0 }
    {
        Count {}
    }

    /// The count of an event that came to pass once more.
    pub(crate) fn one_more(_before: &Count) -> Count
        ensures { result.times ≡ _before.now.times + 1 }
    {
        Count {}
    }
}

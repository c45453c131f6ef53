//! What a board comes to.
ghost use Rattle.std.specs.Prelude.{◌≡◌};

use std::marker::Model;

/// The words of a board that was finished.
#[derive(Clone, Copy, Debug, PartialEq, Eq)]
pub struct Tally {
    counter: u64,
    stop: u64,
}

impl Model for Tally {
    ghost use Rattle.pawk_board.specs.Views.{TallyView};

    ghost Value = { TallyView };

    ghost view = { λ t. record { counter = t.counter; stop = t.stop } };

    ghost inverse = { λ t. record { counter = t.counter; stop = t.stop } };
}

impl Tally {
    /// A tally of these words.
    pub(crate) fn new(counter: u64, stop: u64) -> Tally
        ensures counter { result.counter ≡ counter }
        ensures stop { result.stop ≡ stop }
    {
        Tally { counter, stop }
    }

    /// How many numbers were drawn, counted over all seats; those at the count of chunks and past it are the draws
    /// that were answered `Done`.
    pub fn counter(&self) -> u64
        ensures { result ≡ self.now.counter }
    {
        self.counter
    }

    /// The least stop that was reported, or the count of chunks where none was.
    pub fn stop(&self) -> u64
        ensures { result ≡ self.now.stop }
    {
        self.stop
    }
}

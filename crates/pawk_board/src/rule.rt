//! The rule of the board's two words, and the kinds of step that keep it.
use crate::hand::{Hand, Terms};
use atomic_table::{Join, Play, Split, TableRule};
use std::collections::LinkedList;

/// What a seat of the table knows: a hand for each seat of the board that it stands for.
pub(crate) type Hands = LinkedList<Hand>;

/// The words and the hands of all seats are lawful, between any two steps.
pub(crate) struct BoardRule;

impl TableRule<u8, Hands, Terms> for BoardRule {
    ghost use Rattle.pawk_board.specs.Rule.{Kept, opening_hands};

    ghost holds = { Kept };

    ghost first = { opening_hands };
}

/// A number is drawn.
pub(crate) struct Draw;

impl Play<u8, Hands> for Draw {
    ghost use Rattle.pawk_board.specs.Rule.{Draws};

    ghost then = { Draws };
}

/// A stop is reported.
pub(crate) struct Tell;

impl Play<u8, Hands> for Tell {
    ghost use Rattle.pawk_board.specs.Rule.{Tells};

    ghost then = { Tells };
}

/// The stop is looked at.
pub(crate) struct Look;

impl Play<u8, Hands> for Look {
    ghost use Rattle.pawk_board.specs.Rule.{Looks};

    ghost then = { Looks };
}

/// A seat of the table that stands for no seat of the board comes in.
pub(crate) struct Enter;

impl Play<u8, Hands> for Enter {
    ghost use Rattle.std.specs.Prelude.{◌≡◌, []};

    ghost then = { λ s v n w. w ≡ ([], []) };
}

/// One seat of the board is dealt out.
pub(crate) struct Deal;

impl Split<Hands> for Deal {
    ghost use Rattle.pawk_board.specs.Rule.{first_hand, other_hands};

    ghost left = { other_hands };

    ghost right = { first_hand };
}

/// A seat of the board is taken back.
pub(crate) struct Gather;

impl Join<Hands> for Gather {
    ghost use Rattle.std.specs.Prelude.{[], ◌++◌};

    ghost both = { λ v w. v ++ w };

    ghost spent = { [] };
}

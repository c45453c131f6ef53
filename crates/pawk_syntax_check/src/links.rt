//! Which demands speak of a number. Nothing is proved of it: it only leads to what is marked next.

use crate::demand::Demand;
use std::alloc::{AllocError, Global};

/// The demands of each number, as lists through slots: a demand has a slot for each of its two
/// numbers.
#[derive(Drop)]
pub struct Links {
    /// The first slot of each number; past all slots where it has none.
    first: Vec<usize>,
    /// The slot after each.
    next: Vec<usize>,
}

impl Links {
    /// The demands that join two of the first `count` numbers.
    pub fn new(alloc: Global, demands: &[Demand<'_>], count: usize) -> Result<Links, AllocError> {
        let mut links = Links {
            first: vec![in alloc; usize::MAX; count]?,
            next: Vec::new(alloc),
        };
        for demand in demands {
            let (one, other) = match *demand {
                Demand::Alike(v, w) => (v.number, w.number),
                _ => (usize::MAX, usize::MAX),
            };
            links.push(one)?;
            links.push(other)?;
        }
        Ok(links)
    }

    /// A new slot of this number, or of none.
    fn push(&mut self, number: usize) -> Result<(), AllocError> {
        let slot = self.next.len();
        match self.first.get_mut(number) {
            None => self.next.push(usize::MAX)?,
            Some(first) => {
                let after = *first;
                *first = slot;
                self.next.push(after)?;
            }
        }
        Ok(())
    }

    /// Adds the places of the demands that speak of this number.
    pub fn follow(&self, number: usize, places: &mut Vec<usize>) -> Result<(), AllocError> {
        let mut slot = self.first.get(number).copied().unwrap_or(usize::MAX);
        for _turn in 0..self.next.len() {
            if slot == usize::MAX {
                break;
            }
            places.push(slot / 2)?;
            slot = self.next.get(slot).copied().unwrap_or(usize::MAX);
        }
        Ok(())
    }
}

//! Numbers whose clones are refused after a given number of them, and which tell whether each was dropped exactly once.

ghost use Rattle.std.specs.Prelude.{◌≡◌, nat_eq};
ghost use Rattle.std.specs.Ordering.{on};
ghost use Rattle.std.specs.Cmp.Rules.{comparing};
ghost use Rattle.std.proofs.Common.{rules};

use crate::array_and_slice_makers::NumberedElement;
use std::alloc::{AllocError, Global};
use std::cell::Cell;
use std::test::Fail;

/// What the numbers of a test share: how many more clones are allowed, and which numbers exist.
#[derive(Drop)]
pub struct Tally {
    left: Cell<u64>,
    // How many numbers were made so far, and a bit for each number that exists.
    made: Cell<u32>,
    living: Cell<u64>,
    // Whether a number was dropped that didn't exist, or more numbers were made than there are bits.
    amiss: Cell<bool>,
}

impl Tally {
    /// Returns a tally that allows `clones` clones.
    pub fn allowing(clones: u64) -> Tally {
        Tally {
            left: Cell::new(clones),
            made: Cell::new(0),
            living: Cell::new(0),
            amiss: Cell::new(false),
        }
    }

    /// Returns how many more clones are allowed.
    pub fn left(&self) -> u64 {
        self.left.get()
    }

    /// Returns how many numbers were made and not yet dropped. Returns `None` if a number was dropped twice, or more
    /// than 64 were made.
    pub fn living(&self) -> Option<u32> {
        if self.amiss.get() {
            None
        } else {
            Some(self.living.get().count_ones())
        }
    }

    /// Returns whether this many numbers were made and not yet dropped, and none was dropped twice.
    pub fn has(&self, living: u32) -> bool {
        match self.living() {
            Some(count) => count == living,
            None => false,
        }
    }

    /// Returns whether `left` more clones are allowed, and `living` numbers exist.
    pub fn is_at(&self, left: u64, living: u32) -> bool {
        self.left() == left && self.has(living)
    }

    // Counts a new number, and returns the position of its bit.
    fn enter(&self) -> u32 {
        let nth = self.made.get();
        if nth >= 64 {
            self.amiss.set(true);
        }
        self.made.set(nth.wrapping_add(1));
        self.living.set(self.living.get() | 1u64.wrapping_shl(nth));
        nth
    }

    // Counts the drop of the number whose bit is at the position `nth`.
    fn leave(&self, nth: u32) {
        let bit = 1u64.wrapping_shl(nth);
        if self.living.get() & bit == 0 {
            self.amiss.set(true);
        }
        self.living.set(self.living.get() & !bit);
    }
}

/// A number whose clones are counted by its tally: each clone takes one from those that are allowed, and is refused if
/// none is left. Two are equal if their numbers are. The position of its bit in the tally is kept in a cell, so that in
/// proofs a clone is equal to its original.
pub struct Refusing<'a> {
    pub number: u64,
    nth: Cell<u32>,
    tally: &'a Tally,
}

impl<'a> Refusing<'a> {
    /// Returns a number that is counted by `tally`.
    pub fn new(number: u64, tally: &'a Tally) -> Refusing<'a> {
        Refusing {
            number,
            nth: Cell::new(tally.enter()),
            tally,
        }
    }

    /// Returns a list of these numbers, all of which are counted by `tally`.
    pub fn listed(
        alloc: Global,
        numbers: &[u64],
        tally: &'a Tally,
    ) -> Result<Vec<Refusing<'a>>, Fail> {
        let mut items = Vec::new(alloc);
        for number in numbers {
            items.push(Refusing::new(*number, tally))?;
        }
        Ok(items)
    }
}

impl<'a> NumberedElement for Refusing<'a> {
    fn number(&self) -> u64 {
        self.number
    }
}

impl<'a> Drop for Refusing<'a> {
    fn drop(self) {
        self.tally.leave(self.nth.get());
        let Refusing {
            number: _,
            nth: _,
            tally: _,
        } = self;
    }
}

impl<'a> PartialEq for Refusing<'a> {
    ghost eq = { on (λ x. x.number) nat_eq };

    ghost laws = { Prim.search (comparing, rules) };

    fn eq(&self, other: &Self) -> bool {
        self.number == other.number
    }
}

impl<'a> Eq for Refusing<'a> {
    ghost laws = { Prim.search (comparing, rules) };
}

impl<'a> Clone for Refusing<'a> {
    ghost is_clone = { λ x y. y ≡ x };

    fn clone(&self) -> Result<Self, AllocError> {
        let left = self.tally.left();
        if left == 0 {
            return Err(AllocError);
        }
        self.tally.left.set(left - 1);
        Ok(Refusing {
            number: self.number,
            nth: Cell::new(self.tally.enter()),
            tally: self.tally,
        })
    }
}

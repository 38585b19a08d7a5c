// Steps that contracts count and a running program doesn't.
ghost use Rattle.std.specs.Prelude.{◌≡◌, ◌+◌, ◌<◌};

use std::marker::Model;
use std::sync::ledger::{Blank, Book, Ledger, Share};

/// The steps that were taken, as a number that contracts see: with it a clause can say how much
/// work a call does. What one step is, is for the code that calls `tick`. No byte of the program
/// holds the number.
#[derive(Drop)]
pub struct Steps<L: Ledger> {
    taken: Book<L>,
    held: Share<L>,
}

impl<L: Ledger> Model for Steps<L> {
    ghost use Rattle.std.specs.Prelude.{ℕ, ◌<◌};

    ghost Value = { ℕ };

    ghost view = { λ s. s.taken.total };

    ghost invariant = { λ s. 0 < s.held.parts };
}

impl<L: Ledger> Steps<L> {
    /// No step yet. It uses up the blank, so two counters can't share one ledger.
    pub fn new(blank: Blank) -> Steps<L>
        requires name { blank.name ≡ L.name }
        requires parts { blank.parts ≡ L.parts }
        requires some { 0 < blank.parts }
        ensures { result ≡ 0 }
    {
        let (taken, held) = blank.open();
        Steps { taken, held }
    }

    /// One step more.
    pub fn tick(&mut self)
        ensures { self.new ≡ self.old + 1 }
    {
        self.taken.add(&mut self.held, 1);
    }
}

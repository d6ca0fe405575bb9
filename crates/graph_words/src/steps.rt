ghost use Rattle.std.specs.Prelude.{◌≡◌, ◌+◌, ◌<◌};

use std::marker::Model;
use std::sync::ledger::{Blank, Book, Ledger, Share};

/// A count of steps, which contracts see as a number. It takes no bytes, and `tick` does nothing when it runs.
#[derive(Drop)]
pub struct Steps<L: Ledger> {
    book: Book<L>,
    share: Share<L>,
}

impl<L: Ledger> Model for Steps<L> {
    ghost use Rattle.std.specs.Prelude.{ℕ, ◌<◌};

    ghost Value = { ℕ };

    ghost view = { λ steps. steps.book.total };

    ghost invariant = { λ steps. 0 < steps.share.parts };
}

impl<L: Ledger> Steps<L> {
    /// A counter that has counted nothing. Whoever counts nothing calls a function with `Brand` for its ledger and
    /// `Blank::new(1)` as its blank, and makes its counter of that.
    pub fn new(blank: Blank) -> Steps<L>
        requires name { blank.name ≡ L.name }
        requires parts { blank.parts ≡ L.parts }
        requires some { 0 < blank.parts }
        ensures nothing { result ≡ 0 }
    {
        let (book, share) = blank.open::<L>();
        Steps { book, share }
    }

    pub fn tick(&mut self)
        ensures { self.new ≡ self.old + 1 }
    {
        self.book.add(&mut self.share, 1);
    }
}

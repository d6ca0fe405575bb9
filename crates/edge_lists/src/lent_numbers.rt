ghost use Rattle.std.specs.Prelude.{◌≡◌, ◌<◌, ◌≤◌, ◌==◌, [], ◌∷◌, length, slice_get, slice_index, slice_range, IfNone, IfSome};

use crate::listed::Listed;
use std::marker::Model;

/// A run of the numbers of a list, lent. A number is found by its index in the same time in a long list as in a short one.
#[derive(Drop)]
pub struct LentNumbers<'a> {
    list: &'a Listed,
    from: usize,
    to: usize,
}

impl<'a> Model for LentNumbers<'a> {
    ghost use Rattle.std.specs.Prelude.{List, ℕ, ◌<◌, ◌≤◌, ◌^◌, length, slice_range};

    ghost Value = { List ℕ };

    ghost view = { λ run. slice_range run.list.now.numbers run.from run.to };

    ghost invariant = { λ run. (run.from ≤ run.to) × (run.to ≤ length run.list.now.numbers) × (run.to < 2 ^ 64) };
}

impl<'a> LentNumbers<'a> {
    /// The numbers of a list from an index to another.
    pub(crate) fn of(list: &'a Listed, from: usize, to: usize) -> LentNumbers<'a>
        requires ends { from ≤ to }
        requires within { to ≤ length list.now.numbers }
        ensures { result ≡ slice_range list.now.numbers from to }
    {
        LentNumbers { list, from, to }
    }

    /// How many numbers there are.
    pub fn len(&self) -> usize
        ensures { result ≡ length self.now }
    {
        self.to - self.from
    }

    /// Whether there are none.
    pub fn is_empty(&self) -> bool
        ensures { result ≡ (length self.now == 0) }
    {
        self.from == self.to
    }

    /// The number at an index.
    pub fn number(&self, index: usize) -> usize
        requires { index < length self.now }
        ensures { result ≡ slice_index self.now index }
    {
        let list = self.list;
        list.number(self.from + index) as usize
    }

    /// The number at an index, or None past the last one.
    pub fn get(&self, index: usize) -> Option<usize>
        ensures { result ≡ slice_get self.now index }
    {
        if index >= self.len() {
            return None;
        }
        Some(self.number(index))
    }

    /// The first number and the others, or None where there are none.
    pub fn split_first(&self) -> Option<(usize, LentNumbers<'a>)>
        ensures both { IfSome result (λ found. self.now ≡ found.0 ∷ found.1) }
        ensures none { IfNone result (self.now ≡ []) }
    {
        if self.is_empty() {
            return None;
        }
        let list = self.list;
        let others = LentNumbers {
            list,
            from: self.from + 1,
            to: self.to,
        };
        Some((self.number(0), others))
    }
}

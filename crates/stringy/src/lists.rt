//! Hodge numbers in lists, as they are told.
ghost use Rattle.std.specs.Prelude.{◌≡◌, ◌+◌, ◌*◌, ◌<◌, ◌≤◌, ◌++◌};
ghost use Rattle.arrayvec.specs.ArrayVec.{array_vec_len};
ghost use Rattle.stringy.specs.Numbers.{hodge_line, hodge_lines, first_numbers};

use crate::EPoly;
use arrayvec::ArrayVec;

/// The most Hodge numbers: 7 for each of 7.
pub const MOST_NUMBERS: usize = 49;

impl EPoly {
    /// Appends h(p,0), h(p,1) and so on.
    fn add_line(&self, numbers: &mut ArrayVec<i128, MOST_NUMBERS>, p: u32)
        requires within { p ≤ self.now.dim }
        requires room { array_vec_len numbers.old + 7 ≤ 49 }
        ensures items { numbers.new.items ≡ numbers.old.items ++ hodge_line self.now p }
        ensures count { array_vec_len numbers.new ≡ array_vec_len numbers.old + (self.now.dim + 1) }
    {
        for q in 0..self.dim() + 1 {
            numbers.push(self.hodge_of(p, q));
        }
    }

    /// All Hodge numbers h(p,q), p by p.
    pub fn diamond(&self) -> ArrayVec<i128, MOST_NUMBERS>
        ensures { result.items ≡ hodge_lines self.now }
    {
        let mut numbers = ArrayVec::new();
        for p in 0..self.dim() + 1 {
            self.add_line(&mut numbers, p);
        }
        numbers
    }

    /// The Hodge numbers that are told in one line: h(1,0) alone where the largest p and q is 1, and otherwise h(1,1), h(2,1) and so on, without the
    /// last one.
    pub fn first_numbers(&self) -> ArrayVec<i128, MOST_NUMBERS>
        ensures { result.items ≡ first_numbers self.now }
    {
        let mut numbers = ArrayVec::new();
        if self.dim() == 1 {
            numbers.push(self.hodge_of(1, 0));
            return numbers;
        }
        for p in 1..self.dim() {
            numbers.push(self.hodge_of(p, 1));
        }
        numbers
    }
}

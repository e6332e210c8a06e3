//! Sets of small numbers that are emptied in the time that it took to fill them.
ghost use Rattle.std.specs.Prelude.{◌≡◌, ◌≤◌, ◌<◌, ◌+◌, [], IfOk, length};
ghost use Rattle.sdcl_base.specs.declared.lit.TheConstants.{MAX_VARIABLE};
ghost use Rattle.sdcl_analyze.specs.Numbers.{none_of, has_number, with_number, IsListed};

use sdcl_base::NoMemory;
use std::alloc::Global;
use std::marker::Model;

/// A set of numbers below a bound, in the order in which they came. It has a mark for each number
/// and a list of those that are marked, so that `contains` and `insert` take constant time, and
/// `clear` time linear in the members.
#[derive(Drop)]
pub(crate) struct NumberSet {
    marks: Vec<bool>,
    members: Vec<u32>,
}

impl Model for NumberSet {
    ghost use Rattle.std.specs.Prelude.{length};
    ghost use Rattle.sdcl_analyze.specs.Numbers.{Numbers, numbers_code, IsMarked};

    ghost Value = { Numbers };

    ghost coded = { numbers_code };

    ghost view = { λ s. record { room = length s.marks.items; members = s.members.items } };

    ghost invariant = { λ s. IsMarked s.marks.items s.members };
}

impl NumberSet {
    /// The empty set of numbers below `room`. All memory is taken here.
    pub(crate) fn new(alloc: Global, room: usize) -> Result<NumberSet, NoMemory>
        requires { room ≤ MAX_VARIABLE + 2 }
        ensures { IfOk result (λ s. s ≡ none_of room) }
    {
        let marks = vec![in alloc; false; room].map_err(|_| NoMemory)?;
        let members = Vec::with_capacity(alloc, room).map_err(|_| NoMemory)?;
        Ok(NumberSet { marks, members })
    }

    /// Whether the number is in the set.
    pub(crate) fn contains(&self, number: u32) -> bool
        requires { number < self.now.room }
        ensures { result ≡ has_number self.now.members number }
    {
        self.marks[number as usize]
    }

    /// Puts a number in.
    pub(crate) fn insert(&mut self, number: u32)
        requires { number < self.old.room }
        ensures { self.new ≡ with_number self.old number }
    {
        if !self.marks[number as usize] {
            self.marks[number as usize] = true;
            if self.members.push(number).is_err() {
                unreachable!()
            }
        }
    }

    /// The members.
    pub(crate) fn members(&self) -> &[u32]
        ensures value { result.now ≡ self.now.members }
        ensures listed { IsListed self.now }
    {
        self.members.as_slice()
    }

    /// Takes all members out.
    pub(crate) fn clear(&mut self)
        ensures { self.new ≡ none_of self.old.room }
    {
        while let Some(number) = self.members.pop() {
            self.marks[number as usize] = false;
        }
    }
}

// Lists of records in lent memory: the tray and its methods.
#![tactic(auto)]

ghost use Rattle.std.specs.Prelude.{◌≡◌, ◌+◌, ◌≤◌, true, [], ◌∷◌, ◌++◌, length, take, drop, replicate, find, is_ok, is_err, if◌then◌else◌, Ok, Err, Some, codes, nat_lt};
ghost use Rattle.std.specs.List.{slice_get};
ghost use Rattle.tray.specs.Finds.{with_key, FirstWith};

use keyed::Keyed;
use std::error::Error;
use std::fmt;
use zero::Zero;

pub mod keyed;
pub mod offset;
pub mod zero;

// Why a tray does not take a record. A caller turns it into an answer of its own, so the case has no number.
#[derive(Clone, Copy, PartialEq, Eq, Debug)]
pub enum Refusal {
    // All of the memory is in use.
    Full,
}

// A refusal is printed as its reason.
impl fmt::Display for Refusal {
    ghost output = { λ _. Some (codes "the tray is full") };

    fn fmt<W: fmt::Write>(&self, f: &mut fmt::Formatter<W>) -> fmt::Result {
        match self {
            Refusal::Full => f.write_str("the tray is full"),
        }
    }
}

impl Error for Refusal {}

// A list of records in memory that was lent. The first `count` records of the memory are the list; the memory beyond
// them is left as it is.
// The count stays beside the memory: that is lent, in a length that the lender chooses, and goes back whole.
#[derive(Drop)]
pub struct Tray<'a, T> {
    memory: &'a mut [T],
    count: usize,
    ghost within: { count ≤ length memory.now },
}

// Each call that changes a tray says that the loan stays: a fact of the type cannot, since it sees one tray, and not the
// tray before.
impl<'a, T: Copy> Tray<'a, T> {
    ghost use Rattle.tray.specs.Trays.{lent, lender, records, beyond, room, answer, last_of, front_of, TakesLast};

    // An empty list; all of the memory is beyond it, as it came.
    pub fn new(memory: &'a mut [T]) -> Tray<'a, T>
        ensures list { records result ≡ [] }
        ensures rest { beyond result ≡ memory.old }
        ensures same { lent result ≡ memory.old }
        ensures loan { lender result ≡ memory.entry.ghost_name }
    {
        Tray::resume(memory, 0)
    }

    // The list of the first `count` records of the memory (all of them, if it is shorter), as an earlier tray left it there.
    // The two stay two, as in `append`.
    pub fn resume(memory: &'a mut [T], count: usize) -> Tray<'a, T>
        ensures list { records result ≡ take count memory.old }
        ensures rest { beyond result ≡ drop count memory.old }
        ensures same { lent result ≡ memory.old }
        ensures loan { lender result ≡ memory.entry.ghost_name }
    {
        let count = count.min(memory.len());
        Tray { memory, count }
    }

    // How many records there are.
    pub fn len(&self) -> usize
        ensures count { result ≡ length (records self.now) }
        ensures within { result ≤ length (lent self.now) }
    {
        self.as_slice().len()
    }

    // How many records the memory has place for.
    pub fn capacity(&self) -> usize
        ensures { result ≡ length (lent self.now) }
    {
        self.memory.len()
    }

    // The records in their order.
    pub fn as_slice(&self) -> &[T]
        ensures { result.now ≡ records self.now }
    {
        &self.memory[..self.count]
    }

    // The record at place i, counted from 0.
    pub fn get(&self, i: usize) -> Option<T>
        ensures { result ≡ slice_get (records self.now) i }
    {
        self.as_slice().get(i).copied()
    }

    // The first record with this key.
    pub fn find(&self, key: u64) -> Option<T>
    where
        T: Keyed,
        ensures value { result ≡ find (with_key T.key key) (records self.now) }
        ensures first { FirstWith (λ x. T.key x ≡ key) (records self.now) result }
    {
        self.as_slice().iter().find(|x| x.key() == key).copied()
    }

    // Puts a record at the end of the list. A full tray refuses it, and stays as it is.
    pub fn push(&mut self, item: T) -> Result<(), Refusal>
        ensures answers { result ≡ answer (room self.old) }
        ensures list { records self.new ≡ (if is_ok result then records self.old ++ item ∷ [] else records self.old) }
        ensures rest { beyond self.new ≡ (if is_ok result then drop 1 (beyond self.old) else beyond self.old) }
        ensures refused { is_err result ≡ true → self.new ≡ self.old }
        ensures loan { lender self.new ≡ lender self.old }
    {
        if self.count >= self.capacity() {
            return Err(Refusal::Full);
        }
        self.memory[self.count] = item;
        self.count += 1;
        Ok(())
    }

    // Takes the last record off the list. The memory stays as it is.
    pub fn pop(&mut self) -> Option<T>
        ensures answers { result ≡ last_of (records self.old) }
        ensures list { records self.new ≡ front_of (records self.old) }
        ensures undoes { TakesLast result (records self.old) (records self.new) }
        ensures same { lent self.new ≡ lent self.old }
        ensures loan { lender self.new ≡ lender self.old }
    {
        let last = self.count.checked_sub(1)?;
        self.count = last;
        Some(self.memory[last])
    }

    // Makes every record beyond the list zero.
    pub fn wipe(&mut self)
    where
        T: Zero,
        ensures list { records self.new ≡ records self.old }
        ensures rest { beyond self.new ≡ replicate (length (beyond self.old)) T.zero }
        ensures loan { lender self.new ≡ lender self.old }
    {
        zero::fill(&mut self.memory[self.count..]);
    }

    // Empties the list, and makes every record of the memory zero.
    pub fn clear(&mut self)
    where
        T: Zero,
        ensures list { records self.new ≡ [] }
        ensures zeros { lent self.new ≡ replicate (length (lent self.old)) T.zero }
        ensures loan { lender self.new ≡ lender self.old }
    {
        self.count = 0;
        self.wipe();
    }

    // Ends the loan: the lender's memory is the list, and then what was beyond it.
    pub fn close(self) -> usize
        ensures count { result ≡ length (records self.entry) }
        ensures lands { self.exit.0.now ≡ records self.entry ++ beyond self.entry }
    {
        self.len()
    }
}

// Puts a record at the end of the list of `count` records in lent memory, and answers how many there are then. The
// lender's memory is the longer list, and then what was beyond it. Memory that is full stays as it is.
// The memory and the count stay two: the caller lends the memory anew at each call, and keeps the count between calls.
pub fn append<T: Copy>(memory: &mut [T], count: usize, item: T) -> Result<usize, Refusal>
    ensures answers { result ≡ (if nat_lt count (length memory.old) then Ok (count + 1) else Err Refusal.Full) }
    ensures after { memory.new ≡ (if is_ok result then take count memory.old ++ item ∷ drop (count + 1) memory.old else memory.old) }
{
    let mut tray = Tray::resume(memory, count);
    tray.push(item)?;
    Ok(tray.close())
}

#[cfg(test)]
mod tests;

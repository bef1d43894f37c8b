// A sink over memory that is lent to it, in cells of any layout.
ghost use Rattle.std.specs.Prelude.{◌≡◌, ◌+◌, ◌<◌, ◌≤◌, ◌++◌, ℕ, List, length};
ghost use Rattle.std.proofs.Math.Seq.{paste};
ghost use Rattle.sink.specs.Memory.{capacity, fresh_view, memory_view, memory_lawful};

use crate::Sink;
use crate::refusal::Refusal;

// The most bytes that a sink takes.
const MOST: usize = 16_777_216;

// How a sink's bytes lie in the cells of its memory.
pub trait Layout {
    type Cell;

    // The bytes of some cells, in order.
    ghost flat: { List Self.Cell → List ℕ };

    // How many bytes some cells have.
    fn size(cells: &[Self::Cell]) -> usize
        ensures { result ≡ length (flat cells.now) };

    // Writes part over the bytes from `at` on, if they are all there; else nothing.
    fn write(cells: &mut [Self::Cell], at: usize, part: &[u8])
        ensures whole { at + length part.now ≤ length (flat cells.old)
            → flat cells.new ≡ paste (flat cells.old) at part.now (length part.now) }
        ensures none { length (flat cells.old) < at + length part.now → flat cells.new ≡ flat cells.old };
}

// Memory whose first `len` bytes are the sink's.
// The count stays beside the cells: they are lent, in a length that the lender chooses, and go back whole.
#[derive(Drop)]
pub struct Memory<'a, L: Layout> {
    cells: &'a mut [L::Cell],
    len: usize,
    ghost within: { len ≤ capacity (L.flat cells.now) },
}

impl<'a, L: Layout> Memory<'a, L> {
    // An empty sink over this memory.
    pub fn new(cells: &'a mut [L::Cell]) -> Memory<'a, L>
        ensures { ⟦<Memory<'a, L> as Sink>⟧.view result
            ≡ fresh_view (L.flat cells.old) cells.entry.ghost_name }
    {
        Memory { cells, len: 0 }
    }

    // Ends the loan, and says how many bytes the sink had: they stand first in the memory, and what was beyond follows.
    pub fn close(self) -> usize
        ensures count { result ≡ length (⟦<Memory<'a, L> as Sink>⟧.view self.entry).bytes }
        ensures lands { let v = ⟦<Memory<'a, L> as Sink>⟧.view self.entry in
            L.flat self.exit.0.now ≡ v.bytes ++ v.beyond }
    {
        self.len()
    }
}

impl<L: Layout> Sink for Memory<'_, L> {
    ghost view = { λ s. memory_view (L.flat s.cells.now) s.len s.cells.ghost_name };

    ghost held = { λ _. 0 };

    ghost memory = { λ s. L.flat s.cells.now };

    ghost lawful = { λ s. memory_lawful (L.flat s.cells.now) s.len s.cells.ghost_name };

    #[tactic(auto, using(crate::proofs::Grown::writes_refused, crate::proofs::Grown::writes_taken, crate::proofs::MemoryPuts::memory_put))]
    fn put(&mut self, part: &[u8]) -> Result<(), Refusal> {
        let n = part.len();
        // With no star the call would go through the loan, `&mut Self`, whose `room` leads back to this impl.
        if n > (*self).room() {
            return Err(Refusal::Full);
        }
        L::write(self.cells, self.len, part);
        self.len += n;
        Ok(())
    }

    fn len(&self) -> usize {
        self.len
    }

    fn room(&self) -> usize {
        L::size(self.cells).min(MOST) - self.len
    }

    fn held(&self) -> usize {
        0
    }

    fn settle(&mut self) {}
}

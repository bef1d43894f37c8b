// Where bytes go: what every sink promises.
#![tactic(auto)]

ghost use Rattle.std.specs.Prelude.{◌≡◌, ℕ, List, length};
ghost use Rattle.sink.specs.Meaning.{View, Lawful, Writes};

use crate::refusal::Refusal;

pub mod lent;
pub mod memory;
pub mod plain;
pub mod refusal;

// A place that takes bytes in order, up to its room.
pub trait Sink {
    // What the sink means: its bytes, its room and the memory beyond.
    ghost view: { Self → View };

    // How many of its bytes, the last ones, it holds back from its memory.
    ghost held: { Self → ℕ };

    // What lies in its memory now.
    ghost memory: { Self → List ℕ };

    ghost lawful: { (s : Self) → Lawful (view s) (held s) (memory s) };

    // Appends part, or refuses it for want of room and leaves all as it was.
    fn put(&mut self, part: &[u8]) -> Result<(), Refusal>
        ensures { Writes view held memory result part.now self.old self.new };

    // How many bytes it has.
    fn len(&self) -> usize
        ensures { result ≡ length (view self.now).bytes };

    // How many bytes it still takes.
    fn room(&self) -> usize
        ensures { result ≡ (view self.now).room };

    // How many of its bytes it holds back.
    fn held(&self) -> usize
        ensures { result ≡ held self.now };

    // Brings all its bytes into its memory, through every layer below.
    fn settle(&mut self)
        ensures same { view self.new ≡ view self.old }
        ensures none_held { held self.new ≡ 0 };
}

// A layer over any sink that gathers short parts into longer ones.
#![tactic(auto)]

ghost use Rattle.std.specs.Prelude.{◌≡◌, ◌+◌, ◌≤◌, ◌++◌, [], length, min, take};
ghost use Rattle.arrayvec.specs.ArrayVec.{array_vec_len};
ghost use Rattle.sink.specs.Meaning.{Writes};
ghost use Rattle.gather.specs.Gathers.{most_waiting, layer_lawful, WaitsIfShort};

use arrayvec::ArrayVec;
use sink::Sink;
use sink::refusal::Refusal;

#[cfg(test)]
mod tests;

// The most bytes that a layer holds back.
const MOST: usize = 64;

// A sink, and its last bytes, which wait: no more of them than a layer may hold back. Of more than there is room for below only
// so many count, so the type asks nothing of S.
#[derive(Drop)]
pub struct Gather<S> {
    below: S,
    waiting: ArrayVec<u8, MOST>,
    ghost few: { array_vec_len waiting ≤ most_waiting },
}

// Of the bytes that are kept the first `waits` stay, and part waits behind them.
fn hold(kept: &mut ArrayVec<u8, MOST>, waits: usize, part: &[u8])
    requires { min waits (array_vec_len kept.old) + length part.now ≤ most_waiting }
    ensures { kept.new.items ≡ take waits kept.old.items ++ part.now }
{
    kept.truncate(waits);
    kept.try_extend_from_slice(part).unwrap();
}

impl<S: Sink> Gather<S> {
    ghost use Rattle.gather.specs.Layers.{layer_view, waiting_in};

    // A layer over a sink, with nothing waiting.
    #[tactic(auto, unfolding(sink::specs::Meaning::grown))]
    pub fn new(below: S) -> Gather<S>
        ensures same { layer_view S.Sink result ≡ S.view below }
        ensures none { waiting_in S.Sink result ≡ 0 }
        ensures sink { result.below ≡ below }
    {
        Gather {
            below,
            waiting: ArrayVec::new(),
        }
    }

    // How many bytes wait in this layer.
    pub fn waiting(&self) -> usize
        ensures value { result ≡ waiting_in S.Sink self.now }
        ensures bound { result ≤ most_waiting }
    {
        self.waiting.len().min(self.below.room())
    }

    // Passes down what waits.
    #[tactic(auto, unfolding(sink::specs::Meaning::grown))]
    fn pass_down(&mut self)
        ensures same { layer_view S.Sink self.new ≡ layer_view S.Sink self.old }
        ensures none { self.new.waiting.items ≡ [] }
    {
        let at = self.waiting();
        self.below.put(&self.waiting[..at]).unwrap();
        // Not by `clear`, which writes a blank over each byte that waited, one by one.
        self.waiting = ArrayVec::new();
    }
}

impl<S: Sink> Sink for Gather<S> {
    ghost use Rattle.gather.specs.Layers.{layer_view, layer_held, waiting_in};

    ghost view = { layer_view S.Sink };

    ghost held = { layer_held S.Sink };

    ghost memory = { λ s. S.memory s.below };

    ghost lawful = { λ s. layer_lawful s.waiting.items (S.lawful s.below) };

    #[tactic(auto, unfolding(sink::specs::Meaning::grown))]
    fn put(&mut self, part: &[u8]) -> Result<(), Refusal>
        ensures writes { Writes (layer_view S.Sink) (layer_held S.Sink) (λ s. S.memory s.below) result part.now self.old self.new }
        ensures gathers { WaitsIfShort result (length part.now) (waiting_in S.Sink self.old) (waiting_in S.Sink self.new) (S.view self.old.below) (S.view self.new.below) }
    {
        let n = part.len();
        // Asked once: in a pile each layer asks the one below.
        let room = self.below.room();
        let waits = self.waiting.len().min(room);
        if n > room - waits {
            return Err(Refusal::Full);
        }
        if n > MOST - waits {
            self.pass_down();
        }
        if n > MOST {
            return self.below.put(part);
        }
        hold(&mut self.waiting, waits, part);
        Ok(())
    }

    #[tactic(auto, unfolding(sink::specs::Meaning::grown))]
    fn len(&self) -> usize {
        self.below.len() + self.waiting()
    }

    #[tactic(auto, unfolding(sink::specs::Meaning::grown))]
    fn room(&self) -> usize {
        self.below.room() - self.waiting()
    }

    fn held(&self) -> usize {
        self.below.held() + self.waiting()
    }

    fn settle(&mut self) {
        self.pass_down();
        self.below.settle();
    }
}

// A script's words kept in any sink, through a pile of two gathering layers.
#![tactic(auto)]

ghost use Rattle.std.specs.Prelude.{◌≡◌, ◌-◌, length};
ghost use Rattle.sink.specs.Calls.{Takes};
ghost use Rattle.sink.specs.Meaning.{answer};
ghost use Rattle.sink.specs.Memory.{capacity, count_after, memory_after};
ghost use Rattle.flash.specs.Words.{flat};
ghost use Rattle.store.specs.Stored.{stored, Told, Stores};

use crate::report::Report;
use gather::Gather;
use lines::{digits, line, number};
use sink::Sink;
use sink::memory::{Layout, Memory};
use sink::refusal::Refusal;

pub mod report;

// How many bytes " words" and its LF have.
const UNIT: usize = 7;

// Puts each word as four bytes, the top bits first, all or none.
#[tactic(auto, using(sink::proofs::Grown::writes_refused, sink::proofs::Grown::took_none, flash::proofs::Packs::length_flat))]
pub fn put_words<S: Sink>(sink: &mut S, words: &[u32]) -> Result<(), Refusal>
    ensures { Takes S.Sink result (flat words.now) sink.old sink.new }
{
    if words.len() > (*sink).room() / 4 {
        return Err(Refusal::Full);
    }
    for word in words {
        sink.put(&word.to_be_bytes())?;
    }
    Ok(())
}

// Puts how many words there are as a line of text, and then the words, all or none.
#[tactic(auto, using(sink::proofs::Grown::writes_refused, crate::proofs::Flats::length_stored))]
pub fn store<S: Sink>(sink: &mut S, words: &[u32]) -> Result<(), Refusal>
    ensures { Takes S.Sink result (stored words.now) sink.old sink.new }
{
    let count = words.len() as u64;
    let head = digits(count) + UNIT;
    let room = (*sink).room();
    if room < head || (room - head) / 4 < words.len() {
        return Err(Refusal::Full);
    }
    number(sink, count)?;
    line(sink, b" words")?;
    put_words(sink, words)
}

// Stores the words through a layer over any sink that is lent, and settles it.
pub fn store_gathered<S: Sink>(sink: &mut S, words: &[u32]) -> Report
    ensures { Stores S.Sink result words.now sink.old sink.new }
{
    let mut layer = Gather::new(sink);
    let answer = store(&mut layer, words);
    let waited = layer.held();
    layer.settle();
    Report {
        answer,
        waited,
        waits: layer.held(),
        bytes: layer.len(),
        room: layer.room(),
    }
}

// Stores the words through two layers, one upon the other, over any sink that is lent, and settles both.
pub fn store_piled<S: Sink>(sink: &mut S, words: &[u32]) -> Report
    ensures { Stores S.Sink result words.now sink.old sink.new }
{
    let mut lower = Gather::new(sink);
    store_gathered(&mut lower, words)
}

// Stores the words in memory of any layout: they stand first in it, and what was beyond is as it came.
pub fn store_in<L: Layout>(memory: &mut [L::Cell], words: &[u32]) -> Report
    ensures answers { result.answer ≡ answer (length (stored words.now)) (capacity (L.flat memory.old)) }
    ensures told { let count = count_after result.answer (stored words.now) in
        Told result count (capacity (L.flat memory.old) - count) }
    ensures lands { L.flat memory.new ≡ memory_after result.answer (stored words.now) (L.flat memory.old) }
{
    let mut sink = Memory::<L>::new(memory);
    store_piled(&mut sink, words)
}

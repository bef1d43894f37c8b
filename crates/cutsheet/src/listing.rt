// A script listed word by word, with counts by kind.
use page::{Kind, decode};
use script::load::{count_words, read_script};
use std::alloc::Global;
use std::collections::BTreeMap;

// The words of a script's text.
pub(crate) fn words_of(heap: Global, text: &[u8]) -> anyhow::Result<Vec<u32>> {
    let mut words = vec![in heap; 0u32; count_words(text)?]?;
    read_script(text, &mut words)?;
    Ok(words)
}

// Prints a line for each word, and then how many there are of each kind. No bound on the counts is known here, so they saturate.
pub(crate) fn print(rt: &HostRuntime, words: &[u32]) -> anyhow::Result<()> {
    let mut counts: BTreeMap<Kind, usize> = BTreeMap::new(rt.alloc());
    // All kinds at once, so that memory runs out before the first line or not in the listing.
    for kind in Kind::ALL {
        counts.insert(kind, 0)?;
    }
    let mut refused = 0usize;
    for (place, bits) in words.iter().enumerate() {
        match decode(*bits) {
            Ok(word) => {
                println!(rt; "word {place} 0x{bits:08X} {word}")?;
                if let Some(count) = counts.get_mut(&word.kind()) {
                    *count = count.saturating_add(1);
                }
            }
            Err(refusal) => {
                let number = u8::from(refusal);
                println!(rt; "word {place} 0x{bits:08X} refused {number} ({refusal})")?;
                refused = refused.saturating_add(1);
            }
        }
    }
    let total = words.len();
    println!(rt; "{total} words, {refused} of them refused")?;
    for (kind, count) in counts.iter() {
        println!(rt; "  {kind} {count}")?;
    }
    Ok(())
}

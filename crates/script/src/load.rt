// A whole script, counted or read into lent memory.
ghost use Rattle.std.specs.Prelude.{◌≡◌, length, Some};
ghost use Rattle.script.specs.Readings.{reading_of};
ghost use Rattle.script.specs.Answers.{counted, within, memory_by, overlaid};
ghost use Rattle.script.specs.Laws.{ReadingIsLawful};
ghost use Rattle.script.specs.Texts.{script_fault_text};
ghost use Rattle.script.specs.declared.load.ScriptFault.TheVariants.{Unreadable};

use crate::scan::{Fault, Reader};
use std::error::Error;
use std::fmt;

// Why a script is refused: a token that cannot be read, or more words, so many, than the memory takes.
#[derive(Clone, Copy, PartialEq, Eq, Debug)]
pub enum ScriptFault {
    Unreadable(Fault),
    TooMany(usize),
}

// Of a token that cannot be read, its fault is printed.
impl fmt::Display for ScriptFault {
    ghost output = { λ fault. Some (script_fault_text fault) };

    fn fmt<W: fmt::Write>(&self, f: &mut fmt::Formatter<W>) -> fmt::Result {
        match self {
            ScriptFault::Unreadable(why) => write!(f, "{why}"),
            ScriptFault::TooMany(count) => write!(
                f,
                "{count} words are more than the memory takes"
            ),
        }
    }
}

impl Error for ScriptFault {}

// A token that cannot be read makes the script unreadable.
impl From<Fault> for ScriptFault {
    ghost from_gives = { λ fault e. e ≡ Unreadable fault };

    fn from(fault: Fault) -> ScriptFault {
        ScriptFault::Unreadable(fault)
    }
}

// How many words a script has, or the fault of the first that cannot be read.
// Inlined, so that where a caller lets the fault go its place is not looked for.
#[inline]
pub fn count_words(text: &[u8]) -> Result<usize, Fault>
    ensures { result ≡ counted text.now (reading_of text.now) }
{
    let mut reader = Reader::new(text);
    let mut count: usize = 0;
    // No `for` or `count`: a reader may fail, and is no iterator.
    while reader.next()?.is_some() {
        count += 1;
    }
    Ok(count)
}

// Stores the words of a script at the front of the memory, as far as both go.
fn fill(text: &[u8], words: &mut [u32])
    ensures { words.new ≡ overlaid (reading_of text.now).words words.old }
{
    let mut reader = Reader::new(text);
    for slot in words.iter_mut() {
        let Ok(Some(word)) = reader.next() else {
            return;
        };
        *slot = word;
    }
}

// Reads a whole script into the memory, and answers how many words it has. A refusal changes nothing.
#[tactic(auto, using(crate::proofs::Lawful::reading_is_lawful))]
pub fn read_script(text: &[u8], words: &mut [u32]) -> Result<usize, ScriptFault>
    ensures answer { result ≡ within (length words.old) (counted text.now (reading_of text.now)) }
    ensures memory { words.new ≡ memory_by result (reading_of text.now).words words.old }
    ensures laws { ReadingIsLawful }
{
    let count = count_words(text)?;
    if count > words.len() {
        return Err(ScriptFault::TooMany(count));
    }
    fill(text, words);
    Ok(count)
}

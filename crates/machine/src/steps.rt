// The step that a word asks of the machine.
ghost use Rattle.machine.specs.Steps.{step_of};
ghost use Rattle.std.specs.Prelude.{◌≡◌};

use crate::types::Step;
use page::Word;

// The step of a word; an element word is none.
// Not `TryFrom`: an element word is no error, so there is none to name.
pub fn step_of(word: Word) -> Option<Step>
    ensures { result ≡ step_of word }
{
    let step = match word {
        Word::Page { .. } => Step::Page,
        Word::Close => Step::Close,
        Word::Element { .. } => return None,
        Word::Mark { element } => Step::Mark {
            owned: element != 0,
        },
        Word::Save => Step::Save,
        Word::Origin { a, b } => Step::Origin { a, b },
        Word::Turn { quarters } => Step::Turn { quarters },
        Word::Pen { a, b } => Step::Pen { a, b },
        Word::Line { a, b } => Step::Line { a, b },
        Word::Paint { operator } => Step::Paint { operator },
        Word::Text { size } => Step::Text { size },
        Word::Place { a, b } => Step::Place { a, b },
        Word::Show { codes } => Step::Show { codes },
    };
    Some(step)
}

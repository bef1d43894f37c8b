// The subject itself: what a script draws, what its sheet is, and what a run of words does. Its calls carry theorems.
#![tactic(auto)]

ghost use Rattle.sheet.specs.Laws.{RefusedWordsDrawNothing, RefusedWordsLeaveTheSheet, RunsDrawWhatIsDue, EveryWordIsObeyedOrRefused};
ghost use Rattle.sheet.specs.Conditions.{RefusedByTheFirstCondition, ObeyedWithoutCondition};
ghost use Rattle.sheet.specs.Damaged.{LabelFileReadsAsSaid};
ghost use Rattle.sheet.specs.Worked.{WorkedSheetsAsSaid};

pub mod faults;
pub mod instructions;
pub mod items;
pub mod refusals;

// A refused word changes nothing of what a script is due to read as.
#[tactic(auto, using(crate::proofs::DueLaws::refused_draw_nothing))]
pub fn refused_words_draw_nothing()
    ensures { RefusedWordsDrawNothing }
{}

// A refused word leaves the sheet as it was.
#[tactic(auto, using(crate::proofs::DueLaws::refused_leave_the_sheet))]
pub fn refused_words_leave_the_sheet()
    ensures { RefusedWordsLeaveTheSheet }
{}

// A run draws what its words are due to draw.
#[tactic(auto, using(crate::proofs::DueLaws::runs_draw_what_is_due))]
pub fn runs_draw_what_is_due()
    ensures { RunsDrawWhatIsDue }
{}

// Each word up to the length told is obeyed or refused, and each refused one is noted.
#[tactic(auto, using(crate::proofs::DueLaws::obeyed_or_refused))]
pub fn every_word_is_obeyed_or_refused()
    ensures { EveryWordIsObeyedOrRefused }
{}

// The worked sheets have the sizes, offsets, places and refusals that were computed by hand.
#[tactic(auto, using(crate::proofs::Worked::worked_sheets))]
pub fn worked_sheets_are_as_said()
    ensures { WorkedSheetsAsSaid }
{}

// The file of a label sheet reads as due, and its damaged copies have the faults that were computed by hand.
#[tactic(auto, using(crate::proofs::Damaged::label_file_reads))]
pub fn label_file_reads_as_said()
    ensures { LabelFileReadsAsSaid }
{}

// A word is refused by a number exactly if that number's condition holds and none of a lower number does.
// This call and the next have an answer: `using(..)` with their lemmas did not prove them.
pub fn words_are_refused_by_the_first_condition()
    ensures { RefusedByTheFirstCondition }
{}

// A word is obeyed exactly if no condition holds.
pub fn words_without_condition_are_obeyed()
    ensures { ObeyedWithoutCondition }
{}

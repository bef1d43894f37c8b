// What a PDF file's numbers, tokens, values and blocks are, and the laws of them: what is written is read back.
// The definitions stand in specs/; each call here carries a theorem of them, and names the lemma that proves it.
#![tactic(auto)]

ghost use Rattle.pdf.specs.Laws.{RunsAreLongest, NumbersReadBack, PaddedNumbersReadBack};
ghost use Rattle.pdf.specs.Laws.{TokensReadBack, GapsDoNotMatter, ValuesReadBack};
ghost use Rattle.pdf.specs.Laws.{ReadingTakesBytes, ReadingIsStrict, BlocksStandAtTheirOffsets};
ghost use Rattle.pdf.specs.Samples.{SamplesAsSaid};

// A run is the longest front of bytes of one kind.
#[tactic(auto, using(crate::proofs::Runs::runs_are_longest))]
pub fn runs_are_longest()
    ensures { RunsAreLongest }
{}

// Integers that are written are read back.
#[tactic(auto, using(crate::proofs::Numbers::numbers_read_back))]
pub fn numbers_read_back()
    ensures { NumbersReadBack }
{}

// Numbers padded to a width have that width, and are read back.
#[tactic(auto, using(crate::proofs::Numbers::padded_numbers_read_back))]
pub fn padded_numbers_read_back()
    ensures { PaddedNumbersReadBack }
{}

// Tokens that are written are read back.
#[tactic(auto, using(crate::proofs::Tokens::tokens_read_back))]
pub fn tokens_read_back()
    ensures { TokensReadBack }
{}

// White space and comments in front of tokens and values do not matter.
#[tactic(auto, using(crate::proofs::Tokens::gaps_do_not_matter))]
pub fn gaps_do_not_matter()
    ensures { GapsDoNotMatter }
{}

// Values that are written are read back.
#[tactic(auto, using(crate::proofs::Values::values_read_back))]
pub fn values_read_back()
    ensures { ValuesReadBack }
{}

// Each token and each value that is read takes at least one byte, so that no reading runs out of steps.
#[tactic(auto, using(crate::proofs::Taking::reading_takes_bytes))]
pub fn reading_takes_bytes()
    ensures { ReadingTakesBytes }
{}

// What is read has a written form, and nests no deeper than was asked for.
#[tactic(auto, using(crate::proofs::StrictValues::reading_is_strict))]
pub fn reading_is_strict()
    ensures { ReadingIsStrict }
{}

// Blocks of bytes one after another stand at their offsets.
#[tactic(auto, using(crate::proofs::Blocks::blocks_stand_at_their_offsets))]
pub fn blocks_stand_at_their_offsets()
    ensures { BlocksStandAtTheirOffsets }
{}

// Samples of numbers, tokens, values and lookups are as they say.
#[tactic(auto, using(crate::proofs::Samples::samples_as_said))]
pub fn samples_are_as_said()
    ensures { SamplesAsSaid }
{}

// Whether a step keeps the machine's limits and ranges.
ghost use Rattle.machine.specs.Refusals.{allowed};
ghost use Rattle.machine.specs.State.{inside_range, most_drawn, state_of, within_limits};
ghost use Rattle.machine.specs.declared.types.Open.{Open};
ghost use Rattle.machine.specs.declared.refusals.Refusal.TheVariants.{Limit};
ghost use Rattle.std.specs.Prelude.{◌≡◌, ◌+◌, List, nat_le, nat_lt};

use super::{MOST_DRAWN, MOST_MARKS, MOST_PAGES, Machine};
use crate::refusals::Refusal;
use crate::stacks::Stack;
use crate::types::Step;

// One more than so many, if that keeps the limit.
pub(super) fn one_more(count: u32, most: u32) -> Result<u32, Refusal>
    ensures { result ≡ allowed (nat_lt count most) Limit (count + 1) }
{
    if count < most {
        Ok(count + 1)
    } else {
        Err(Refusal::Limit)
    }
}

impl Machine {
    // Whether a step keeps the limits, with so many saves open at most.
    pub fn within_limits(&self, most: usize, stack: &Stack<'_>, step: Step) -> bool
        ensures { result ≡ within_limits most (state_of stack.now self.now.numbers) step }
    {
        let counts = self.numbers.counts;
        match step {
            Step::Page => counts.pages < MOST_PAGES,
            Step::Mark { owned } => !owned || counts.marks < MOST_MARKS,
            Step::Save => stack.saves() < most,
            Step::Pen { .. } | Step::Line { .. } => self.has_room(1),
            Step::Show { codes } => self.has_room(codes.count()),
            _ => true,
        }
    }

    // Whether so many glyphs or points more keep the limit.
    fn has_room(&self, more: u32) -> bool
        ensures { result ≡ nat_le (self.now.numbers.counts.drawn + more) most_drawn }
    {
        more <= MOST_DRAWN - self.numbers.counts.drawn
    }

    // Whether a step leaves the offset and the start of the line of text within their range.
    pub fn inside_range(&self, step: Step) -> bool
        ensures { (stack : List Open) → result ≡ inside_range (state_of stack self.now.numbers) step }
    {
        match step {
            Step::Origin { a, b } => self.numbers.axes.shifted(a, b).is_ok(),
            Step::Place { a, b } => self.numbers.line.placed(a, b).is_ok(),
            _ => true,
        }
    }
}

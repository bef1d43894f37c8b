// A sink that is lent: what is put into the loan is put into the sink.
ghost use Rattle.sink.specs.Meaning.{lent, lent_lawful};

use crate::Sink;
use crate::refusal::Refusal;

impl<S: Sink> Sink for &mut S {
    ghost view = { λ s. lent s.ghost_name (S.view s.now) };

    ghost held = { λ s. S.held s.now };

    ghost memory = { λ s. S.memory s.now };

    ghost lawful = { λ s. lent_lawful s.ghost_name (S.lawful s.now) };

    fn put(&mut self, part: &[u8]) -> Result<(), Refusal> {
        (**self).put(part)
    }

    fn len(&self) -> usize {
        (**self).len()
    }

    fn room(&self) -> usize {
        (**self).room()
    }

    fn held(&self) -> usize {
        (**self).held()
    }

    fn settle(&mut self) {
        (**self).settle();
    }
}

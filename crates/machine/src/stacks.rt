// What is open, and which step is taken where.
ghost use Rattle.machine.specs.Stack.{Tells, is_mark, is_page, is_path, is_text, level_in, mark_in, path_in, saves_in, some_open, taken, text_in};
ghost use Rattle.machine.specs.declared.types.Open.{Open};
ghost use Rattle.std.specs.Prelude.{◌≡◌, Bool, true, ◌&&◌, ◌||◌, reverse};

use crate::types::{Open, Step};
use std::marker::Model;

impl Open {
    // Whether it is a page.
    fn is_page(&self) -> bool
        ensures { result ≡ is_page self.now }
    {
        matches!(self, Open::Page)
    }

    // Whether it is a mark.
    fn is_mark(&self) -> bool
        ensures { result ≡ is_mark self.now }
    {
        matches!(self, Open::Mark { .. })
    }

    // Whether it is text.
    fn is_text(&self) -> bool
        ensures { result ≡ is_text self.now }
    {
        matches!(self, Open::Text)
    }

    // Whether it is a path.
    fn is_path(&self) -> bool
        ensures { result ≡ is_path self.now }
    {
        matches!(self, Open::Path)
    }
}

// What is open. The things lie in lent memory, the topmost last. It is not `Copy` and has no equality: a model with a
// lifetime allows neither.
#[derive(Debug, Drop)]
pub struct Stack<'a> {
    things: &'a [Open],
}

// A contract sees a stack as the list of its things, the topmost first.
impl<'a> Model for Stack<'a> {
    ghost use Rattle.std.specs.Prelude.{List, reverse};
    ghost use Rattle.machine.specs.declared.types.Open.{Open};

    ghost Value = { List Open };

    ghost view = { λ stack. reverse stack.things.now };
}

impl<'a> Stack<'a> {
    // The stack of these things, the topmost last.
    pub fn new(things: &'a [Open]) -> Stack<'a>
        ensures { result ≡ reverse things.now }
    {
        Stack { things }
    }

    // Whether a step is taken where these things are open.
    pub fn is_taken(&self, step: Step) -> bool
        ensures { result ≡ taken self.now step }
    {
        match step {
            Step::Page => self.things.is_empty(),
            Step::Close => self.can_close(),
            Step::Mark { .. } => self.can_mark(),
            Step::Save | Step::Origin { .. } | Step::Turn { .. } | Step::Text { .. } => {
                self.is_level()
            }
            Step::Pen { .. } => self.can_pen(),
            Step::Line { .. } | Step::Paint { .. } => self.has(Open::is_path),
            Step::Place { .. } => self.has(Open::is_text),
            Step::Show { .. } => self.can_show(),
        }
    }

    // How many saves are open.
    pub(crate) fn saves(&self) -> usize
        ensures { result ≡ saves_in self.now }
    {
        self.things
            .iter()
            .map(|thing| usize::from(matches!(thing, Open::Save { .. })))
            .sum()
    }

    // Whether one of the things passes a test.
    fn has<F: Fn(&Open) -> bool>(&self, test: F) -> bool
        requires { F.IsAlwaysCallable test }
        ensures { (passes : Open → Bool) → Tells F.Fn test passes → result ≡ some_open passes self.now }
    {
        self.things.iter().any(test)
    }

    // Whether a page is open, and neither text nor a path.
    fn is_level(&self) -> bool
        ensures { result ≡ level_in self.now }
    {
        self.has(Open::is_page) && !self.has(Open::is_text) && !self.has(Open::is_path)
    }

    // Whether the topmost thing can be closed.
    fn can_close(&self) -> bool
        ensures { result ≡ taken self.now Step.Close }
    {
        self.has(Open::is_page) && !self.has(Open::is_path)
    }

    // Whether a mark can be opened.
    fn can_mark(&self) -> bool
        ensures { result ≡ taken self.now (Step.Mark true) }
    {
        self.can_close() && !self.has(Open::is_mark)
    }

    // Whether a point can be set from which lines go on.
    fn can_pen(&self) -> bool
        ensures { result ≡ (mark_in self.now && (level_in self.now || path_in self.now)) }
    {
        self.has(Open::is_mark) && (self.is_level() || self.has(Open::is_path))
    }

    // Whether codes can be shown.
    fn can_show(&self) -> bool
        ensures { result ≡ (text_in self.now && mark_in self.now) }
    {
        self.has(Open::is_text) && self.has(Open::is_mark)
    }
}

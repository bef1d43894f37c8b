// What is told of a script that was to be stored.
use sink::refusal::Refusal;

#[derive(Clone, Copy, PartialEq, Eq, Debug)]
pub struct Report {
    // Whether the sink took it.
    pub answer: Result<(), Refusal>,
    // How many bytes were held back before all was settled, and after.
    pub waited: usize,
    pub waits: usize,
    // How many bytes the sink then has, and its room.
    pub bytes: usize,
    pub room: usize,
}

// One line of a script as a command.
use event::{Event, Level};

// A command of a script: to feed an event, or to collect at a level.
#[derive(Clone, Copy, Debug, PartialEq, Eq)]
pub enum Command {
    Feed(Event),
    Collect(Level),
}

// What a level sees of one event.
ghost use Rattle.std.specs.Prelude.{Some};
ghost use Rattle.report.specs.Reports.{seen_line};

use event::Event;
use std::fmt;

// What a level sees of an event, and whether that is the whole event: two facts, both of which are
// printed, and no flag that says whether there is an event.
#[derive(Clone, Copy)]
pub(crate) struct SeenEvent {
    pub(crate) event: Event,
    pub(crate) whole: bool,
}

impl fmt::Display for SeenEvent {
    ghost output = { λ s. Some (seen_line s.whole s.event) };

    fn fmt<W: fmt::Write>(&self, f: &mut fmt::Formatter<W>) -> fmt::Result {
        let Event { channel, value } = self.event;
        let mark = if self.whole { "" } else { " (cut)" };
        writeln!(f, "  channel {channel}: {value}{mark}")
    }
}

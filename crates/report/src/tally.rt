// How much a level sees of some events, in numbers.
ghost use Rattle.std.specs.Prelude.{◌≡◌, ◌+◌, ◌<◌, ◌^◌, if◌then◌else◌};
ghost use Rattle.report.specs.Seen.{is_whole, is_cut, is_absent};

use crate::seen::SeenEvent;

// How many of some events a level sees whole, cut, and not at all.
#[derive(Clone, Copy)]
pub(crate) struct Tally {
    pub(crate) whole: usize,
    pub(crate) cut: usize,
    pub(crate) absent: usize,
}

impl Tally {
    // The numbers of no events.
    pub(crate) fn new() -> Tally
        ensures { (result.whole ≡ 0) × (result.cut ≡ 0) × (result.absent ≡ 0) }
    {
        Tally {
            whole: 0,
            cut: 0,
            absent: 0,
        }
    }

    // The numbers with one more event, of which this is seen.
    pub(crate) fn with(self, seen: Option<SeenEvent>) -> Tally
        requires { self.whole + self.cut + self.absent + 1 < 2 ^ 64 }
        ensures whole { result.whole ≡ self.whole + (if is_whole seen then 1 else 0) }
        ensures cut { result.cut ≡ self.cut + (if is_cut seen then 1 else 0) }
        ensures absent { result.absent ≡ self.absent + (if is_absent seen then 1 else 0) }
    {
        match seen {
            Some(seen) if seen.whole => Tally {
                whole: self.whole + 1,
                ..self
            },
            Some(_) => Tally {
                cut: self.cut + 1,
                ..self
            },
            None => Tally {
                absent: self.absent + 1,
                ..self
            },
        }
    }
}

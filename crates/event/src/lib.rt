// The types that every layer of the host uses: events, outputs, levels and refusals.
#![tactic(auto)]

ghost use Rattle.std.specs.Prelude.{◌≡◌, Some, decimal};
ghost use Rattle.event.specs.Refusals.{refusal_number, DistinctNumbers};

use std::error::Error;
use std::fmt;

mod memory;

// A level: a security level by its number. A plan has 1 to 8 of them, numbered from 0. The numbers
// say nothing of which level is below which: only the plan's order does.
pub type Level = usize;

// An event: a value that arrives on an input channel.
#[derive(Clone, Copy, Debug, PartialEq, Eq)]
pub struct Event {
    pub channel: u16,
    pub value: u16,
}

// An output: a value that a lesson sends on an output channel. It has a type of its own, though of the
// same shape: one type for both would let an event go where an output belongs.
#[derive(Clone, Copy, Debug, PartialEq, Eq)]
pub struct Output {
    pub channel: u16,
    pub value: u16,
}

// Why a call was refused: each case is named by what is wrong, and has the number under which docs/
// lists it.
#[derive(Clone, Copy, Debug, PartialEq, Eq)]
pub enum Refusal {
    // a plan file of fewer than two bytes
    PlanTooShort = 1,
    // fewer input channels than levels
    TooFewInputs = 2,
    // a plan file of another length than its first two bytes say
    WrongPlanLength = 3,
    // a spare or padding bit that is not zero
    SpareBitSet = 4,
    // a table of levels that is no partial order
    NoPartialOrder = 5,
    // a channel's level that the plan does not have
    LevelTooHigh = 6,
    // a cut with a number that its kind does not allow
    UnlawfulCut = 7,
    // a script line that is no command
    UnreadableLine = 15,
    // a script of more than 65,536 bytes
    ScriptTooLong = 16,
    // not enough memory for the answer
    OutOfMemory = 99,
}

impl Refusal {
    // The number of the refusal, which a program prints.
    #[tactic(auto, using(crate::proofs::Numbers::distinct_numbers))]
    pub fn number(self) -> u16
        ensures is { result ≡ refusal_number self }
        ensures distinct { DistinctNumbers }
    {
        self as u16
    }
}

impl fmt::Display for Refusal {
    ghost output = { λ r. Some (decimal (refusal_number r)) };

    fn fmt<W: fmt::Write>(&self, f: &mut fmt::Formatter<W>) -> fmt::Result {
        let number = self.number();
        write!(f, "{number}")
    }
}

impl Error for Refusal {}

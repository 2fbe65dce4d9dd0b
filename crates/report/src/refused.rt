// The lines that say what was refused.
ghost use Rattle.std.specs.Prelude.{Some};
ghost use Rattle.event.specs.Refusals.{refusal_number};
ghost use Rattle.report.specs.Reports.{refusal_line};
ghost use Rattle.report.specs.Runs.{refused_lines};

use event::Refusal;
use script::command::Command;
use std::fmt;

// A refusal, printed as a line.
#[derive(Clone, Copy)]
pub(crate) struct RefusalLine(pub(crate) Refusal);

impl fmt::Display for RefusalLine {
    ghost output = { λ r. Some (refusal_line (refusal_number r.0)) };

    fn fmt<W: fmt::Write>(&self, f: &mut fmt::Formatter<W>) -> fmt::Result {
        writeln!(f, "! {}", self.0)
    }
}

// Some answers, printed as a line for each refusal among them.
#[derive(Clone, Copy)]
pub(crate) struct RefusedLines<'a>(pub(crate) &'a [Result<Command, Refusal>]);

impl<'a> fmt::Display for RefusedLines<'a> {
    ghost output = { λ r. Some (refused_lines r.0.now) };

    fn fmt<W: fmt::Write>(&self, f: &mut fmt::Formatter<W>) -> fmt::Result {
        for answer in self.0 {
            if let Err(refusal) = answer {
                write!(f, "{}", RefusalLine(*refusal))?;
            }
        }
        Ok(())
    }
}

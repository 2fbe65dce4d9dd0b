// The lines of a script.
ghost use Rattle.std.specs.Prelude.{IfOk, MatchResult};
ghost use Rattle.script.specs.Scripts.{ScriptReads, ScriptRead, ScriptRefused, OneReading};

use crate::command::Command;
use crate::line::read_line;
use event::Refusal;
use std::alloc::{AllocError, Global};

// No script has more bytes.
const MOST_BYTES: usize = 65_536;

// The answers to the lines of a script of any length.
#[tactic(auto, using(crate::proofs::Pieces::answering))]
fn read_lines(heap: Global, script: &[u8]) -> Result<Vec<Result<Command, Refusal>>, AllocError>
    ensures { IfOk result (λ v. ScriptReads script.now v.items) }
{
    let mut answers = Vec::new(heap);
    for line in script.split(|byte| *byte == b'\n') {
        if !line.is_empty() {
            answers.push(read_line(line))?;
        }
    }
    Ok(answers)
}

// The answers to the lines of a script, in their order; an empty line has none.
pub fn read_script(heap: Global, script: &[u8]) -> Result<Vec<Result<Command, Refusal>>, Refusal>
    ensures reads { MatchResult result (λ v. ScriptRead script.now v.items) (λ e. ScriptRefused script.now e) }
    ensures one { OneReading }
{
    if script.len() > MOST_BYTES {
        return Err(Refusal::ScriptTooLong);
    }
    Ok(read_lines(heap, script)?)
}

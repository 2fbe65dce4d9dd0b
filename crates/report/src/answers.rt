// What the answers to the lines of a script hold.
ghost use Rattle.std.specs.Prelude.{◌≡◌, IfOk};
ghost use Rattle.report.specs.Runs.{events_of};

use event::{Event, Refusal};
use script::command::Command;
use std::alloc::{AllocError, Global};

// The events of the feeds among some answers, in order.
pub(crate) fn events_of(
    heap: Global,
    answers: &[Result<Command, Refusal>],
) -> Result<Vec<Event>, AllocError>
    ensures { IfOk result (λ v. v.items ≡ events_of answers.now) }
{
    let mut events = Vec::new(heap);
    for answer in answers {
        if let Ok(Command::Feed(event)) = answer {
            events.push(*event)?;
        }
    }
    Ok(events)
}

// A line of a script as the command that it writes out.
ghost use Rattle.script.specs.Commands.{Reads, LineReads, OneCommand};
ghost use Rattle.script.specs.Readings.{IsReading};
ghost use Rattle.script.specs.Fields.{EventFields, LastNumber};

use crate::command::Command;
use crate::cursor::Cursor;
use event::{Event, Level, Refusal};

// The event that a line writes out after its letter; nothing where it goes on otherwise.
fn event_at(cursor: &Cursor) -> Option<Event>
    ensures { IsReading (EventFields cursor.now) result }
{
    let (channel, rest) = cursor.spaced_number()?;
    let value = rest.last_number()?;
    Some(Event { channel, value })
}

// The level that a line writes out after its letter; nothing where it goes on otherwise.
fn level_at(cursor: &Cursor) -> Option<Level>
    ensures { IsReading (LastNumber cursor.now) result }
{
    cursor.last_number().map(Level::from)
}

// The command that a line writes out; nothing where it writes none out.
fn command_of(line: &[u8]) -> Option<Command>
    ensures { IsReading (Reads line.now) result }
{
    let (letter, rest) = Cursor::start(line).letter()?;
    // The letters stand as character literals: a rule of the project asks for it.
    match letter {
        'f' => event_at(&rest).map(Command::Feed),
        'c' => level_at(&rest).map(Command::Collect),
        _ => None,
    }
}

// The command that a line is, or the refusal.
pub fn read_line(line: &[u8]) -> Result<Command, Refusal>
    ensures reads { LineReads line.now result }
    ensures one { OneCommand }
{
    command_of(line).ok_or(Refusal::UnreadableLine)
}

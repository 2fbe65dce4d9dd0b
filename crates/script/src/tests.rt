// Lines and a script, with what they read as.
use crate::command::Command;
use crate::line::read_line;
use crate::lines::read_script;
use event::{Event, Refusal};
use std::test::Fail;

// Each breaks one rule of a line.
const UNREADABLE: [&[u8]; 13] = [
    b"f 3 65536",
    b"f 03 1",
    b"f 3  1",
    b" f 3 1",
    b"f 3 1 ",
    b"f 3",
    b"x 1",
    b"c",
    b"c -1",
    b"F 1 2",
    b"f 1 2\r",
    b"f\t1 2",
    b"c 1 2",
];

fn feed(channel: u16, value: u16) -> Result<Command, Refusal> {
    Ok(Command::Feed(Event { channel, value }))
}

#[test]
fn lines_read(rt: HostRuntime) {
    assert_eq!(rt; read_line(b"f 3 65535"), feed(3, 65_535));
    assert_eq!(rt; read_line(b"c 9"), Ok(Command::Collect(9)));
    assert_eq!(rt; read_line(b"c 0"), Ok(Command::Collect(0)));
    for line in UNREADABLE {
        assert_eq!(rt; read_line(line), Err(Refusal::UnreadableLine));
    }
}

#[test]
fn script_reads(rt: HostRuntime) -> Result<(), Fail> {
    let answers = read_script(rt.alloc(), b"f 0 1\n\n\nx\nc 2")?;
    assert!(rt; answers.len() == 3);
    assert_eq!(rt; answers[0], feed(0, 1));
    assert_eq!(rt; answers[1], Err(Refusal::UnreadableLine));
    assert_eq!(rt; answers[2], Ok(Command::Collect(2)));
    Ok(())
}

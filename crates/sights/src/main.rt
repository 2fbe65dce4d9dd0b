// Prints what each level sees of the events of a script, which comes on standard input, under the
// plan in the file plan.bin.
#![tactic(auto)]

use files::{file_bytes, input_bytes};
use report::sights::sights_report;
use std::io;
use std::io::ErrorKind;

fn main(rt: HostRuntime) -> io::Result<()> {
    let plan_file = file_bytes(&rt, "plan.bin")?;
    let script = input_bytes(&rt)?;
    let text = sights_report(rt.alloc(), &plan_file, &script).map_err(|_| ErrorKind::OutOfMemory)?;
    rt.print(&text)
}

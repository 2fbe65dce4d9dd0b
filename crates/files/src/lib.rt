// What the programs read: files in the folder where they run, and standard input.
#![tactic(auto)]

ghost use Rattle.std.specs.Prelude.{◌≡◌, [], Err, MatchResult, ◌≢◌};
ghost use Rattle.std.specs.declared.io.ErrorKind.TheVariants.{NotFound};

use std::alloc::Global;
use std::io::{ErrorKind, Read};
use std::{fs, io};

#[cfg(test)]
mod tests;

// The bytes of a file; a missing one counts as empty.
pub fn file_bytes(rt: &HostRuntime, path: &str) -> io::Result<Vec<u8>> {
    fs::read(rt, path).or_else(|error| unread(rt.alloc(), error.kind(), error))
}

// What stands for a file that was not read: no bytes where it is missing, and else why it was not read. The
// kind comes beside the error, since no clause can speak of what `kind()` answers.
fn unread(heap: Global, kind: ErrorKind, error: io::Error) -> io::Result<Vec<u8>>
    ensures missing { kind ≡ NotFound → MatchResult result (λ bytes. bytes.items ≡ []) (λ _. ⊥) }
    ensures failed { (kind ≢ NotFound) → result ≡ Err error }
{
    match kind {
        ErrorKind::NotFound => Ok(Vec::new(heap)),
        _ => Err(error),
    }
}

// The bytes on standard input, up to its end.
pub fn input_bytes(rt: &HostRuntime) -> io::Result<Vec<u8>> {
    let mut bytes = Vec::new(rt.alloc());
    rt.stdin().read_to_end(&mut bytes)?;
    Ok(bytes)
}

// Standard input and output, whatever signals and short writes there are. The contracts promise that the calls are safe and end.
#![tactic(auto)]

ghost use Rattle.std.specs.Io.{ReadsAtMost};

use std::io;
use std::io::{Error, ErrorKind, Read, Write};

// One read. One that a signal interrupts is made again; the count of turns outlasts any machine.
pub fn read_some<R: Read>(input: &mut R, buf: &mut [u8]) -> io::Result<usize>
    ensures { ReadsAtMost result buf.new }
{
    for _ in 0..u64::MAX {
        match input.read(buf) {
            Ok(got) => return Ok(got),
            Err(error) => {
                if error.kind() != ErrorKind::Interrupted {
                    return Err(error);
                }
            }
        }
    }
    Err(Error::from(ErrorKind::Interrupted))
}

// Writes all of bytes: the rest again after a short write, and all again after one that a signal interrupts. An error where the output
// takes no more.
pub fn write_out<P: Print>(rt: &P, bytes: &[u8]) -> io::Result<()> {
    let mut rest = bytes;
    for _ in 0..u64::MAX {
        if rest.is_empty() {
            return Ok(());
        }
        match rt.write_some(rest) {
            Ok(0) => return Err(Error::from(ErrorKind::WriteZero)),
            Ok(put) => rest = &rest[put..],
            Err(error) => {
                if error.kind() != ErrorKind::Interrupted {
                    return Err(error);
                }
            }
        }
    }
    Err(Error::from(ErrorKind::Interrupted))
}

// A line on standard error: why the last read failed.
pub fn input_failed<E: Eprint>(rt: &E, error: Error) {
    print_failure(rt, "standard input", error);
}

// A line on standard error: why the last write failed.
pub fn output_failed<E: Eprint>(rt: &E, error: Error) {
    print_failure(rt, "standard output", error);
}

// What failed, a colon and the system's text for why.
fn print_failure<E: Eprint>(rt: &E, what: &str, error: Error) {
    let mut space = [0u8; 320];
    let mut rest: &mut [u8] = &mut space;
    let _ = write!(rest, "{error}");
    let left = rest.len();
    let end = space.len().saturating_sub(left);
    let Ok(text) = str::from_utf8(&space[..end]) else {
        return;
    };
    let reason = without_number(text);
    let _ = eprintln!(rt; "{what}: {reason}");
}

// An error's text without the number that std puts behind it.
fn without_number(text: &str) -> &str {
    match text.split_once(" (os error ") {
        Some((reason, _)) => reason,
        None => text,
    }
}

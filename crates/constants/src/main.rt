// The program constants: each line of standard input is a constant's text, and its line of standard output the float's pattern, as 0x and
// 16 digits, or the refusal. A last line that has no end is one too. Lines may be of any length: a line is read as it comes, and not kept.
//
// All that decides a reply is in the crate constant. A read that fails and an output that takes nothing more end the program with a line
// on standard error.
#![tactic(auto)]

ghost use Rattle.std.specs.Prelude.{ℕ, ◌+◌, ◌-◌, length, IfSome, IfOk};
ghost use Rattle.constant.specs.Machine.{Within, most_places};

use constant::{ConstantError, Reading};
use reply::Refusal;
use std::io;
use std::io::{Read, Write};

// Why the program ends before its input does.
enum Failure {
    Input(io::Error),
    Output(io::Error),
}

// Writes a reply's line.
fn write_reply<P: Print>(rt: &P, reply: Result<u64, ConstantError>) -> io::Result<()> {
    let mut space = [0u8; 19];
    let mut rest: &mut [u8] = &mut space;
    let _ = match reply {
        Ok(bits) => writeln!(rest, "0x{bits:016x}"),
        Err(error) => writeln!(rest, "refused {}", error.number()),
    };
    let left = rest.len();
    let end = space.len().saturating_sub(left);
    stdio::write_out(rt, &space[..end])
}

// Reads a piece of the input, and writes the replies to the lines that end in it. A line is what has been read of it, once it has a byte.
fn read_lines<P: Print>(rt: &P, line: Option<Reading>, piece: &[u8]) -> io::Result<Option<Reading>>
    requires { IfSome line (Within (most_places - length piece.now)) }
    ensures { (n : ℕ) → IfSome line (Within n) → IfOk result (λ next. IfSome next (Within (n + length piece.now))) }
{
    let mut line = line;
    let mut rest = piece;
    while let Some(end) = rest.iter().position(|b| *b == b'\n') {
        let reading = line.unwrap_or(Reading::fresh()).read_on(&rest[..end]);
        write_reply(rt, reading.finish())?;
        line = None;
        rest = &rest[end + 1..];
    }
    if !rest.is_empty() {
        line = Some(line.unwrap_or(Reading::fresh()).read_on(rest));
    }
    Ok(line)
}

// The end of the input: what has been read of a line is a line.
fn finish<P: Print>(rt: &P, line: Option<Reading>) -> io::Result<()>
    requires { IfSome line (Within most_places) }
{
    match line {
        Some(reading) => write_reply(rt, reading.finish()),
        None => Ok(()),
    }
}

// Reads the input to its end.
fn run<R: Read, P: Print>(input: &mut R, rt: &P) -> Result<(), Failure> {
    let mut piece = [0u8; 65536];
    let mut line = None;
    // So many reads of 65,536 bytes are 2^63 bytes: more than come in a machine's life.
    for _ in 0..0x800000000000u64 {
        let got = stdio::read_some(input, &mut piece).map_err(Failure::Input)?;
        if got == 0 {
            return finish(rt, line).map_err(Failure::Output);
        }
        line = read_lines(rt, line, &piece[..got]).map_err(Failure::Output)?;
    }
    Ok(())
}

fn main(rt: HostRuntime) {
    match run(&mut rt.stdin(), &rt) {
        Ok(()) => {}
        Err(Failure::Input(error)) => stdio::input_failed(&rt, error),
        Err(Failure::Output(error)) => stdio::output_failed(&rt, error),
    }
}

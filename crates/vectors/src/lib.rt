// Test vectors as text: a line for each, the operation's name and then hexadecimal numbers, with one space before each.
//
// A program over it gives the function that finds a line's answer, and has every line run, and the failures and the count printed. The
// contract of hex says which number a text is (specs/Hexadecimal.antt), and those of next and run_text how far they come in a text, and that
// there are no more failures than lines (specs/Text.antt); the others promise that they are safe and end.
#![tactic(auto)]

ghost use Rattle.std.specs.Prelude.{◌≡◌, ◌≤◌, ◌<◌, length};
ghost use Rattle.vectors.specs.Hexadecimal.{number_of, digit_in};
ghost use Rattle.vectors.specs.Text.{Reached};

use std::io::Read;

// What a vector's operation gave and what it should.
#[derive(Clone, Copy)]
pub struct Answer {
    pub got: u64,
    pub want: u64,
}

// How far a text has been run: where its next line starts, how many lines there were, and how many failed.
#[derive(Clone, Copy)]
pub struct Progress {
    pub at: usize,
    pub lines: u64,
    pub failures: u64,
}

// Room for the whole text.
pub fn space() -> [u8; 1048576]
    ensures { 1048576 ≡ length result }
{
    [0; 1048576]
}

// Reads the input into the space: the text that came. One that may go on past the space is said to be too long.
pub fn read_text<'a, P: Print, R: Read>(rt: &P, input: &mut R, space: &'a mut [u8]) -> &'a [u8]
    ensures { length result.now ≤ length space.old }
{
    let len = read_full(input, space);
    if len == space.len() {
        let _ = println!(rt; "the text is too long");
    }
    &space[..len]
}

// Reads until the space is full, the input ends or a read fails, and answers how many bytes came.
fn read_full<R: Read>(input: &mut R, space: &mut [u8]) -> usize
    ensures { result ≤ length space.new }
{
    let mut len = 0;
    while len < space.len() {
        match stdio::read_some(input, &mut space[len..]) {
            Ok(0) | Err(_) => break,
            Ok(got) => len += got,
        }
    }
    len
}

// Where the line that starts at `from` ends.
fn line_end(text: &[u8], from: usize) -> usize
    requires { from ≤ length text.now }
    ensures { (from ≤ result) × (result ≤ length text.now) }
{
    match text[from..].iter().position(|b| *b == b'\n') {
        Some(i) => from + i,
        None => text.len(),
    }
}

// The line that starts at `from`.
pub fn line(text: &[u8], from: usize) -> &[u8]
    requires { from ≤ length text.now }
{
    &text[from..line_end(text, from)]
}

// The value of a hexadecimal digit.
#[tactic(auto, unfolding(crate::specs::Hexadecimal::digit_of, crate::specs::Hexadecimal::digit_in))]
fn digit(b: u8) -> Option<u64>
    ensures { result ≡ digit_in b }
{
    match b {
        b'0'..=b'9' => Some(u64::from(b - b'0')),
        b'a'..=b'f' => Some(u64::from(b - b'a' + 10)),
        _ => None,
    }
}

// The number that a text of 1 to 16 hexadecimal digits stands for.
pub fn hex(text: &[u8]) -> Option<u64>
    ensures { result ≡ number_of text.now }
{
    if text.is_empty() || 16 < text.len() {
        return None;
    }
    let mut n = 0;
    for b in text {
        n = n * 16 + digit(*b)?;
    }
    Some(n)
}

// The name of a line's operation, its first field.
pub fn name_of(line: &[u8]) -> &[u8] {
    line.split(|b| *b == b' ').next().unwrap_or(line)
}

// The numbers of a line, the fields after the first, where there are this many.
pub fn numbers_of<const N: usize>(line: &[u8]) -> Option<[u64; N]> {
    let mut fields = line.split(|b| *b == b' ').skip(1);
    let mut numbers = [0; N];
    for number in &mut numbers {
        *number = hex(fields.next()?)?;
    }
    fields.next().is_none().then_some(numbers)
}

// Prints `line NUMBER: ` and the line.
fn print_line<P: Print>(rt: &P, number: u64, line: &[u8]) {
    let _ = print!(rt; "line {number}: ");
    let _ = rt.write_all(line);
}

// Whether the answer is the one wanted. A failure is printed with its line, in which the number wanted comes last.
fn passes<P: Print>(rt: &P, number: u64, line: &[u8], answer: Option<Answer>) -> bool {
    match answer {
        Some(Answer { got, want }) => {
            if got == want {
                return true;
            }
            print_line(rt, number, line);
            let _ = println!(rt; ", got {got:016x}");
        }
        None => {
            print_line(rt, number, line);
            let _ = println!(rt; ", not a vector");
        }
    }
    false
}

// Nothing has been run.
pub fn start() -> Progress
    ensures { (result.at ≡ 0) × (result.lines ≡ 0) × (result.failures ≡ 0) }
{
    Progress {
        at: 0,
        lines: 0,
        failures: 0,
    }
}

// The progress past the next line, whose answer is given; a failure is printed.
pub fn next<P: Print>(rt: &P, text: &[u8], progress: Progress, answer: Option<Answer>) -> Progress
    requires { Reached progress text.now × (progress.at < length text.now) }
    ensures { Reached result text.now × (progress.at < result.at) }
{
    let end = line_end(text, progress.at);
    let lines = progress.lines + 1;
    let passed = passes(rt, lines, &text[progress.at..end], answer);
    Progress {
        at: text.len().min(end + 1),
        lines,
        failures: progress.failures + u64::from(!passed),
    }
}

// Prints how many vectors there were and how many failed.
pub fn print_count<P: Print>(rt: &P, progress: Progress) {
    let lines = progress.lines;
    let failures = progress.failures;
    let _ = println!(rt; "{lines} vectors, {failures} failures");
}

// Runs the vectors of the input: a line for each failure, and then the count, which it answers too.
pub fn run<P: Print, R: Read, F: Fn(&[u8]) -> Option<Answer>>(
    rt: &P,
    input: &mut R,
    answer: F,
) -> Progress
    requires { F.IsAlwaysCallable answer }
    ensures { (result.at ≤ 1048576) × (result.lines ≤ result.at) × (result.failures ≤ result.lines) }
{
    let mut space = space();
    let progress = run_text(rt, read_text(rt, input, &mut space), answer);
    print_count(rt, progress);
    progress
}

// Runs a text to its end.
fn run_text<P: Print, F: Fn(&[u8]) -> Option<Answer>>(rt: &P, text: &[u8], answer: F) -> Progress
    requires { F.IsAlwaysCallable answer }
    ensures { Reached result text.now × (result.at ≡ length text.now) }
{
    let mut progress = start();
    while progress.at < text.len() {
        let answer = answer(line(text, progress.at));
        progress = next(rt, text, progress, answer);
    }
    progress
}

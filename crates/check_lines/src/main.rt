// Reads lines of text and prints the answers. A read or a write that fails ends the program and is told on standard error, and the exit status is 1 then.
#![tactic(auto)]

ghost use Rattle.std.specs.Prelude.{Ok, IfOk, OnOk};
ghost use Rattle.std.specs.Option.{unwrap_or};
ghost use Rattle.text_lines.specs.Machine.{machine};
ghost use Rattle.std.specs.Io.KnownBytes.{Appends};
ghost use Rattle.check_lines.specs.{shown, Reached, TakenIn, ReadAndPrinted, AllPrinted, EndPrinted, PrintsWhole};

use std::process::ExitCode;
use std::{fmt, io};
use text_lines::State;

// Why the program gives up.
#[derive(Clone, Copy)]
pub enum Failure {
    NotRead, // a read failed
    NotWritten, // a write failed
}

impl fmt::Display for Failure {
    fn fmt<W: fmt::Write>(&self, f: &mut fmt::Formatter<W>) -> fmt::Result {
        match *self {
            Failure::NotRead => f.write_str("the input could not be read"),
            Failure::NotWritten => f.write_str("the output could not be written"),
        }
    }
}

// Bytes are printed. A write that a signal interrupts counts as one that failed, where the library's write_all would try it again.
fn print<W: io::Write>(output: &mut W, bytes: &[u8]) -> Result<(), Failure>
    ensures { OnOk result (Appends (W.contents output.old) (W.contents output.new) bytes.now) }
{
    let mut done = 0;
    // steps of varying length: no range counts them
    while done < bytes.len() {
        let Ok(n) = output.write(&bytes[done..]) else {
            return Err(Failure::NotWritten);
        };
        if n == 0 {
            return Err(Failure::NotWritten);
        }
        done += n;
    }
    Ok(())
}

// A chunk of the input, byte by byte, until a write fails; the state after it.
#[tactic(auto, using(crate::proofs::Answered::put_count))]
fn chunk<W: io::Write>(
    output: &mut W,
    bytes: &[u8],
    line: &mut [u8; 1025],
    ones: &mut [u64; 382],
    twos: &mut [u64; 382],
    out: &mut [u8; 96],
    start: State,
) -> Result<State, Failure>
    ensures taken { TakenIn bytes.now (machine start line.old ones.old twos.old) line.new ones.new twos.new result }
    ensures printed { OnOk result (Appends (W.contents output.old) (W.contents output.new)
        (shown bytes.now (machine start line.old ones.old twos.old))) }
{
    let mut state = start;
    for byte in bytes {
        let next = text_lines::step(state, *byte, line, ones, twos, out);
        state = next.state;
        print(output, &out[..next.count])?;
    }
    Ok(state)
}

// One read, and what its bytes print: the state after them, or none at the end of the input.
// A read that a signal interrupts before any byte came is no failure, and is tried again.
fn read_some<R: io::Read, W: io::Write>(
    input: &mut R,
    output: &mut W,
    line: &mut [u8; 1025],
    ones: &mut [u64; 382],
    twos: &mut [u64; 382],
    out: &mut [u8; 96],
    state: State,
) -> Result<Option<State>, Failure>
    ensures reached { IfOk result (λ next. Reached (machine state line.old ones.old twos.old)
        line.new ones.new twos.new (unwrap_or next state)) }
    ensures printed { ReadAndPrinted (R.remaining input.old) (R.remaining input.new) (W.contents output.old) (W.contents output.new)
        (machine state line.old ones.old twos.old) line.new ones.new twos.new state result }
{
    let mut buf = [0; 4096];
    let n = match input.read(&mut buf) {
        Ok(0) => return Ok(None),
        Ok(n) => n,
        Err(e) if e.kind() == io::ErrorKind::Interrupted => return Ok(Some(state)),
        Err(_) => return Err(Failure::NotRead),
    };
    let next = chunk(output, &buf[..n], line, ones, twos, out, state)?;
    Ok(Some(next))
}

// All of the input, and the state after it. No run makes as many reads as the loop allows.
fn read_all<R: io::Read, W: io::Write>(
    input: &mut R,
    output: &mut W,
    line: &mut [u8; 1025],
    ones: &mut [u64; 382],
    twos: &mut [u64; 382],
    out: &mut [u8; 96],
    start: State,
) -> Result<State, Failure>
    ensures reached { IfOk result (Reached (machine start line.old ones.old twos.old)
        line.new ones.new twos.new) }
    ensures printed { AllPrinted (R.remaining input.old) (R.remaining input.new) (W.contents output.old) (W.contents output.new)
        (machine start line.old ones.old twos.old) line.new ones.new twos.new result }
{
    let mut state = start;
    for _ in 0..u64::MAX {
        let Some(next) = read_some(input, output, line, ones, twos, out, state)? else {
            return Ok(state);
        };
        state = next;
    }
    Err(Failure::NotRead)
}

// The end of the text is answered where the input ended; after a failure a line that had not ended is dropped.
#[tactic(auto, using(crate::proofs::Answered::put_count))]
fn finish<W: io::Write>(
    output: &mut W,
    read: Result<State, Failure>,
    line: &[u8; 1025],
    ones: &mut [u64; 382],
    twos: &mut [u64; 382],
    out: &mut [u8; 96],
) -> Result<(), Failure>
    ensures { EndPrinted (W.contents output.old) (W.contents output.new) line.now ones.old twos.old read result }
{
    let state = read?;
    let last = text_lines::end(state, line, ones, twos, out);
    print(output, &out[..last.count])
}

// A whole text, from the header to the answer to its end.
#[tactic(auto, using(crate::proofs::Answered::put_count))]
fn answer<R: io::Read, W: io::Write>(input: &mut R, output: &mut W) -> Result<(), Failure>
    ensures { PrintsWhole (R.remaining input.old) (W.contents output.old) (W.contents output.new) result }
{
    let mut line = [0; 1025];
    let mut ones = [0; 382];
    let mut twos = [0; 382];
    let mut out = [0; 96];
    let begun = text_lines::begin(&mut out);
    print(output, &out[..begun.count])?;
    let read = read_all(
        input,
        output,
        &mut line,
        &mut ones,
        &mut twos,
        &mut out,
        begun.state,
    );
    finish(output, read, &line, &mut ones, &mut twos, &mut out)
}

fn main(rt: HostRuntime) -> io::Result<ExitCode> {
    if let Err(failure) = answer(&mut rt.stdin(), &mut rt.stdout()) {
        eprintln!(rt; "check_lines: {failure}")?;
        return Ok(ExitCode::FAILURE);
    }
    Ok(ExitCode::SUCCESS)
}

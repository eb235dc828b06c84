// Lines of text about a held key, taken byte by byte.
#![tactic(auto)]

ghost use Rattle.std.specs.Prelude.{◌≡◌, length};
ghost use Rattle.trits.specs.Rows.{put_words};
ghost use Rattle.text.specs.Answers.{header};
ghost use Rattle.text_line.specs.Answer.{line_prints};
ghost use Rattle.text_lines.specs.Machine.{machine, gathered, ended, stepped, step_prints, finished, end_prints, no_line};

use held_key::state::Held;
use text_line::handle::Handled;
use trits::refusal::Refusal;

// The byte that ends a line.
const LINE_END: u8 = b'\n';

// What is held between two bytes: the length of the line so far, up to 1,025, and the module's state. The line itself is in lent memory.
#[derive(Clone, Copy, Default)]
pub struct State {
    pub len: usize,
    pub held: Held,
}

// The state after a call, and how many bytes of the lent buffer are to be printed.
// A count and not the part: what the buffer has past it is promised too.
#[derive(Clone, Copy)]
pub struct Next {
    pub state: State,
    pub count: usize,
}

// The start: the header is printed, and no key is begun.
pub fn begin(out: &mut [u8; 96]) -> Next
    ensures state_value { result.state ≡ no_line }
    ensures count_value { result.count ≡ length header }
    ensures out_after { out.new ≡ put_words 0 out.old header }
{
    let count = text::answers::put_header(out);
    Next {
        state: State::default(),
        count,
    }
}

// The line has ended.
fn end_line(
    state: State,
    line: &[u8; 1025],
    ones: &mut [u64; 382],
    twos: &mut [u64; 382],
    out: &mut [u8; 96],
) -> Next
    ensures twos_after { machine result.state line.now ones.new twos.new ≡ ended
        (machine state line.now ones.old twos.old) }
    ensures count_value { result.count ≡ length (line_prints (machine state line.now ones.old twos.old).kept
        (gathered (machine state line.now ones.old twos.old))) }
    ensures out_after { out.new ≡ put_words 0 out.old
        (line_prints (machine state line.now ones.old twos.old).kept
        (gathered (machine state line.now ones.old twos.old))) }
{
    let State { len, held } = state;
    if len > 1024 {
        return Next {
            state: State { len: 0, held },
            count: text::answers::put_line_refused(out, u64::from(Refusal::Line)),
        };
    }
    let Handled { held, count } = text_line::handle::handle(&line[..len], held, ones, twos, out);
    Next {
        state: State { len: 0, held },
        count,
    }
}

// One byte of the text.
pub fn step(
    state: State,
    byte: u8,
    line: &mut [u8; 1025],
    ones: &mut [u64; 382],
    twos: &mut [u64; 382],
    out: &mut [u8; 96],
) -> Next
    ensures twos_after { machine result.state line.new ones.new twos.new ≡ stepped byte
        (machine state line.old ones.old twos.old) }
    ensures count_value { result.count ≡ length (step_prints byte (machine state line.old ones.old twos.old)) }
    ensures out_after { out.new ≡ put_words 0 out.old
        (step_prints byte (machine state line.old ones.old twos.old)) }
{
    if byte == LINE_END {
        return end_line(state, line, ones, twos, out);
    }
    let State { len, held } = state;
    if len < 1025 {
        line[len] = byte;
        return Next {
            state: State { len: len + 1, held },
            count: 0,
        };
    }
    Next { state, count: 0 }
}

// The end of the text.
pub fn end(
    state: State,
    line: &[u8; 1025],
    ones: &mut [u64; 382],
    twos: &mut [u64; 382],
    out: &mut [u8; 96],
) -> Next
    ensures twos_after { machine result.state line.now ones.new twos.new ≡ finished
        (machine state line.now ones.old twos.old) }
    ensures count_value { result.count ≡ length (end_prints (machine state line.now ones.old twos.old)) }
    ensures out_after { out.new ≡ put_words 0 out.old (end_prints (machine state line.now ones.old twos.old)) }
{
    if state.len == 0 {
        return Next { state, count: 0 };
    }
    end_line(state, line, ones, twos, out)
}

// The lines of a buffer, answered in another.
//
// specs/Output says what is written for each line, and specs/Stream which lines a step answers and what it keeps.
ghost use Rattle.std.specs.Prelude.{◌≡◌, ◌+◌, ◌≤◌, length};
ghost use Rattle.text.specs.Put.{IsPut};
ghost use Rattle.weights_run.specs.Output.{row_of, text_of, answer_line};
ghost use Rattle.weights_run.specs.Stream.{room_each, answered, answered_of, stepped, step_of};

use text::Page;
use weights_line::Figures;

// The room in the output for each line's answer, which has at most 15 bytes.
const ROOM_EACH: usize = 16;

// What is kept of a line that is not finished: one byte more than a line may have is enough to know that it is too long.
const MOST_KEPT: usize = 81;

// How many bytes of a part are used up, and how many of the output are written.
#[derive(Clone, Copy)]
pub(crate) struct Answered {
    pub used: usize,
    pub written: usize,
}

// How many bytes of the input stay, at its front, and how many of the output are written.
#[derive(Clone, Copy)]
pub(crate) struct Step {
    pub kept: usize,
    pub written: usize,
}

// Answers the lines that are finished among the first `filled` bytes of input, and moves what is begun to the front: so it takes the whole buffer, which
// has a fixed size, and not a slice of it.
pub(crate) fn advance(input: &mut [u8], filled: usize, out: &mut [u8]) -> Step
    requires { filled ≤ length input.old }
    ensures { stepped result input.new out.new ≡ step_of input.old filled out.old }
{
    let done = answer_lines(&input[..filled], out);
    Step {
        kept: text::keep(input, done.used, filled, MOST_KEPT),
        written: done.written,
    }
}

// Answers the finished lines of part from the first, as many as there is room for.
fn answer_lines(part: &[u8], out: &mut [u8]) -> Answered
    ensures { answered result out.new ≡ answered_of part.now out.old }
{
    let most = out.len() / ROOM_EACH;
    let mut page = Page {
        bytes: out,
        next: 0,
    };
    let mut used = 0;
    for line in part.split_inclusive(|byte| *byte == b'\n').take(most) {
        let Some(line) = line.strip_suffix(b"\n") else {
            break;
        };
        answer_line(line, &mut page);
        used += line.len() + 1;
    }
    Answered {
        used,
        written: page.next,
    }
}

pub(crate) fn answer_line(line: &[u8], out: &mut Page)
    requires { out.old.next + room_each ≤ length out.old.bytes.now }
    ensures same_buffer { out.new.bytes.ghost_name ≡ out.old.bytes.ghost_name }
    ensures put { IsPut out.old out.new (answer_line line.now) }
{
    put_answer(out, weights_line::answer_to(weights_line::parse(line)));
}

fn put_answer(out: &mut Page, answer: Option<Figures>)
    requires { out.old.next + length (text_of answer) ≤ length out.old.bytes.now }
    ensures same_buffer { out.new.bytes.ghost_name ≡ out.old.bytes.ghost_name }
    ensures put { IsPut out.old out.new (text_of answer) }
{
    match answer {
        Some(figures) => put_figures(out, figures),
        None => out.put_bytes(b"bad\n"),
    }
}

fn put_figures(out: &mut Page, figures: Figures)
    requires { out.old.next + length (row_of figures.curvature figures.alpha figures.weight) ≤ length out.old.bytes.now }
    ensures same_buffer { out.new.bytes.ghost_name ≡ out.old.bytes.ghost_name }
    ensures put { IsPut out.old out.new (row_of figures.curvature figures.alpha figures.weight) }
{
    out.put_signed(figures.curvature);
    out.put_byte(b' ');
    out.put_decimal(u64::from(figures.alpha));
    out.put_byte(b' ');
    out.put_signed(figures.weight);
    out.put_byte(b'\n');
}

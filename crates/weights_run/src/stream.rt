// A reader's bytes taken in parts, and answered to a writer.
//
// What is written depends on the input alone, and not on how the reads part it: `answer_all` promises that, and specs/Whole has the
// proof, over the step that each read takes. Where a read or a write fails, the program stops.
ghost use Rattle.std.specs.Prelude.{◌+◌, ◌*◌, ◌<◌, ◌≤◌, length, OnOk, IfSome};
ghost use Rattle.std.specs.Io.KnownBytes.{Appends};
ghost use Rattle.text.specs.Pieces.{lines_of, last_line};
ghost use Rattle.weights_run.specs.Output.{answers_to, output_of};
ghost use Rattle.weights_run.specs.Stream.{room_each, most_kept};

use crate::lines;
use std::io::{self, Read, Write};
use text::Page;

// Answers the reader's lines to the writer. Where a read or a write fails, it just stops.
pub fn run<R: Read, W: Write>(reader: &mut R, writer: &mut W) {
    let _ = answer_all(reader, writer);
}

// The same, and tells what failed. Where nothing does, the whole output for all that the reader had left stands after what the writer held.
pub fn answer_all<R: Read, W: Write>(reader: &mut R, writer: &mut W) -> io::Result<()>
    ensures { OnOk result (IfSome (R.remaining reader.old)
        (λ input. Appends (W.contents writer.old) (W.contents writer.new) (output_of input))) }
{
    // The output has 16 bytes for each of the input's 4,096, so the answers to all lines of a read fit.
    let mut input = [0u8; 4_096];
    let mut out = [0u8; 65_536];
    writer.write_all(b"curvature alpha weight\n")?;
    answer_reads(reader, writer, &mut input, &mut out)
}

fn answer_reads<R: Read, W: Write>(
    reader: &mut R,
    writer: &mut W,
    input: &mut [u8],
    out: &mut [u8],
) -> io::Result<()>
    requires more { most_kept < length input.old }
    requires room { room_each * length input.old ≤ length out.old }
    ensures { OnOk result (IfSome (R.remaining reader.old)
        (λ bytes. Appends (W.contents writer.old) (W.contents writer.new) (answers_to (lines_of bytes)))) }
{
    // So much of an unfinished line stands at the front of the input: a buffer of fixed size, since the program has no heap.
    let mut kept = 0;
    // A proved loop has to end, and nothing says that the input does: no run comes to the last of these turns.
    for _ in 0..u64::MAX {
        let fresh = reader.read(&mut input[kept..])?;
        if fresh == 0 {
            return answer_last(writer, &input[..kept], out);
        }
        let step = lines::advance(input, kept + fresh, out);
        writer.write_all(&out[..step.written])?;
        kept = step.kept;
    }
    Err(io::Error::other("the input does not end"))
}

// Answers a last line that has no newline. After a final newline nothing is left, and no line begins.
fn answer_last<W: Write>(writer: &mut W, line: &[u8], out: &mut [u8]) -> io::Result<()>
    requires { room_each ≤ length out.old }
    ensures { OnOk result (Appends (W.contents writer.old) (W.contents writer.new) (answers_to (last_line line.now))) }
{
    if line.is_empty() {
        return Ok(());
    }
    let mut page = Page {
        bytes: out,
        next: 0,
    };
    lines::answer_line(line, &mut page);
    let written = page.next;
    writer.write_all(&page.bytes[..written])
}

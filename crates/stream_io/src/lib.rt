// The program's reading and writing, over any reader and any writer. Where their bytes are known, as those in memory are, the contracts say that the writer
// has `output` (spec_program) of what the reader had. Of standard input and output no contract knows the bytes. What is assumed of them, and nothing else:
// reads give the bytes in their order, and none only at the end, and writes add theirs in their order.
// The loop of `pass` is `turns_text` (stream_turns, specs/Turns.antt) over the machine of spec_program.
#![tactic(auto)]

ghost use Rattle.std.specs.Prelude.{◌≡◌, ℕ, List, ◌<◌, ◌≤◌, true, false, length, take};
ghost use Rattle.std.specs.Io.KnownBytes.{Appends, Consumes, IsAtEnd};
ghost use Rattle.stream_state.specs.Stepping.{Rooms};
ghost use Rattle.stream_turns.specs.Turns.{piece_size};
ghost use Rattle.stream_io.specs.Answered.{Answers};

use matrix_terms::LONG_TERMS;
use sizes::{MATRIX, TABLE, WIDTH};
use std::io;
use std::io::{Read, Write};
use stream_turns::rooms::{PIECE, TEXT};

// Why a run does not answer all of its input: a read failed, and what was read is answered, or a write failed.
#[derive(Clone, Copy, Debug, PartialEq, Eq)]
pub enum Failure {
    Read,
    Write,
}

// How many bytes came, and whether a read failed.
#[derive(Clone, Copy)]
struct Taken {
    count: usize,
    failed: bool,
}

// Fills the piece from the reader. It is left short only where the input has ended or a read failed: a read that gives fewer bytes than there is room for
// says nothing of the end.
fn take_piece<R: Read>(reader: &mut R, piece: &mut [u8]) -> Taken
    ensures within { result.count ≤ length piece.new }
    ensures prefix { result.count ≡ length (take result.count piece.new) }
    ensures bytes { Consumes (R.remaining reader.old) (R.remaining reader.new) (take result.count piece.new) }
    ensures short { result.failed ≡ false → result.count < length piece.new → IsAtEnd (R.remaining reader.new) }
{
    let mut count = 0;
    // A read gives as many bytes as it likes: no range counts them.
    while count < piece.len() {
        match reader.read(&mut piece[count..]) {
            Ok(0) => {
                return Taken {
                    count,
                    failed: false,
                };
            }
            Ok(n) => count += n,
            Err(_) => {
                return Taken {
                    count,
                    failed: true,
                };
            }
        }
    }
    Taken {
        count,
        failed: false,
    }
}

// Writes the text, and returns whether all of it was taken: not where a write failed or took nothing.
fn send<W: Write>(writer: &mut W, text: &[u8]) -> bool
    ensures sent { result ≡ true → Appends (W.contents writer.old) (W.contents writer.new) text.now }
    ensures cut { (k : ℕ) × (k ≤ length text.now) × Appends (W.contents writer.old) (W.contents writer.new) (take k text.now) }
{
    let mut count = 0;
    // A write takes as many bytes as it likes: no range counts them.
    while count < text.len() {
        match writer.write(&text[count..]) {
            Ok(0) => return false,
            Ok(n) => count += n,
            Err(_) => return false,
        }
    }
    true
}

// Answers what the reader gives, piece by piece. A piece that is left short is the end of input, and a failed write ends the run.
// The turns never run out before that or the run's own end: after so many full pieces the run has ended.
fn pass<R: Read, W: Write>(
    reader: &mut R,
    writer: &mut W,
    t: &mut [u8],
    terms: &mut [u16],
    answer: &mut [u8],
    entries: &mut [u16],
    input: &mut [u8],
    output: &mut [u8],
) -> Result<(), Failure>
    requires { (length t.old ≡ 8192) × (length terms.old ≡ 8384) × Rooms input.old answer.old entries.old output.old }
    ensures { piece_size ≤ length input.old → Answers result (R.remaining reader.old) (R.remaining reader.new) (W.contents writer.old) (W.contents writer.new) }
{
    let mut s = stream_state::start();
    let mut sent = true;
    let mut failed = false;
    let mut left = stream_turns::rooms::turns();
    // A turn tells how many are left: the run may end before the range of them.
    while 0 < left {
        let taken = take_piece(reader, input);
        let stepped = stream::step(s, &input[..taken.count], t, terms, answer, entries, output);
        let end = stepped.end;
        sent = send(writer, &output[..end]);
        s = stepped.state;
        failed = taken.failed;
        left = stream_turns::turns_left(left, sent, taken.count == input.len(), s);
    }
    if !sent {
        return Err(Failure::Write);
    }
    let end = stream_turns::finish(s, output);
    if !send(writer, &output[..end]) {
        return Err(Failure::Write);
    }
    if failed {
        return Err(Failure::Read);
    }
    Ok(())
}

// Answers what the reader gives: SCOPE 6.
pub fn answer<R: Read, W: Write>(reader: &mut R, writer: &mut W) -> Result<(), Failure>
    ensures { Answers result (R.remaining reader.old) (R.remaining reader.new) (W.contents writer.old) (W.contents writer.new) }
{
    let mut t = [0u8; TABLE];
    let mut terms = [0u16; LONG_TERMS];
    let mut answer = [0u8; WIDTH];
    let mut entries = [0u16; MATRIX];
    let mut input = [0u8; PIECE];
    let mut output = [0u8; TEXT];
    pass(
        reader,
        writer,
        &mut t,
        &mut terms,
        &mut answer,
        &mut entries,
        &mut input,
        &mut output,
    )
}

// Answers standard input on standard output. Whether a read or a write failed is not told.
pub fn run(rt: &(impl Input + Print)) {
    let _ = answer(&mut rt.reader(), &mut io::writer(rt));
}

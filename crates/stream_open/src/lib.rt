// The opening of standard input: the codebook's length and the codebook.
#![tactic(auto)]

ghost use Rattle.std.specs.Prelude.{◌≡◌, ◌≤◌, ◌<◌, length, take};
ghost use Rattle.spec_program.specs.Output.{book_length};
ghost use Rattle.stream_text.specs.Printed.{Printed};
ghost use Rattle.stream_state.specs.declared.Phase.TheVariants.{Opening};
ghost use Rattle.stream_state.specs.State.{wanted_of, Sound};
ghost use Rattle.stream_open.specs.Opening.{Told, told_text, phase_told, Opens};

use book::Params;
use refusal::Refusal;
use sizes::BOOK;
use stream_state::{FIELD, Phase, State};

// The state after the bytes of a piece before `at`, and where their text ends.
#[derive(Clone, Copy)]
pub struct Taken {
    pub state: State,
    pub at: usize,
    pub end: usize,
}

// The codebook's length, two bytes, low first.
fn book_length(field: [u8; FIELD]) -> usize
    ensures { result ≡ book_length field }
{
    usize::from(field[0]) + 256 * usize::from(field[1])
}

// How many bytes of a codebook are read: none where its length is not known yet, or is too large.
fn wanted(field: [u8; FIELD], got: usize) -> usize
    requires { (length field ≡ 2) × (got ≤ 2) }
    ensures { (result ≡ wanted_of (take got field)) × (result ≤ 8454) }
{
    if got < FIELD {
        return 0;
    }
    let size = book_length(field);
    if BOOK < size {
        return 0;
    }
    size
}

// What the field and the codebook so far tell: none while some of it is still coming. A codebook that is whole is opened.
fn judge(
    field: [u8; FIELD],
    got: usize,
    book: &[u8],
    t: &mut [u8],
) -> Result<Option<Params>, Refusal>
    requires { (length field ≡ 2) × (got ≤ 2) × (length t.old ≡ 8192) }
    ensures { Told (take got field) book.now result t.new }
{
    if got < FIELD {
        return Ok(None);
    }
    let size = book_length(field);
    if BOOK < size {
        return Err(Refusal::BookLength);
    }
    if book.len() < size {
        return Ok(None);
    }
    let c = book::open(book, t)?;
    Ok(Some(c))
}

// The text of the opening, which is none unless it is refused.
fn put_told(told: Result<Option<Params>, Refusal>, out: &mut [u8]) -> usize
    requires { 5 ≤ length out.old }
    ensures { Printed out.old 0 (told_text told) out.new result × (result ≤ 5) }
{
    match told {
        Ok(_) => 0,
        Err(why) => stream_text::put_refusal(out, 0, why),
    }
}

// The phase that what is told leads to.
fn phase_told(told: Result<Option<Params>, Refusal>) -> Phase
    ensures { result ≡ phase_told told }
{
    match told {
        Ok(None) => Phase::Opening,
        Ok(Some(c)) => Phase::Answering(c),
        Err(_) => Phase::Ended,
    }
}

// Takes the bytes of a piece that belong to the length field and the codebook. Nothing is listed yet of a book that opens.
pub fn open_with(s: State, piece: &[u8], t: &mut [u8], terms: &mut [u16], out: &mut [u8]) -> Taken
    requires { Sound s t.old terms.old × (s.phase ≡ Opening) × (5 ≤ length out.old) }
    ensures { Opens s piece.now out.old result t.new terms.new out.new }
{
    let mut field = s.field;
    let head = stream_state::parts::fill(&mut field, s.got, FIELD, piece);
    let got = s.got + head;
    let size = wanted(field, got);
    let mut book = s.book;
    let body = stream_state::parts::fill(&mut book, s.came, size, &piece[head..]);
    let came = s.came + body;
    let told = judge(field, got, &book[..came], t);
    let end = put_told(told, out);
    terms[0] = 0;
    let begun = s.begun;
    let state = State {
        field,
        got,
        book,
        came,
        count: s.count,
        begun,
        held: s.held,
        phase: phase_told(told),
    };
    Taken {
        state,
        at: head + body,
        end,
    }
}

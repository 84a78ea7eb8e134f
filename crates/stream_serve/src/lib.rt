// The words that follow an accepted codebook.
#![tactic(auto)]

ghost use Rattle.std.specs.Prelude.{◌≡◌, ◌+◌, ◌*◌, ◌≤◌, ◌<◌, length};
ghost use Rattle.spec_program.specs.Output.{most_words};
ghost use Rattle.stream_words.specs.Ready.{Ready};
ghost use Rattle.stream_state.specs.declared.Phase.TheVariants.{Answering};
ghost use Rattle.stream_state.specs.State.{Sound};
ghost use Rattle.stream_state.specs.Stepping.{Steps};
ghost use Rattle.stream_serve.specs.Serving.{Going, Served, phase_after, resumed_of};

use book::Params;
use sizes::Word;
use stream_state::{MOST, Phase, State, Stepped};

// How many words are answered, the bytes of a begun word, as many as are held, and where the text ends.
#[derive(Clone, Copy)]
pub struct Answers {
    pub count: usize,
    pub begun: Word,
    pub held: usize,
    pub end: usize,
}

// Answers the whole words of a piece where none is begun, straight from the piece. The last bytes begin a word.
fn put_row(
    book: &[u8],
    c: Params,
    t: &[u8],
    terms: &mut [u16],
    a: Answers,
    piece: &[u8],
    answer: &mut [u8],
    entries: &mut [u16],
    out: &mut [u8],
) -> Answers
    requires { Ready book.now c t.now terms.old answer.old entries.old × Going c a × (a.held ≡ 0) × (a.count < most_words)
        × (a.end + 6 * length piece.now ≤ length out.old) }
    ensures { Served book.now c a piece.now out.old result terms.new out.new }
{
    let n = c.n;
    let words = stream_state::parts::whole_words(a.count, piece.len(), n);
    let size = words * n;
    let end = stream_words::put_words(
        book,
        c,
        t,
        terms,
        words,
        &piece[..size],
        answer,
        entries,
        out,
        a.end,
    );
    let count = a.count + words;
    let mut begun = a.begun;
    if count == MOST {
        return Answers {
            count,
            begun,
            held: 0,
            end,
        };
    }
    let held = stream_state::parts::fill(&mut begun, 0, n, &piece[size..]);
    Answers {
        count,
        begun,
        held,
        end,
    }
}

// Answers the words of a piece, the first of which may be begun.
pub fn answer(
    book: &[u8],
    c: Params,
    t: &[u8],
    terms: &mut [u16],
    a: Answers,
    piece: &[u8],
    answer: &mut [u8],
    entries: &mut [u16],
    out: &mut [u8],
) -> Answers
    requires { Ready book.now c t.now terms.old answer.old entries.old × Going c a × (a.count < most_words)
        × (a.end + 6 * (a.held + length piece.now) ≤ length out.old) }
    ensures { Served book.now c a piece.now out.old result terms.new out.new }
{
    let n = c.n;
    let mut begun = a.begun;
    let more = stream_state::parts::fill(&mut begun, a.held, n, piece);
    let held = a.held + more;
    if held < n {
        return Answers {
            count: a.count,
            begun,
            held,
            end: a.end,
        };
    }
    let end = stream_words::put_word(book, c, t, terms, &begun[..n], answer, entries, out, a.end);
    let next = Answers {
        count: a.count + 1,
        begun,
        held: 0,
        end,
    };
    if next.count == MOST {
        return next;
    }
    put_row(
        book,
        c,
        t,
        terms,
        next,
        &piece[more..],
        answer,
        entries,
        out,
    )
}

// The phase after `count` words.
fn phase_after(c: Params, count: usize) -> Phase
    ensures { result ≡ phase_after c count }
{
    if count < MOST {
        return Phase::Answering(c);
    }
    Phase::Ended
}

// The state with other words.
fn resumed(s: State, c: Params, a: Answers) -> State
    ensures { result ≡ resumed_of s c a }
{
    let field = s.field;
    let book = s.book;
    let begun = a.begun;
    State {
        field,
        got: s.got,
        book,
        came: s.came,
        count: a.count,
        begun,
        held: a.held,
        phase: phase_after(c, a.count),
    }
}

// Takes a piece where the codebook is open, and c are its parameters. The text goes on at `end`.
pub fn serve(
    s: State,
    c: Params,
    piece: &[u8],
    t: &[u8],
    terms: &mut [u16],
    answers: &mut [u8],
    entries: &mut [u16],
    out: &mut [u8],
    end: usize,
) -> Stepped
    requires { Sound s t.now terms.old × (s.phase ≡ Answering c) × (length answers.old ≡ 255) × (length entries.old ≡ 4080)
        × (end + 6 * (s.held + length piece.now) ≤ length out.old) }
    ensures { Steps s piece.now out.old end result.state result.end out.new
        × Sound result.state t.now terms.new }
{
    let n = c.n;
    let size = decode::matrix_size(c.p, n);
    let book = s.book;
    let came = s.came;
    let begun = s.begun;
    let from = Answers {
        count: s.count,
        begun,
        held: s.held,
        end,
    };
    let done = answer(
        &book[..came],
        c,
        t,
        terms,
        from,
        piece,
        &mut answers[..n],
        &mut entries[..size],
        out,
    );
    Stepped {
        state: resumed(s, c, done),
        end: done.end,
    }
}

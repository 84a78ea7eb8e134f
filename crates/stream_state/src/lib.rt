// Where a run of the program stands between two pieces of standard input, and the parts of the input that come in pieces.
#![tactic(auto)]

ghost use Rattle.std.specs.Prelude.{◌≡◌, List, ℕ, length};
ghost use Rattle.spec_program.specs.Machine as machine;
ghost use Rattle.stream_state.specs.State.{state_of, Sound};

use book::Params;
use sizes::{BOOK, WIDTH, Word};

pub mod parts;

// The bytes of the length field.
pub const FIELD: usize = 2;
// The most words that are read.
pub const MOST: usize = 1000000;

// The codebook's length or the codebook is still coming; or it is open, has these parameters, and words come; or the run has ended.
#[derive(Clone, Copy)]
pub enum Phase {
    Opening,
    Answering(Params),
    Ended,
}

// Where a run stands between two pieces. Of each array as many bytes count as the number after it says.
#[derive(Clone, Copy)]
pub struct State {
    pub field: [u8; FIELD],
    pub got: usize,
    pub book: [u8; BOOK],
    pub came: usize,
    pub count: usize,
    pub begun: Word,
    pub held: usize,
    pub phase: Phase,
}

// The next state, and where the text ends.
#[derive(Clone, Copy)]
pub struct Stepped {
    pub state: State,
    pub end: usize,
}

// No byte came.
pub fn start() -> State
    ensures { (state_of result ≡ machine.start) × ((t terms : List ℕ) → length t ≡ 8192 → length terms ≡ 8384 → Sound result t terms) }
{
    let field = [0; FIELD];
    let book = [0; BOOK];
    let begun = [0; WIDTH];
    State {
        field,
        got: 0,
        book,
        came: 0,
        count: 0,
        begun,
        held: 0,
        phase: Phase::Opening,
    }
}

// The program as a machine that takes standard input in pieces: what each piece prints.
// `step` asks for a state and rooms as `start` and `step` leave them: it is for a caller that passes on what it was given.
#![tactic(auto)]

ghost use Rattle.std.specs.Prelude.{◌≡◌};
ghost use Rattle.stream_state.specs.declared.Phase.TheVariants.{Opening};
ghost use Rattle.stream_state.specs.State.{Sound};
ghost use Rattle.stream_state.specs.Stepping.{Rooms, Steps};

use stream_state::{Phase, State, Stepped};

// Takes a piece: what it prints stands at the start of `out`. The state is one that `start` or `step` made, and t and terms are as `step` left them.
pub fn step(
    s: State,
    piece: &[u8],
    t: &mut [u8],
    terms: &mut [u16],
    answer: &mut [u8],
    entries: &mut [u16],
    out: &mut [u8],
) -> Stepped
    requires { Sound s t.old terms.old × Rooms piece.now answer.old entries.old out.old }
    ensures { Steps s piece.now out.old 0 result.state result.end out.new
        × Sound result.state t.new terms.new }
{
    let phase = s.phase;
    match phase {
        Phase::Opening => open_and_serve(s, piece, t, terms, answer, entries, out),
        Phase::Answering(c) => stream_serve::serve(s, c, piece, t, terms, answer, entries, out, 0),
        Phase::Ended => Stepped { state: s, end: 0 },
    }
}

// The same while the opening is coming: words may follow it in the piece.
fn open_and_serve(
    s: State,
    piece: &[u8],
    t: &mut [u8],
    terms: &mut [u16],
    answer: &mut [u8],
    entries: &mut [u16],
    out: &mut [u8],
) -> Stepped
    requires { Sound s t.old terms.old × (s.phase ≡ Opening) × Rooms piece.now answer.old entries.old out.old }
    ensures { Steps s piece.now out.old 0 result.state result.end out.new
        × Sound result.state t.new terms.new }
{
    let taken = stream_open::open_with(s, piece, t, terms, out);
    let state = taken.state;
    let at = taken.at;
    let phase = state.phase;
    match phase {
        Phase::Opening => Stepped {
            state,
            end: taken.end,
        },
        Phase::Answering(c) => stream_serve::serve(
            state,
            c,
            &piece[at..],
            t,
            terms,
            answer,
            entries,
            out,
            taken.end,
        ),
        Phase::Ended => Stepped {
            state,
            end: taken.end,
        },
    }
}

// The turns of a run, each of which reads a piece of standard input: which is the last, how many there are, and what the end of input prints.
#![tactic(auto)]

ghost use Rattle.std.specs.Prelude.{◌≡◌, ◌≤◌, ◌<◌, length};
ghost use Rattle.spec_program.specs.Machine as machine;
ghost use Rattle.stream_text.specs.Printed.{Printed};
ghost use Rattle.stream_state.specs.State.{state_of, Sized};
ghost use Rattle.stream_turns.specs.Turns.{turns_left};

use refusal::Refusal;
use stream_state::{FIELD, MOST, Phase, State};

pub mod rooms;

// The most bytes of input that matter.
pub const INPUT: usize = FIELD + sizes::BOOK + MOST * sizes::WIDTH;

// Whether the run has ended, whatever comes.
fn is_over(s: State) -> bool
    ensures { result ≡ machine.is_over (state_of s) }
{
    let phase = s.phase;
    match phase {
        Phase::Opening => false,
        Phase::Answering(_) => false,
        Phase::Ended => true,
    }
}

// How many turns are left after one: none where the write failed, the read was short or the run has ended.
pub fn turns_left(left: usize, sent: bool, full: bool, s: State) -> usize
    requires { 0 < left }
    ensures value { result ≡ turns_left left sent full (machine.is_over (state_of s)) }
    ensures upper_bound { result < left }
{
    if !sent {
        return 0;
    }
    if !full {
        return 0;
    }
    if is_over(s) {
        return 0;
    }
    left - 1
}

// What the end of input prints.
pub fn finish(s: State, out: &mut [u8]) -> usize
    requires { Sized s × (5 ≤ length out.old) }
    ensures { Printed out.old 0 (machine.finish_text (state_of s)) out.new result × (result ≤ length out.new) }
{
    let phase = s.phase;
    match phase {
        Phase::Opening => stream_text::put_refusal(out, 0, Refusal::BookLength),
        Phase::Answering(_) => {
            if s.held == 0 {
                return 0;
            }
            stream_text::put_refusal(out, 0, Refusal::InputLength)
        }
        Phase::Ended => 0,
    }
}

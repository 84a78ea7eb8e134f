// How much a run takes in a turn, and how many turns it takes.
ghost use Rattle.std.specs.Prelude.{◌≡◌};
ghost use Rattle.stream_turns.specs.Turns.{turns};

// The bytes of a piece: 100 of the longest words.
pub const PIECE: usize = 100 * sizes::WIDTH;
// The bytes of its text: at most 6 for each symbol of a line, a begun word's line, and a refusal.
pub const TEXT: usize = 6 * PIECE + 6 * sizes::WIDTH + 5;

// Enough turns for all the input that matters: after so many full pieces the run has ended (proofs/Turns.antt: turns_over).
pub fn turns() -> usize
    ensures { result ≡ turns }
{
    crate::INPUT / PIECE + 1
}

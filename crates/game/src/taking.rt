// Which words of a burst are held.
ghost use Rattle.std.specs.Prelude.{◌≡◌, ◌≤◌, Ok};
ghost use Rattle.spec_operations.specs.GameTrips.{held_letter, held_records};
ghost use Rattle.burst.specs.Said.{made_bytes};

use burst::Burst;

// Whether the letter of a kind is that of a word that is held: Stalled or Spent.
fn is_held(kind: u8) -> bool
    ensures { result ≡ held_letter kind }
{
    kind == b'S' || kind == b'X'
}

// How many of a burst's words are held.
pub fn held(made: Burst) -> u8
    requires { made.count ≤ 16 }
    ensures { result ≡ held_records made.count (made_bytes (Ok made)) }
{
    let mut held: u8 = 0;
    for m in 0..made.count {
        let x = burst::record_at(made, m);
        held += is_held(x.kind) as u8;
    }
    held
}

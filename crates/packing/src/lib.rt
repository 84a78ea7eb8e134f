// Results as the one number that a C caller gets: the refusal in the lowest byte, or counts and a letter in the others. They are functions and no `From`,
// since neither a Result nor a number is a type of this crate. A refusal is of any type that gives a byte: a `Refusal`, or the byte itself.
#![tactic(auto)]

ghost use Rattle.std.specs.Prelude.{Ok};
ghost use Rattle.refusal.specs.Number as done;
ghost use Rattle.book.specs.Params as checks;
ghost use Rattle.decode.specs.Decoded as decodes;
ghost use Rattle.game.specs.Said as games;
ghost use Rattle.packing.specs.Packs.{Packs};

use decode::Decoded;
use game::Game;

// The number of a refusal.
pub fn pack_refusal<E: Into<u8>>(why: E) -> u32
    ensures { E.converts why result }
{
    u32::from(why.into())
}

// The result of a check.
pub fn pack_checked<E: Into<u8>>(r: Result<u8, E>) -> u32
    ensures { Packs E.converts (λ count. checks.said (Ok count)) r result }
{
    match r {
        Ok(count) => 256 * u32::from(count),
        Err(why) => pack_refusal(why),
    }
}

// The result of an operation that writes one buffer.
pub fn pack_done<E: Into<u8>>(r: Result<(), E>) -> u32
    ensures { Packs E.converts (λ nothing. done.said (Ok nothing)) r result }
{
    if let Err(why) = r {
        return pack_refusal(why);
    }
    0
}

// The result of decode.
pub fn pack_decoded<E: Into<u8>>(r: Result<Decoded, E>) -> u32
    ensures { Packs E.converts (λ told. decodes.said (Ok told)) r result }
{
    match r {
        Ok(told) => {
            256 * u32::from(told.changed)
                + 65536 * u32::from(told.rounds)
                + 16777216 * u32::from(u8::from(told.kind))
        }
        Err(why) => pack_refusal(why),
    }
}

// The result of a game: how many words are held, and the letter, W or H.
pub fn pack_game<E: Into<u8>>(r: Result<Game, E>) -> u32
    ensures { Packs E.converts (λ game. games.said (Ok game)) r result }
{
    match r {
        Ok(Game::Whole) => 16777216 * u32::from(b'W'),
        Ok(Game::Held(count)) => 256 * u32::from(count) + 16777216 * u32::from(b'H'),
        Err(why) => pack_refusal(why),
    }
}

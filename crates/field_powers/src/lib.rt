// Powers of x in GF(2^p), p from 1 to 6, and logarithms: x reaches every nonzero symbol, so that dividing by a symbol is an offset of powers.
#![tactic(auto)]

ghost use Rattle.std.specs.Prelude.{◌≤◌, length};
ghost use Rattle.field_powers.specs.Powers.{PowersPut, powers_end};

// Where a room has the powers; the logarithms are below, each at the place of its symbol.
pub const POWERS_AT: usize = sizes::SYMBOLS;

// Puts the powers of x into a room, twice round, and the logarithm of each nonzero symbol. Zero has none: 0 stands at its place.
pub fn put(p: u8, room: &mut [u16])
    requires { (1 ≤ p) × (p ≤ 6) × (powers_end ≤ length room.old) }
    ensures { PowersPut p room.old room.new }
{
    let round = usize::from(field::order(p)) - 1;
    room[0] = 0;
    let mut symbol: u8 = 1;
    for e in 0..round {
        room[POWERS_AT + e] = symbol as u16;
        room[POWERS_AT + round + e] = symbol as u16;
        room[symbol as usize] = e as u16;
        symbol = field::double(p, symbol);
    }
}

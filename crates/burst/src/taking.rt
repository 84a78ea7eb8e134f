// Which bursts are refused, once the book is open.
ghost use Rattle.std.specs.Prelude.{◌≡◌, ◌&&◌, ◌*◌, ◌^◌, ◌≤◌, eqb};
ghost use Rattle.spec_operations.specs.Burst.{burst_input_refusal};
ghost use Rattle.refusal.specs.Number.{refusal_of};
ghost use Rattle.book.specs.Params.{Describes};

use book::Params;
use refusal::Refusal;

// Whether answers, list and matrix have their exact sizes.
fn exact(p: u8, n: usize, words: usize, room: usize, list: usize, entries: usize) -> bool
    requires { (p ≤ 6) × (n ≤ 255) × (words ≤ 16) }
    ensures { result ≡ (eqb room (n * words) && eqb list words && eqb entries (2 ^ p * n)) }
{
    if room != n * words {
        return false;
    }
    if list != words {
        return false;
    }
    entries == decode::matrix_size(p, n)
}

// The first refusal of 14 and 9 to 11 that applies. No n * M is formed before M is known to be small.
pub fn refusal(
    book: &[u8],
    c: Params,
    words: u32,
    received: &[u8],
    room: usize,
    list: usize,
    entries: usize,
) -> Result<(), Refusal>
    requires { Describes book.now c }
    ensures { refusal_of result ≡ burst_input_refusal book.now words received.now room list entries }
{
    if !refusals::words_ok(words) {
        return Err(Refusal::WordCount);
    }
    let p = c.p;
    let n = c.n;
    let count = words as usize;
    let sized = exact(p, n, count, room, list, entries);
    refusals::refusal(
        field::order(p),
        received.len() == n * count,
        sized,
        received,
    )
}

// The sum of two words as an exported function, for tests and measurement alone: the C boundary keeps it behind decode.
#![tactic(auto)]

ghost use Rattle.std.specs.Prelude.{◌≡◌, cond, length};
ghost use Rattle.sum_probe.specs.Sum.{adds, sums};

// Whether the lengths are one, which a word can have.
fn fits(a: usize, b: usize, room: usize) -> bool
    ensures { result ≡ adds a b room }
{
    if room > 255 {
        return false;
    }
    if a != room {
        return false;
    }
    b == room
}

// Writes the sum, and answers 1; where a length is another, writes nothing, and answers 0.
#[unsafe(no_mangle)]
pub extern "C" fn sum_probe(a: &[u8], b: &[u8], out: &mut [u8]) -> u32
    ensures { (result ≡ cond (adds (length a.now) (length b.now) (length out.old)) 1 0)
        × (out.new ≡ sums a.now b.now out.old) }
{
    let n = out.len();
    if fits(a.len(), b.len(), n) {
        let w = word_array::add(n, a, b);
        word_array::store(&w, out);
        return 1;
    }
    0
}

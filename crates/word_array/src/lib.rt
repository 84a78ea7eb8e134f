// Words of n symbols, held by value and zero from place n on. The contracts cite the definitions of specs/.
#![tactic(auto)]

ghost use Rattle.std.specs.Prelude.{◌≡◌, ℕ, ◌+◌, ◌*◌, ◌/◌, ◌≤◌, length};
ghost use Rattle.std.specs.Int.Bits.{bit_xor};
ghost use Rattle.spec_range.specs.Table.{table, padded};
ghost use Rattle.spec_field.specs.Symbols.{gf};
ghost use Rattle.spec_word.specs.Word.{distance, plus};
ghost use Rattle.spec_word.specs.Division.{all_zero};
ghost use Rattle.word_array.specs.Stored.{place};

use sizes::{EIGHT, WIDTH, Word};

// The n bytes of a slice that start at `start`, as a word.
pub fn load(s: &[u8], start: usize, n: usize) -> Word
    requires { (n ≤ 255) × (start + n ≤ length s.now) }
    ensures { result ≡ padded 255 n (λ j. place s.now (start + j)) }
{
    let mut w = [0u8; WIDTH];
    for j in 0..n {
        w[j] = s[start + j];
    }
    w
}

// Writes the first places of a word, however it is held, into a slice.
pub fn store(w: &[u8], out: &mut [u8])
    requires { length out.old ≤ length w.now }
    ensures { out.new ≡ table (length out.old) (place w.now) }
{
    let n = out.len();
    out.copy_from_slice(&w[..n]);
}

// Writes the sum of two lists of whole eights: a step adds eight symbols, packed in one number. All sums of words, and of rows of tables, are made of it.
pub fn add_eights(a: &[u8], b: &[u8], out: &mut [u8])
    requires { (8 * (length out.old / 8) ≡ length out.old) × (length a.now ≡ length out.old) × (length b.now ≡ length out.old) }
    ensures { out.new ≡ table (length out.old) (λ j. bit_xor (place a.now j) (place b.now j)) }
{
    let eights = out.len() / EIGHT;
    for i in 0..eights {
        let at = EIGHT * i;
        let end = at + EIGHT;
        let x = word_packed::pack(&a[at..end]);
        let y = word_packed::pack(&b[at..end]);
        word_packed::unpack(x ^ y, &mut out[at..end]);
    }
}

// The sum of two words: whole eights packed, and the last seven places or fewer singly.
pub fn add(n: usize, a: &[u8], b: &[u8]) -> Word
    requires { (n ≤ 255) × (n ≤ length a.now) × (n ≤ length b.now) }
    ensures { (p : ℕ) → result ≡ padded 255 n (place (plus (gf p) n a.now b.now)) }
{
    let mut w = [0u8; WIDTH];
    let whole = sizes::packed_places(n);
    add_eights(&a[0..whole], &b[0..whole], &mut w[0..whole]);
    for j in whole..n {
        w[j] = a[j] ^ b[j];
    }
    w
}

// Whether the places below n are all zero: those that are not are counted, with no branch.
pub fn is_zero(n: usize, w: &[u8]) -> bool
    requires { (n ≤ 255) × (n ≤ length w.now) }
    ensures { result ≡ all_zero n w.now }
{
    let mut found: u8 = 0;
    for j in 0..n {
        found += (w[j] != 0) as u8;
    }
    found == 0
}

// The count of places where two words differ, in a byte, which is wide enough and makes the widest vector steps.
pub fn distance(n: usize, a: &[u8], b: &[u8]) -> usize
    requires { (n ≤ 255) × (n ≤ length a.now) × (n ≤ length b.now) }
    ensures { (result ≡ distance n (place a.now) (place b.now)) × (result ≤ n) }
{
    let mut count: u8 = 0;
    for j in 0..n {
        count += (a[j] != b[j]) as u8;
    }
    count as usize
}

// Coding a message, reading it back, and the remainder of any word, for all inputs.
#![tactic(auto)]

ghost use Rattle.std.specs.Prelude.{List, ℕ, length};
ghost use Rattle.spec_operations.specs.Wrote.{Wrote};
ghost use Rattle.spec_operations.specs.Coding.{code_input_refusal, code_refusal, coded, read_word_refusal, read_refusal, message_of};
ghost use Rattle.spec_operations.specs.Remainder.{remainder_input_refusal, remainder_refusal, remainder_of};
ghost use Rattle.refusal.specs.Number.{said};
ghost use Rattle.book.specs.Opened.{OpenBook, SomeBook};

use book::Params;
use refusal::Refusal;
use sizes::{SPAN, STRIDE, TABLE};

// Code a message of 1 to k symbols into a word of n.
pub fn code(book: &[u8], message: &[u8], word: &mut [u8]) -> Result<(), Refusal>
    ensures { Wrote (code_refusal book.now message.now (length word.old))
        (coded book.now message.now) word.old (said result) word.new }
{
    let mut t = [0u8; TABLE];
    let c = book::open(book, &mut t)?;
    code_message(c, &t, message, word)
}

// The same once the book is open: the product with the generator is read off the generator's table. What a short message lacks would add nothing to it.
fn code_message(c: Params, t: &[u8], message: &[u8], word: &mut [u8]) -> Result<(), Refusal>
    requires { SomeBook c t.now }
    ensures { (bytes : List ℕ) → OpenBook bytes c t.now
        → Wrote (code_input_refusal bytes message.now (length word.old))
        (coded bytes message.now) word.old (said result) word.new }
{
    let n = c.n;
    let k = n - c.degree;
    let q = field::order(c.p);
    let size = message.len();
    let fits = refusals::message_fits(k, size);
    refusals::refusal(q, fits, word.len() == n, message)?;
    let mut product = [0u8; SPAN];
    word_table::product(n, size, message, 0, t, &mut product);
    word_array::store(&product, word);
    Ok(())
}

// Read the message of a code word.
pub fn read(book: &[u8], word: &[u8], message: &mut [u8]) -> Result<(), Refusal>
    ensures { Wrote (read_refusal book.now word.now (length message.old))
        (message_of book.now word.now) message.old (said result) message.new }
{
    let mut t = [0u8; TABLE];
    let c = book::open(book, &mut t)?;
    read_word(c, &t, word, message)
}

// The same once the book is open: one division tells whether it is a code word, and gives the message.
pub fn read_word(c: Params, t: &[u8], word: &[u8], message: &mut [u8]) -> Result<(), Refusal>
    requires { SomeBook c t.now }
    ensures { (bytes : List ℕ) → OpenBook bytes c t.now
        → Wrote (read_word_refusal bytes word.now (length message.old))
        (message_of bytes word.now) message.old (said result) message.new }
{
    let n = c.n;
    let d = c.degree;
    let k = n - d;
    let q = field::order(c.p);
    refusals::refusal(q, word.len() == n, message.len() == k, word)?;
    let mut remainder = [0u8; STRIDE];
    let mut quotient = [0u8; SPAN];
    word_divide::divide(c.p, n, d, t, word, &mut remainder, &mut quotient);
    if !word_array::is_zero(d, &remainder) {
        return Err(Refusal::NoCodeWord);
    }
    word_array::store(&quotient, message);
    Ok(())
}

// Write the remainder of a word by the generator, which is zero for a code word alone.
pub fn remainder(book: &[u8], word: &[u8], out: &mut [u8]) -> Result<(), Refusal>
    ensures { Wrote (remainder_refusal book.now word.now (length out.old))
        (remainder_of book.now word.now) out.old (said result) out.new }
{
    let mut t = [0u8; TABLE];
    let c = book::open(book, &mut t)?;
    remainder_word(c, &t, word, out)
}

// The same once the book is open.
fn remainder_word(c: Params, t: &[u8], word: &[u8], out: &mut [u8]) -> Result<(), Refusal>
    requires { SomeBook c t.now }
    ensures { (bytes : List ℕ) → OpenBook bytes c t.now
        → Wrote (remainder_input_refusal bytes word.now (length out.old))
        (remainder_of bytes word.now) out.old (said result) out.new }
{
    let n = c.n;
    let d = c.degree;
    let q = field::order(c.p);
    refusals::refusal(q, word.len() == n, out.len() == d, word)?;
    let mut rest = [0u8; STRIDE];
    let mut quotient = [0u8; SPAN];
    word_divide::divide(c.p, n, d, t, word, &mut rest, &mut quotient);
    word_array::store(&rest, out);
    Ok(())
}

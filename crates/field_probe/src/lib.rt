// The field operations as exported functions, for tests alone: no operation of the C boundary calls them.
#![tactic(auto)]

ghost use Rattle.std.specs.Prelude.{◌≡◌};
ghost use Rattle.spec_field.specs.Operations.{sum_answer, product_answer, inverse_answer};
ghost use Rattle.spec_operations.specs.Packed.{result_of};
ghost use Rattle.field.specs.Said.{said};

use refusal::Refusal;

// The refusal number in the lowest byte, or the symbol in byte 1. (`packing` stands above decode, which the probe does not link.)
fn pack_symbol(r: Result<u8, Refusal>) -> u32
    ensures { result ≡ result_of (said r) }
{
    match r {
        Ok(symbol) => 256 * u32::from(symbol),
        Err(why) => u32::from(u8::from(why)),
    }
}

#[unsafe(no_mangle)]
pub extern "C" fn field_sum_probe(p: u8, a: u8, b: u8) -> u32
    ensures { result ≡ result_of (sum_answer p a b) }
{
    pack_symbol(field::sum(p, a, b))
}

#[unsafe(no_mangle)]
pub extern "C" fn field_product_probe(p: u8, a: u8, b: u8) -> u32
    ensures { result ≡ result_of (product_answer p a b) }
{
    pack_symbol(field::product(p, a, b))
}

#[unsafe(no_mangle)]
pub extern "C" fn field_inverse_probe(p: u8, a: u8) -> u32
    ensures { result ≡ result_of (inverse_answer p a) }
{
    pack_symbol(field::inverse(p, a))
}

//! Sums and products modulo p = 2^64 - 2^32 + 1.
ghost use Rattle.std.specs.Prelude.{◌≡◌, ◌+◌, ◌*◌, ◌%◌, ◌<◌, if◌then◌else◌};
ghost use Rattle.qz_finger.specs.Modulo.{modulus, minus_one};

// p
const P: u64 = 18446744069414584321;

// 2^64
pub(crate) const TWO_TO_64: u128 = 18446744073709551616;

// What 2^64 is modulo p: 2^32 - 1.
pub(crate) const TWO_TO_64_MODULO_P: u128 = 4294967295;

// 2^32
const TWO_TO_32: u128 = 4294967296;

// The number modulo p. Since 2^64 is 2^32 - 1 and 2^96 is -1 modulo p, the upper half is folded into the lower one.
pub(crate) fn reduce(x: u128) -> u64
    ensures { result ≡ x % modulus }
{
    let low = x % TWO_TO_64;
    let high = x / TWO_TO_64;
    let middle = high % TWO_TO_32;
    let top = high / TWO_TO_32;
    let sum = low + middle * TWO_TO_64_MODULO_P + (P as u128 - top);
    let folded = sum % TWO_TO_64 + sum / TWO_TO_64 * TWO_TO_64_MODULO_P;
    if folded < P as u128 {
        folded as u64
    } else {
        (folded - P as u128) as u64
    }
}

// The product.
pub(crate) fn multiply(a: u64, b: u64) -> u64
    ensures { result ≡ a * b % modulus }
{
    reduce(a as u128 * b as u128)
}

// The product, if it is wanted, and else the first number, which is below p.
pub(crate) fn multiply_where(wanted: bool, a: u64, b: u64) -> u64
    requires { a < modulus }
    ensures { result ≡ (if wanted then a * b else a) % modulus }
{
    if wanted { multiply(a, b) } else { a }
}

// The sum of two numbers below p.
pub(crate) fn add(a: u64, b: u64) -> u64
    requires first { a < modulus }
    requires second { b < modulus }
    ensures { result ≡ (a + b) % modulus }
{
    if a < P - b { a + b } else { a - (P - b) }
}

// The difference b - a of two numbers below p.
pub(crate) fn subtract(a: u64, b: u64) -> u64
    requires first { a < modulus }
    requires second { b < modulus }
    ensures { result ≡ (minus_one * a + b) % modulus }
{
    if b < a { b + (P - a) } else { b - a }
}

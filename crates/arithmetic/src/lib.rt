// The operations on two numbers.
#![tactic(auto)]

ghost use Rattle.std.specs.Prelude.{◌≡◌, ◌^◌, ◌<◌, ℤ, pos, ◌+ℤ◌, ◌*ℤ◌, if◌then◌else◌, int_lt};
ghost use Rattle.laws.specs.Integers.{same_z, min_z, max_z, floor_div, floor_mod};
ghost use Rattle.laws.proofs.Machine.{Small};

// An operation on the numbers of three cells. Only WHERE looks at the third; it copies what it takes, and the others compute with the first two.
pub trait Mix {
    ghost mixed: { ℤ → ℤ → ℤ → ℤ };

    fn mix(x: i64, y: i64, z: i64) -> i64
        requires { (Small x) × (Small y) }
        ensures { result ≡ mixed x y z };
}

// ADD: the sum of two numbers of 32 bits.
pub struct Sum;

impl Mix for Sum {
    ghost mixed = { λ x y z. x +ℤ y };

    fn mix(x: i64, y: i64, _z: i64) -> i64 {
        x + y
    }
}

// MUL: their product.
pub struct Product;

impl Mix for Product {
    ghost mixed = { λ x y z. x *ℤ y };

    fn mix(x: i64, y: i64, _z: i64) -> i64 {
        x * y
    }
}

// MAX, and OR of 0 and 1: the larger of the two.
pub struct Greatest;

impl Mix for Greatest {
    ghost mixed = { λ x y z. max_z x y };

    fn mix(x: i64, y: i64, _z: i64) -> i64 {
        bounds::greatest(x, y)
    }
}

// AND of 0 and 1: the smaller of the two.
pub struct Least;

impl Mix for Least {
    ghost mixed = { λ x y z. min_z x y };

    fn mix(x: i64, y: i64, _z: i64) -> i64 {
        bounds::least(x, y)
    }
}

// IDIV: the quotient, rounded down.
pub struct Quotient;

impl Mix for Quotient {
    ghost mixed = { λ x y z. floor_div x y };

    fn mix(x: i64, y: i64, _z: i64) -> i64 {
        bounds::quotient(x, y)
    }
}

// MOD: its remainder.
pub struct Remainder;

impl Mix for Remainder {
    ghost mixed = { λ x y z. floor_mod x y };

    fn mix(x: i64, y: i64, _z: i64) -> i64 {
        bounds::floor_mod(x, y)
    }
}

// CMPLT: 1 where x is less than y, else 0.
pub struct Less;

impl Mix for Less {
    ghost mixed = { λ x y z. if int_lt x y then pos 1 else pos 0 };

    // The highest bit of their difference, which the machine finds for several cells at once, as it does not for a comparison of 64 bits.
    fn mix(x: i64, y: i64, _z: i64) -> i64 {
        let a = (x + 2147483648) as u64;
        let b = (y + 2147483648) as u64;
        (a.wrapping_sub(b) >> 63) as i64
    }
}

// CMPNE: 1 where x is not y, else 0.
pub struct Different;

impl Mix for Different {
    ghost mixed = { λ x y z. if same_z x y then pos 0 else pos 1 };

    fn mix(x: i64, y: i64, _z: i64) -> i64 {
        if x == y { 0 } else { 1 }
    }
}

// The k for which y is 2^k, 0 to 31; 32 where it is no such power.
pub fn exponent(y: i64) -> u32
    ensures { result < 32 → y ≡ pos (2 ^ result) }
{
    let k = y.trailing_zeros();
    if k < 32 && y == 1 << k { k } else { 32 }
}

// The quotient of a number by 2^k, rounded down: the number raised by 2^31, which 2^k divides, and shifted.
fn shifted(x: i64, k: u32) -> i64
    requires { (Small x) × (k < 32) }
    ensures { result ≡ floor_div x (pos (2 ^ k)) }
{
    let raised = (x + 2147483648) as u64;
    let least: u64 = 2147483648;
    ((raised >> k) as i64) - ((least >> k) as i64)
}

// Its remainder.
fn low_bits(x: i64, k: u32) -> i64
    requires { (Small x) × (k < 32) }
    ensures { result ≡ floor_mod x (pos (2 ^ k)) }
{
    x - (shifted(x, k) * (1 << k))
}

// An operation whose second number may be a power of two, given by its exponent.
pub trait ByPower: Mix {
    fn by_power(x: i64, k: u32) -> i64
        requires { (Small x) × (k < 32) }
        ensures { (z : ℤ) → result ≡ Self.mixed x (pos (2 ^ k)) z };
}

impl ByPower for Quotient {
    fn by_power(x: i64, k: u32) -> i64 {
        shifted(x, k)
    }
}

impl ByPower for Remainder {
    fn by_power(x: i64, k: u32) -> i64 {
        low_bits(x, k)
    }
}

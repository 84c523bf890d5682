// The product of polynomials over the bits, by shifts.
ghost use Rattle.std.specs.Prelude.{◌≡◌, ◌^◌, ◌<◌, ◌≤◌};
ghost use Rattle.binary.specs.Codes.{times_x};
ghost use Rattle.binary.specs.Products.{modulo};

// x times b, modulo x ^ n + tail.
fn times_x(n: u32, tail: u32, b: u32) -> u32
    requires degree { (0 < n) × (n ≤ 16) }
    requires codes { (tail < 2 ^ n) × (b < 2 ^ n) }
    ensures within { result < 2 ^ n }
    ensures value { result ≡ times_x n tail b }
{
    let shifted = (b << 1) & ((1 << n) - 1);
    if b >> (n - 1) == 1 {
        shifted ^ tail
    } else {
        shifted
    }
}

// a times b, modulo x ^ n + tail.
pub(crate) fn product(n: u32, tail: u32, a: u32, b: u32) -> u32
    requires degree { (0 < n) × (n ≤ 16) }
    requires codes { (tail < 2 ^ n) × (a < 2 ^ n) × (b < 2 ^ n) }
    ensures within { result < 2 ^ n }
    ensures value { result ≡ modulo n tail a b }
{
    let mut sum = 0;
    let mut power = b;
    for i in 0..n {
        if (a >> i) & 1 == 1 {
            sum ^= power;
        }
        power = times_x(n, tail, power);
    }
    sum
}

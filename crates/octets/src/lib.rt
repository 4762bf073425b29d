// Bytes: zeros, copies, equality, order, and numbers most significant byte first at any width.
#![tactic(auto)]

ghost use Rattle.std.specs.Prelude.{◌≡◌, ◌++◌, ◌≤◌, length, take, drop, replicate};
ghost use Rattle.model.specs.Octets.{big, value, twos, eq_bytes, lt_bytes};
ghost use Rattle.model.specs.Whole.{whole_int};

use model::Whole;

// All of b is 0.
pub fn clear(b: &mut [u8])
    ensures { b.new ≡ replicate (length b.old) 0 }
{
    b.fill(0);
}

// The first bytes are those of `src`.
pub fn put_bytes(out: &mut [u8], src: &[u8])
    requires { length src.now ≤ length out.old }
    ensures { out.new ≡ src.now ++ drop (length src.now) out.old }
{
    out[..src.len()].copy_from_slice(src);
}

// The first `width` bytes are x, most significant byte first.
pub fn put_number(out: &mut [u8], x: u64, width: usize)
    requires { width ≤ length out.old }
    ensures { out.new ≡ big width x ++ drop width out.old }
{
    let mut rest = x;
    for i in (0..width).rev() {
        out[i] = (rest % 256) as u8;
        rest /= 256;
    }
}

// The number in the first `width` bytes, most significant byte first.
pub fn number(s: &[u8], width: usize) -> u64
    requires { (width ≤ 8) × (width ≤ length s.now) }
    ensures { result ≡ value (take width s.now) }
{
    let mut v = 0;
    for b in &s[..width] {
        v = v * 256 + u64::from(*b);
    }
    v
}

// Whether a and b are the same bytes.
pub fn equal(a: &[u8], b: &[u8]) -> bool
    ensures { result ≡ eq_bytes a.now b.now }
{
    a == b
}

// Whether a is before b, by the first byte that differs, a prefix first.
#[tactic(auto, using(crate::proofs::Orders::lt_bytes_is))]
pub fn less(a: &[u8], b: &[u8]) -> bool
    ensures { result ≡ lt_bytes a.now b.now }
{
    a.cmp(b).is_lt()
}

// The two's complement of an integer in 64 bits, 0 where there is none.
pub fn bits(w: Whole) -> u64
    ensures { result ≡ twos 64 (whole_int w) }
{
    match w {
        Whole::Plus(m) => m,
        Whole::Minus(m) => m.wrapping_neg(),
        Whole::Other => 0,
    }
}

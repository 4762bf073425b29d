// What several crates use and no other crate is the home of: a byte as a number and a test as a byte, faults and kinds compared.
#![tactic(auto)]

ghost use Rattle.std.specs.Prelude.{◌≡◌, ◌∷◌, ◌≤◌, length, drop};
ghost use Rattle.model.specs.Faults.{is_fine, earlier};
ghost use Rattle.model.specs.Nav.{is_kind};
ghost use Rattle.model.specs.Catalog.{bit};
ghost use Rattle.leaf.specs.Bytes.{halves, second_low, second_high};

use model::{Fault, Kind};

// A byte as a number.
pub fn wide(b: u8) -> usize
    ensures { result ≡ b }
{
    usize::from(b)
}

// A test as a byte.
pub fn bit(b: bool) -> u8
    ensures { result ≡ bit b }
{
    u8::from(b)
}

// The first byte is b.
pub fn put_byte(out: &mut [u8], b: u8)
    requires { 1 ≤ length out.old }
    ensures { out.new ≡ b ∷ drop 1 out.old }
{
    out[0] = b;
}

// The halves of 64 bits of two's complement in the order of the integers.
#[tactic(auto, unfolding(crate::specs::Bytes::halves))]
pub fn biased(x: u64) -> u64
    ensures { result ≡ halves x }
{
    x.wrapping_add(1 << 63)
}

// The least byte that may follow a lead byte of UTF-8.
#[tactic(auto, unfolding(crate::specs::Bytes::second_low))]
pub fn second_low(b: u16) -> u8
    ensures { result ≡ second_low b }
{
    match b {
        224 => 160,
        240 => 144,
        _ => 128,
    }
}

// The greatest.
#[tactic(auto, unfolding(crate::specs::Bytes::second_high))]
pub fn second_high(b: u16) -> u8
    ensures { result ≡ second_high b }
{
    match b {
        237 => 159,
        244 => 143,
        _ => 191,
    }
}

// Whether there is no fault.
pub fn is_fine(f: Fault) -> bool
    ensures { result ≡ is_fine f }
{
    f == Fault::Fine
}

// The one of two faults that is checked for first.
pub fn earlier(f: Fault, g: Fault) -> Fault
    ensures { result ≡ earlier f g }
{
    f.min(g)
}

// Whether two kinds are the same.
pub fn is_kind(k: Kind, j: Kind) -> bool
    ensures { result ≡ is_kind k j }
{
    k == j
}

// Integers as a sign and a magnitude: to and from an atom, their order, and arithmetic that is exact or told to be outside 64 bits.
#![tactic(auto)]

ghost use Rattle.std.specs.Prelude.{◌≡◌, ◌+ℤ◌, ◌*ℤ◌};
ghost use Rattle.std.specs.Int.Signed.{lt_z, le_z};
ghost use Rattle.model.specs.Octets.{twos};
ghost use Rattle.model.specs.Value.{from_twos, int_of, int_atom};
ghost use Rattle.model.specs.declared.Mutator.TheVariants.{Divide, Remainder};
ghost use Rattle.integers.specs.Ints.{signed, int_in, as_int, fitted, calculated};

use model::{ATOM, Atom, Mutator};

// 2^63, the magnitude of the least integer of 64 bits, which has no positive one.
const EDGE: u64 = 1 << 63;

#[derive(Clone, Copy)]
pub struct Int {
    pub minus: bool,
    pub size: u64,
}

// A result, that it divides by zero, or that it is outside 64 bits.
#[derive(Clone, Copy)]
pub enum Exact {
    Number(Int),
    ByZero,
    Outside,
}

// The integer of a sign and a magnitude, 0 without a sign.
#[tactic(auto, unfolding(crate::specs::Ints::signed, crate::specs::Ints::as_int))]
pub fn of_parts(minus: bool, size: u64) -> Int
    ensures { result ≡ as_int (signed minus size) }
{
    Int {
        minus: minus && size != 0,
        size,
    }
}

// The integer that 64 bits of two's complement are.
#[tactic(auto, unfolding(crate::specs::Ints::as_int))]
fn of_bits(x: u64) -> Int
    ensures { result ≡ as_int (from_twos x) }
{
    if x < EDGE {
        return Int {
            minus: false,
            size: x,
        };
    }
    Int {
        minus: true,
        size: x.wrapping_neg(),
    }
}

// The integer of an atom.
pub fn of_atom(a: &Atom) -> Int
    ensures { result ≡ as_int (int_of a.now) }
{
    of_bits(octets::number(a, 8))
}

// Two's complement in 64 bits.
#[tactic(auto, unfolding(crate::specs::Ints::signed))]
fn bits(minus: bool, size: u64) -> u64
    ensures { result ≡ twos 64 (signed minus size) }
{
    if minus { size.wrapping_neg() } else { size }
}

// The atom of an integer.
pub fn to_atom(i: Int) -> Atom
    ensures { result ≡ int_atom (int_in i) }
{
    let mut a = [0; ATOM];
    octets::put_number(&mut a, bits(i.minus, i.size), 8);
    a
}

// The order of integers.
#[tactic(auto, unfolding(crate::specs::Ints::signed))]
fn less_parts(minus: bool, size: u64, other: bool, most: u64) -> bool
    ensures { result ≡ lt_z (signed minus size) (signed other most) }
{
    match (minus && size != 0, other && most != 0) {
        (true, true) => most < size,
        (true, false) => true,
        (false, true) => false,
        (false, false) => size < most,
    }
}

pub fn less(a: Int, b: Int) -> bool
    ensures { result ≡ lt_z (int_in a) (int_in b) }
{
    less_parts(a.minus, a.size, b.minus, b.size)
}

pub fn at_most(a: Int, b: Int) -> bool
    ensures { result ≡ le_z (int_in a) (int_in b) }
{
    !less_parts(b.minus, b.size, a.minus, a.size)
}

// An integer as a result: from -2^63 to 2^63-1.
#[tactic(auto, using(crate::proofs::Results::fit_big, crate::proofs::Results::fit_edge, crate::proofs::Results::fit_small))]
fn fit(minus: bool, size: u64) -> Exact
    ensures { result ≡ fitted (signed minus size) }
{
    if EDGE < size || !minus && size == EDGE {
        return Exact::Outside;
    }
    Exact::Number(of_parts(minus, size))
}

// m + n with their signs.
#[tactic(auto, using(crate::proofs::Results::fit_big, crate::proofs::Results::sum_same, crate::proofs::Results::sum_up, crate::proofs::Results::sum_down))]
fn sum(a: bool, m: u64, b: bool, n: u64) -> Exact
    ensures { result ≡ fitted (signed a m +ℤ signed b n) }
{
    if a == b {
        let Some(k) = m.checked_add(n) else {
            return Exact::Outside;
        };
        return fit(a, k);
    }
    if m < n { fit(b, n - m) } else { fit(a, m - n) }
}

#[tactic(auto, using(crate::proofs::Results::fit_big, crate::proofs::Results::times))]
fn product(a: bool, m: u64, b: bool, n: u64) -> Exact
    ensures { result ≡ fitted (signed a m *ℤ signed b n) }
{
    let Some(k) = m.checked_mul(n) else {
        return Exact::Outside;
    };
    fit(a != b, k)
}

// Rounded toward zero.
#[tactic(auto, using(crate::proofs::Results::zero_divide, crate::proofs::Results::quotient_is))]
fn quotient(a: bool, m: u64, b: bool, n: u64) -> Exact
    ensures { result ≡ calculated Divide (signed a m) (signed b n) }
{
    if n == 0 {
        return Exact::ByZero;
    }
    fit(a != b, m / n)
}

// With the dividend's sign.
#[tactic(auto, using(crate::proofs::Results::zero_remainder, crate::proofs::Results::remainder_is))]
fn remainder(a: bool, m: u64, b: bool, n: u64) -> Exact
    ensures { result ≡ calculated Remainder (signed a m) (signed b n) }
{
    if n == 0 {
        return Exact::ByZero;
    }
    fit(a, m % n)
}

// What a mutator makes of a with the operand b; insert and delete leave it.
#[tactic(auto, using(crate::proofs::Results::sign_not), unfolding(crate::specs::Ints::calculated))]
pub fn calculate(m: Mutator, a: Int, b: Int) -> Exact
    ensures { result ≡ calculated m (int_in a) (int_in b) }
{
    match m {
        Mutator::Add => sum(a.minus, a.size, b.minus, b.size),
        Mutator::Subtract => sum(a.minus, a.size, !b.minus, b.size),
        Mutator::Multiply => product(a.minus, a.size, b.minus, b.size),
        Mutator::Divide => quotient(a.minus, a.size, b.minus, b.size),
        Mutator::Remainder => remainder(a.minus, a.size, b.minus, b.size),
        Mutator::Insert | Mutator::Delete => fit(a.minus, a.size),
    }
}

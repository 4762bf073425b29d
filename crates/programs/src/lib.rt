// What several programs share: the texts in what one reads, and what is printed of bytes and of a status.
#![tactic(auto)]

ghost use Rattle.std.specs.Prelude.{◌≡◌, ◌≢◌, ℕ, ◌-◌, ◌*◌, ◌/◌, ◌<◌, ◌≤◌, min, true, false, length, take, slice_index, MatchOption};
ghost use Rattle.std.specs.Iterator.{at_most};
ghost use Rattle.model.specs.Refusals.{number_of, is_refusal};
ghost use Rattle.programs.specs.Texts.{LeadsTo, IsCut};

use model::Status;

// The texts in bytes, each after its length in two bytes; one that is not whole is none, and neither is what follows it.
#[derive(Drop)]
pub struct Texts<'a>(pub &'a [u8]);

impl<'a> Iterator for Texts<'a> {
    type Item = &'a [u8];

    ghost next_gives = { λ before r after. MatchOption r (IsCut before.0.now) (λ t. LeadsTo before.0.now t.now after.0.now) };

    ghost remaining = { λ texts. at_most (length texts.0.now) };

    fn next(&mut self) -> Option<&'a [u8]> {
        let (len, rest) = self.0.split_first_chunk()?;
        let (text, rest) = rest.split_at_checked(usize::from(u16::from_be_bytes(*len)))?;
        self.0 = rest;
        Some(text)
    }
}

// Bytes as they are, to standard output.
pub fn put(bytes: &[u8]) {
    io::write_all(1, bytes);
}

// The hexadecimal digit of a number below 16.
fn digit(n: u8) -> u8
    requires { n < 16 }
{
    match n {
        0..=9 => b'0' + n,
        _ => b'a' + (n - 10),
    }
}

// Bytes in hexadecimal at the start of a buffer, as far as there is room.
fn hex<'a>(bytes: &[u8], out: &'a mut [u8]) -> &'a [u8]
    ensures { length result.now ≡ 2 * min (length bytes.now) (length out.old / 2) }
{
    let n = bytes.len().min(out.len() / 2);
    let out = &mut out[..2 * n];
    for (pair, byte) in out.as_chunks_mut().0.iter_mut().zip(bytes) {
        *pair = [digit(*byte / 16), digit(*byte % 16)];
    }
    out
}

// Bytes that are turned into hexadecimal at a time, so that as many are written at a time.
const PART: usize = 1024;

// Bytes in hexadecimal, to standard output.
pub fn put_hex(bytes: &[u8]) {
    for part in bytes.chunks(PART) {
        put(hex(part, &mut [0; 2 * PART]));
    }
}

// The bytes without the zeros at the end.
pub fn used(bytes: &[u8]) -> &[u8]
    ensures start { result.now ≡ take (length result.now) bytes.now }
    ensures zeros { (k : ℕ) → length result.now ≤ k → slice_index bytes.now k ≡ 0 }
    ensures last { 0 < length result.now → slice_index bytes.now (length result.now - 1) ≢ 0 }
{
    let mut rest = bytes;
    while let [front @ .., 0] = rest {
        rest = front;
    }
    rest
}

// The number of a refusal, if the status is one.
pub fn refusal_of(status: Status) -> Option<u64>
    ensures { MatchOption result (is_refusal status ≡ false) (λ n. (is_refusal status ≡ true) × (n ≡ number_of status)) }
{
    match status {
        Status::Disordered => Some(1),
        Status::WrongLength => Some(2),
        Status::BadSchema => Some(3),
        Status::BadRequest => Some(4),
        Status::OtherDatabase => Some(5),
        Status::BadFreshIds => Some(6),
        Status::AnswerTooLong => Some(7),
        Status::BadRecord => Some(8),
        Status::OtherRun => Some(9),
        Status::NumbersSpent => Some(10),
        Status::Accepted | Status::Repeat | Status::Behind | Status::Heard | Status::Applied =>
            None,
    }
}

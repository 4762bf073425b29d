// Names read from a text into cells, and versions.
#![tactic(auto)]

ghost use Rattle.std.specs.Prelude.{◌≡◌};
ghost use Rattle.inner.specs.Positions.{tree_at};
ghost use Rattle.model.specs.SchemaText.{is_version};
ghost use Rattle.names.specs.Names.{name_cell};

use model::{ATOM, Atom};

// The string at `at` as an atom, where it fits in one; else, and of any other value, the empty one.
pub fn name_at(text: &[u8], at: usize) -> Atom
    ensures { result ≡ name_cell (tree_at text.now at) }
{
    let mut cell = [0u8; ATOM];
    let f = text::body_at(text, at);
    let Some(i) = f else {
        return cell;
    };
    let w = text::decode(text, i, &mut cell[1..]);
    match w {
        Some(n) => {
            cell[0] = n as u8;
            cell
        }
        None => [0u8; ATOM],
    }
}

// Whether a text is a version: digits, dot, digits, dot, digits.
pub fn is_version(t: &[u8]) -> bool
    ensures { result ≡ is_version t.now }
{
    let mut dots: usize = 2;
    let mut seen = false;
    for b in t {
        if b.is_ascii_digit() {
            seen = true;
        } else if *b == b'.' && 0 < dots && seen {
            dots -= 1;
            seen = false;
        } else {
            return false;
        }
    }
    dots == 0 && seen
}

// The elements of a value as written, all together: of their type, in their limits, different, and their atoms.
#![tactic(auto)]

ghost use Rattle.std.specs.Prelude.{◌≡◌, true, pos};
ghost use Rattle.std.specs.Int.Signed.{le_z};
ghost use Rattle.model.specs.Base.{member, distinct};
ghost use Rattle.inner.specs.Positions.{well_at, tree_at};
ghost use Rattle.model.specs.Catalog.{base_numbered};
ghost use Rattle.model.specs.Value.{from_twos, in_limits, atom_in_limits};
ghost use Rattle.model.specs.Catalog.{column_from};
ghost use Rattle.elements.specs.Elements.{elements_from, elements_fine};
ghost use Rattle.uuids.specs.Named.{names_at, Running};
ghost use Rattle.element_atoms.specs.Atoms.{atom_as, atoms_of};
ghost use Rattle.element_sets.specs.Tallies.{Sees, put_atom, Tallied};

use element_atoms::Atom;
use model::{ATOM, Atoms, ELEMENTS, Entry};

// What is seen of one element: that it is of its type, not a string above 24 bytes, and in its column's limits.
#[derive(Clone, Copy)]
pub struct Seen {
    pub typed: bool,
    pub short: bool,
    pub within: bool,
}

// The same of all elements, and how many there are.
#[derive(Clone, Copy)]
pub struct Tally {
    pub count: usize,
    pub typed: bool,
    pub short: bool,
    pub within: bool,
}

// The order of integers in two's complement.
fn at_most(x: u64, y: u64) -> bool
    ensures { result ≡ le_z (from_twos x) (from_twos y) }
{
    leaf::biased(x) <= leaf::biased(y)
}

// Whether an integer in two's complement is in a column's limits.
pub fn in_limits(column: &Entry, x: u64) -> bool
    ensures { result ≡ in_limits (column_from column.now) (from_twos x) }
{
    at_most(catalog::low(column), x) && at_most(x, catalog::high(column))
}

// Whether a length is in a column's limits.
pub fn count_in_limits(column: &Entry, n: u64) -> bool
    ensures { result ≡ in_limits (column_from column.now) (pos n) }
{
    let low = catalog::low(column);
    let high = catalog::high(column);
    (9223372036854775808 <= low || low <= n) && high < 9223372036854775808 && n <= high
}

// Whether an atom is in its column's limits.
pub fn within(column: &Entry, cell: &model::Atom) -> bool
    ensures { result ≡ atom_in_limits (column_from column.now) (column_from column.now).base cell.now }
{
    match catalog::kind(column) {
        0 => in_limits(column, octets::number(cell, 8)),
        2 => {
            let n = atom::count_chars(atom::text_of(cell));
            count_in_limits(column, n as u64)
        }
        _ => true,
    }
}

// What is seen of the element at `at`, and its atom where it is not a long string.
fn see(
    text: &[u8],
    ends: &[u16],
    names: &[u8],
    column: &Entry,
    at: usize,
    cell: &mut model::Atom,
) -> Seen
    requires running { Running text.now ends.now names.now }
    requires at_value { well_at text.now at ≡ true }
    ensures { Sees (names_at text.now names.now) (column_from column.now) (tree_at text.now at) result.typed result.short result.within cell.new }
{
    let kind = catalog::kind(column);
    let a = element_atoms::atom_at(text, ends, names, kind, at, cell);
    match a {
        Atom::Wrong => Seen {
            typed: false,
            short: true,
            within: within(column, cell),
        },
        Atom::Long => {
            let n = element_atoms::long_chars(text, at);
            Seen {
                typed: true,
                short: false,
                within: count_in_limits(column, n as u64),
            }
        }
        Atom::Fits => Seen {
            typed: true,
            short: true,
            within: within(column, cell),
        },
    }
}

// An atom put at place i, if that is one of the four.
fn put_atom(atoms: &mut Atoms, i: usize, cell: &model::Atom)
    ensures { atoms.new ≡ put_atom i cell.now atoms.old }
{
    if i < ELEMENTS {
        atoms[i] = *cell;
    }
}

// What is seen of all elements from f on, and their atoms where they are at most four and none is a long string.
pub fn tally_from(
    text: &[u8],
    ends: &[u16],
    names: &[u8],
    column: &Entry,
    set: bool,
    f: Option<usize>,
    atoms: &mut Atoms,
) -> Tally
    requires running { Running text.now ends.now names.now }
    requires f_value { elements_fine text.now set f ≡ true }
    ensures { Tallied (names_at text.now names.now) (column_from column.now) (elements_from text.now set f) result.count result.typed result.short result.within atoms.new }
{
    *atoms = [[0u8; ATOM]; ELEMENTS];
    let mut g = f;
    let mut count = 0;
    let mut typed = true;
    let mut short = true;
    let mut within = true;
    while let Some(p) = g {
        let mut cell = [0u8; ATOM];
        let s = see(text, ends, names, column, p, &mut cell);
        put_atom(atoms, count, &cell);
        count += 1;
        typed &= s.typed;
        short &= s.short;
        within &= s.within;
        g = elements::next_element(text, ends, p, set);
    }
    Tally {
        count,
        typed,
        short,
        within,
    }
}

// Whether the element at `at` is again among those from f on.
fn again(
    text: &[u8],
    ends: &[u16],
    names: &[u8],
    kind: u8,
    set: bool,
    f: Option<usize>,
    at: usize,
) -> bool
    requires running { Running text.now ends.now names.now }
    requires at_value { well_at text.now at ≡ true }
    requires f_value { elements_fine text.now set f ≡ true }
    ensures { result ≡ member (atom_as (names_at text.now names.now) (base_numbered kind) (tree_at text.now at)) (atoms_of (names_at text.now names.now) (base_numbered kind) (elements_from text.now set f)) }
{
    let mut cell = [0u8; ATOM];
    let a = element_atoms::atom_at(text, ends, names, kind, at, &mut cell);
    match a {
        Atom::Wrong | Atom::Fits => {
            element_atoms::cell_among(text, ends, names, kind, set, f, &cell)
        }
        Atom::Long => element_atoms::long_among(text, ends, set, f, at),
    }
}

// Whether all elements from f on are different.
pub fn distinct_from(
    text: &[u8],
    ends: &[u16],
    names: &[u8],
    kind: u8,
    set: bool,
    f: Option<usize>,
) -> bool
    requires running { Running text.now ends.now names.now }
    requires f_value { elements_fine text.now set f ≡ true }
    ensures { result ≡ distinct (atoms_of (names_at text.now names.now) (base_numbered kind) (elements_from text.now set f)) }
{
    let mut g = f;
    while let Some(p) = g {
        let n = elements::next_element(text, ends, p, set);
        let d = again(text, ends, names, kind, set, n, p);
        if d {
            return false;
        }
        g = n;
    }
    true
}

// Sets of atoms, and the canonical form of a value.
#![tactic(auto)]

ghost use Rattle.std.specs.Prelude.{◌≡◌, ◌&&◌, [], ◌∷◌, ◌++◌, ◌≤◌, length, take, drop};
ghost use Rattle.model.specs.Limits.{most_elements};
ghost use Rattle.model.specs.Base.{all, member, distinct, eq_lists};
ghost use Rattle.model.specs.Schema.{Base, Column, scalar};
ghost use Rattle.model.specs.Catalog.{base_numbered};
ghost use Rattle.model.specs.Value.{zeros, ascending, placed, sorted, well_atom, byte_atom, canonical_for, value_of, union};
ghost use Rattle.value.specs.Places.{place_in};

use model::{ATOM, Atom, Atoms, ELEMENTS};

// Whether x is among the elements.
pub fn member(x: &Atom, l: &[Atom]) -> bool
    ensures { result ≡ member x.now l.now }
{
    l.iter().any(|e| atom::same(x, e))
}

// Whether all elements are different.
pub fn distinct(l: &[Atom]) -> bool
    ensures { result ≡ distinct l.now }
{
    for (i, x) in l.iter().enumerate() {
        if member(x, &l[i + 1..]) {
            return false;
        }
    }
    true
}

// Whether two lists of elements are the same.
pub fn equal(l: &[Atom], m: &[Atom]) -> bool
    ensures { result ≡ eq_lists l.now m.now }
{
    if l.len() != m.len() {
        return false;
    }
    // One atom after another: with `l == m` a mark of 32 rows takes 1.4 times as long, since it compares byte by byte.
    for i in 0..l.len() {
        if !atom::same(&l[i], &m[i]) {
            return false;
        }
    }
    true
}

// Whether all atoms are well formed for a base type; whether all are zero. Their type says how many bytes they have.
fn all_well(kind: u8, l: &[Atom]) -> bool
    ensures { result ≡ all (λ a. well_atom (base_numbered kind) a && byte_atom a) l.now }
{
    l.iter().all(|a| atom::well_atom(kind, a))
}

fn all_blank(l: &[Atom]) -> bool
    ensures { result ≡ all (λ a. zeros a && byte_atom a) l.now }
{
    l.iter().all(|a| atom::blank_from(a, 0))
}

// Whether each atom is before those after it: before the next one, which is enough.
pub fn ascending(kind: u8, l: &[Atom]) -> bool
    ensures { result ≡ ascending (base_numbered kind) l.now }
{
    for i in 1..l.len() {
        if !atom::less(kind, &l[i - 1], &l[i]) {
            return false;
        }
    }
    true
}

// The place of x among atoms in order: how many stand before the first that x is less than.
fn place(kind: u8, l: &[Atom], x: &Atom) -> usize
    ensures { result ≡ place_in (base_numbered kind) x.now l.now }
{
    l.iter()
        .position(|e| atom::less(kind, x, e))
        .unwrap_or(l.len())
}

// x at place i, those from there on moved up by one, the last one lost.
fn insert_at(atoms: Atoms, i: usize, x: Atom) -> Atoms
    requires { i ≤ most_elements }
    ensures { result ≡ take most_elements (take i atoms ++ x ∷ drop i atoms) }
{
    let mut a = atoms;
    if i < ELEMENTS {
        a[i..].rotate_right(1);
        a[i] = x;
    }
    a
}

// The first n atoms are in order: the same with x in its place.
fn put_in_order(kind: u8, atoms: Atoms, n: usize, x: Atom) -> Atoms
    requires { n ≤ most_elements }
    ensures { result ≡ take most_elements (placed (base_numbered kind) x (take n atoms) ++ drop n atoms) }
{
    let p = place(kind, &atoms[..n], &x);
    insert_at(atoms, p, x)
}

// The first n atoms sorted, and zeros.
pub fn sort(kind: u8, atoms: Atoms, n: usize) -> Atoms
    requires { n ≤ most_elements }
    ensures { result ≡ (value_of (sorted (base_numbered kind) (take n atoms))).atoms }
{
    let mut s = [[0; ATOM]; ELEMENTS];
    for i in (0..n).rev() {
        let t = put_in_order(kind, s, n - 1 - i, atoms[i]);
        s = t;
    }
    s
}

// The first n atoms are a set: the same with x.
pub fn insert(kind: u8, atoms: Atoms, n: usize, x: Atom) -> Atoms
    requires { n ≤ most_elements }
    ensures { result ≡ take most_elements (union (base_numbered kind) (take n atoms) (x ∷ []) ++ drop n atoms) }
{
    if member(&x, &atoms[..n]) {
        atoms
    } else {
        put_in_order(kind, atoms, n, x)
    }
}

// How many elements the set has with x.
pub fn insert_count(l: &[Atom], x: &Atom) -> usize
    ensures { (k : Base) → result ≡ length (union k l.now (x.now ∷ [])) }
{
    l.len() + usize::from(!member(x, l))
}

// How many elements the set has with those of `more`.
#[tactic(auto, using(crate::proofs::Counts::union_on))]
pub fn union_count(l: &[Atom], more: &[Atom]) -> usize
    ensures { (k : Base) → result ≡ length (union k l.now more.now) }
{
    let mut n = l.len();
    for (i, x) in more.iter().enumerate() {
        if !member(x, l) && !member(x, &more[..i]) {
            n += 1;
        }
    }
    n
}

// The first n atoms, and zeros.
pub fn first(atoms: Atoms, n: usize) -> Atoms
    requires { n ≤ most_elements }
    ensures { result ≡ (value_of (take n atoms)).atoms }
{
    let mut s = [[0; ATOM]; ELEMENTS];
    s[..n].copy_from_slice(&atoms[..n]);
    s
}

// Whether `count` elements in the atoms of a set are in canonical form for a base type, of a scalar where `one`.
#[tactic(auto, using(crate::proofs::Forms::judged))]
pub fn canonical(kind: u8, one: bool, count: u8, atoms: &[Atom]) -> bool
    ensures { (c : Column) → c.base ≡ base_numbered kind → scalar c ≡ one → result ≡ canonical_for c (record { count = count; atoms = atoms.now }) }
{
    let n = leaf::wide(count);
    if atoms.len() != ELEMENTS || ELEMENTS < n || one && n != 1 {
        return false;
    }
    let (used, rest) = atoms.split_at(n);
    all_well(kind, used) && ascending(kind, used) && all_blank(rest)
}

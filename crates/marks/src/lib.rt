// Marks of rows: which of them a condition leaves, how many are left, and the rows without them. No text is read here.
#![tactic(auto)]

ghost use Rattle.std.specs.Prelude.{◌≡◌, Bool, true, List, [], ℕ, ◌≤◌, ◌<◌, eqb, length, get_or, set};
ghost use Rattle.std.specs.Int.Signed.{lt_z, le_z};
ghost use Rattle.model.specs.Limits.{most_rows, id_bytes, atom_bytes};
ghost use Rattle.model.specs.Octets.{value};
ghost use Rattle.model.specs.Base.{all};
ghost use Rattle.model.specs.Schema.{Column};
ghost use Rattle.model.specs.Value.{uuid_atom};
ghost use Rattle.model.specs.Conditions.{Test, first_int};
ghost use Rattle.inner.specs.Working.{table_in};
ghost use Rattle.integers.specs.Ints.{as_int};
ghost use Rattle.marks.specs.Marks.{every, met, InRow, atoms_at, Sized, Narrowed, OfTable, MarkedRows, marked, Deleted};

use integers::Int;
use model::{ATOM, Atom, Function, ID, ROWS, Row};

// What a condition is about: a column by its place, or the row's id.
#[derive(Clone, Copy)]
pub enum Place {
    Column(usize),
    Id,
}

// The first of some atoms as an integer, 0 where there is none.
fn first_of(xs: &[Atom]) -> Int
    ensures { result ≡ as_int (first_int xs.now) }
{
    match xs.first() {
        Some(x) => integers::of_atom(x),
        None => integers::of_atom(&[0; ATOM]),
    }
}

// The first integers of two lists, in order.
fn less(xs: &[Atom], ys: &[Atom]) -> bool
    ensures { result ≡ lt_z (first_int xs.now) (first_int ys.now) }
{
    integers::less(first_of(xs), first_of(ys))
}

fn at_most(xs: &[Atom], ys: &[Atom]) -> bool
    ensures { result ≡ le_z (first_int xs.now) (first_int ys.now) }
{
    integers::at_most(first_of(xs), first_of(ys))
}

// Whether each element of l is among xs, or none is.
fn every(stored: bool, xs: &[Atom], l: &[Atom]) -> bool
    ensures { result ≡ every stored xs.now l.now }
{
    l.iter().all(|x| value::member(x, xs) == stored)
}

// What the function of a condition says of the elements xs of a column and those that were written, sorted where they are to be equal.
fn compare(f: Function, xs: &[Atom], l: &[Atom]) -> bool
    ensures { result ≡ met f xs.now l.now }
{
    match f {
        Function::Less => less(xs, l),
        Function::AtMost => at_most(xs, l),
        Function::Equal => value::equal(xs, l),
        Function::Unequal => !value::equal(xs, l),
        Function::AtLeast => at_most(l, xs),
        Function::Greater => less(l, xs),
        Function::Includes => every(true, xs, l),
        Function::Excludes => every(false, xs, l),
    }
}

// An id as an atom.
fn atom_of(id: &[u8]) -> Atom
    requires { length id.now ≡ id_bytes }
    ensures { result ≡ uuid_atom (value id.now) }
{
    let mut cell = [0; ATOM];
    cell[..ID].copy_from_slice(id);
    cell
}

// What a condition says of a row.
fn holds(place: Place, f: Function, l: &[Atom], row: &Row) -> bool
    requires { InRow place }
    ensures { result ≡ met f (atoms_at place row.now) l.now }
{
    match place {
        Place::Column(c) => {
            let xs = rows::atoms_in(row, c);
            let n = references::size(rows::count_of(row, c));
            compare(f, &xs[..n], l)
        }
        Place::Id => {
            let one = [atom_of(rows::id_of(row))];
            compare(f, &one, l)
        }
    }
}

// The marks that a condition leaves, by its function and the elements that were written.
pub fn narrow(place: Place, f: Function, l: &[Atom], rows: &[Row], marks: &mut [bool; ROWS])
    requires { InRow place × (length rows.now ≤ most_rows) }
    ensures { Narrowed (λ row. met f (atoms_at place row) l.now) rows.now marks.old marks.new }
{
    for (i, row) in rows.iter().enumerate() {
        if marks[i] {
            marks[i] = holds(place, f, l, row);
        }
    }
}

// Whether each atom has 25 bytes, as its type says.
fn is_sized(xs: &[Atom]) -> bool
    ensures { (result ≡ true) × (all (λ x. eqb (length x) atom_bytes) xs.now ≡ true) }
{
    let mut ok = true;
    for x in xs {
        let bytes = &x[..];
        ok &= bytes.len() == ATOM;
    }
    ok
}

// The same of what a condition is about.
fn sized_at(place: Place, row: &Row) -> bool
    requires { InRow place }
    ensures { (result ≡ true) × Sized (atoms_at place row.now) }
{
    match place {
        Place::Column(c) => {
            let xs = rows::atoms_in(row, c);
            let n = references::size(rows::count_of(row, c));
            is_sized(&xs[..n])
        }
        Place::Id => {
            let one = [atom_of(rows::id_of(row))];
            is_sized(&one)
        }
    }
}

// The marks that a condition leaves which says the same of all that a row can have: a string above 24 bytes is none, nor are more than four elements.
pub fn narrow_all(place: Place, stays: bool, rows: &[Row], marks: &mut [bool; ROWS])
    requires { InRow place × (length rows.now ≤ most_rows) }
    ensures { (p : List (List ℕ) → Bool) → ((row : List (List ℕ)) → Sized (atoms_at place row) → p row ≡ stays) → Narrowed p rows.now marks.old marks.new }
{
    for (i, row) in rows.iter().enumerate() {
        if marks[i] {
            marks[i] = stays & sized_at(place, row);
        }
    }
}

// Marks of the rows of a table.
pub fn of_table(table: u8, rows: &[Row]) -> [bool; ROWS]
    requires { length rows.now ≤ most_rows }
    ensures { OfTable table rows.now result }
{
    let mut marks = [false; ROWS];
    for (i, row) in rows.iter().enumerate() {
        marks[i] = table == rows::table_of(row);
    }
    marks
}

// How many of the first n are marked.
pub fn count(marks: &[bool; ROWS], n: usize) -> usize
    requires { n ≤ most_rows }
    ensures { result ≡ marked marks.now n }
{
    marks[..n].iter().filter(|mark| **mark).count()
}

// The row at one place copied to another.
fn copy_row(rows: &mut [Row], to: usize, from: usize)
    requires { (to ≤ from) × (from < length rows.old) }
    ensures { rows.new ≡ set rows.old to (get_or rows.old from []) }
{
    if to < from {
        rows[to] = rows[from];
    }
}

// The marked ones of the first n rows taken out; how many are left. The rows after those are free.
pub fn delete_rows(marks: &[bool; ROWS], rows: &mut [Row], n: usize) -> usize
    requires { (n ≤ most_rows) × (n ≤ length rows.old) }
    ensures { (cs : List Column) (table : ℕ) (ts : List Test) → MarkedRows cs ts table n rows.old marks.now → Deleted cs table ts n result rows.old rows.new }
{
    let mut kept = 0;
    for i in 0..n {
        if !marks[i] {
            copy_row(rows, kept, i);
            kept += 1;
        }
    }
    kept
}

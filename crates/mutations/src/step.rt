// One mutation on one column of a row: arithmetic, insert, delete.
ghost use Rattle.std.specs.Prelude.{◌≡◌, true, map, ◌≤◌, ◌<◌, length, take};
ghost use Rattle.model.specs.Limits.{most_columns, most_elements};
ghost use Rattle.model.specs.Catalog.{base_numbered};
ghost use Rattle.model.specs.Value.{int_of, all_in_limits, value_of, union, without};
ghost use Rattle.model.specs.Catalog.{column_from};
ghost use Rattle.integers.specs.Ints.{int_in};
ghost use Rattle.uuids.specs.Named.{Running};
ghost use Rattle.mutations.specs.Steps.{result_atoms, Calculated, elements_of, arithmetic_on, inserted_on, deleted_on, Kept, Results, Stepped};
ghost use Rattle.mutations.specs.Mutating.{elements_read, mutation_from, Ready};
ghost use Rattle.mutations.specs.Rows.{RowStepped};
ghost use Rattle.model.specs.Base.{member};

use crate::read::Mutation;
use integers::{Exact, Int};
use model::{ATOM, Atoms, ELEMENTS, Entry, Fault, Mutator, Row};

// What the mutator makes of each element with the operand, in front of `out`; or that this divides by zero or is outside 64 bits: then
// `out` is free.
fn calculate_each(m: Mutator, b: Int, xs: &[model::Atom], out: &mut [model::Atom]) -> Fault
    requires { length xs.now ≤ length out.old }
    ensures { Calculated m (int_in b) xs.now result out.old out.new }
{
    for (i, x) in xs.iter().enumerate() {
        match integers::calculate(m, integers::of_atom(x), b) {
            Exact::Number(z) => out[i] = integers::to_atom(z),
            Exact::ByZero => return Fault::Domain,
            Exact::Outside => return Fault::Range,
        }
    }
    Fault::Fine
}

// Whether all elements are in a column's limits.
fn all_within(column: &Entry, l: &[model::Atom]) -> bool
    ensures { result ≡ all_in_limits (column_from column.now) l.now }
{
    l.iter().all(|x| element_sets::within(column, x))
}

// The results of arithmetic, in front of `out`, and how they are judged; `out` is free behind them, and after a fault.
fn results(column: &Entry, m: Mutator, b: Int, xs: &[model::Atom], out: &mut [model::Atom]) -> Fault
    requires { length xs.now ≤ length out.old }
    ensures { Results (arithmetic_on (column_from column.now) m (int_in b) xs.now) (length xs.now) (result_atoms m (int_in b) xs.now) result out.new }
{
    let n = xs.len();
    let f = calculate_each(m, b, xs, out);
    let ok = leaf::is_fine(f);
    if !ok {
        return f;
    }
    if value::distinct(&out[..n]) && all_within(column, &out[..n]) {
        return Fault::Fine;
    }
    Fault::Constraint
}

// Arithmetic on column c of a row, which acts on each element.
fn arithmetic(column: &Entry, m: Mutator, operand: &model::Atom, row: &mut Row, c: usize) -> Fault
    requires { c < most_columns }
    ensures { Stepped (arithmetic_on (column_from column.now) m (int_of operand.now) (elements_of c row.old)) c result row.old row.new }
{
    let n = references::size(rows::count_of(row, c));
    let atoms = rows::atoms_in(row, c);
    let mut out = [[0u8; ATOM]; ELEMENTS];
    let f = results(column, m, integers::of_atom(operand), &atoms[..n], &mut out);
    let ok = leaf::is_fine(f);
    if ok {
        let sorted = value::sort(0, out, n);
        rows::set_column(row, c, n as u8, &sorted);
    }
    f
}

// The first n atoms are a set: the same with those of `more`, and zeros.
fn unite(kind: u8, atoms: Atoms, n: usize, more: &[model::Atom]) -> Atoms
    requires n_le_most_elements { n ≤ most_elements }
    requires more_len_bound { length (union (base_numbered kind) (take n atoms) more.now) ≤ most_elements }
    ensures { result ≡ (value_of (union (base_numbered kind) (take n atoms) more.now)).atoms }
{
    let mut s = value::first(atoms, n);
    let mut m = n;
    for x in more {
        let k = value::insert_count(&s[..m], x);
        s = value::insert(kind, s, m, *x);
        m = k;
    }
    s
}

// Elements inserted into column c of a row.
fn insert(column: &Entry, more: &[model::Atom], row: &mut Row, c: usize) -> Fault
    requires c_lt_most_columns { c < most_columns }
    requires more_len_bound { length more.now ≤ most_elements }
    ensures { Stepped (inserted_on (column_from column.now) more.now (elements_of c row.old)) c result row.old row.new }
{
    let kind = catalog::kind(column);
    let max = leaf::wide(catalog::maximum(column));
    let n = references::size(rows::count_of(row, c));
    let atoms = rows::atoms_of(row, c);
    let u = value::union_count(&atoms[..n], more);
    if ELEMENTS < u {
        return Fault::Resources;
    }
    if max < u {
        return Fault::Constraint;
    }
    let all = unite(kind, atoms, n, more);
    rows::set_column(row, c, u as u8, &all);
    Fault::Fine
}

// Whether a delete takes an element out.
fn is_deleted(
    text: &[u8],
    ends: &[u16],
    names: &[u8],
    kind: u8,
    m: Mutation,
    atoms: &Atoms,
    x: &model::Atom,
) -> bool
    requires running { Running text.now ends.now names.now }
    requires ready { Ready text.now m atoms.now }
    ensures { result ≡ member x.now (elements_read text.now names.now (base_numbered kind) m atoms.now) }
{
    if m.fits {
        return value::member(x, &atoms[..m.count]);
    }
    let e = elements::elements_at(text, ends, m.at);
    element_atoms::cell_among(text, ends, names, kind, e.set, e.first, x)
}

// The elements that a delete leaves, and zeros; and how many they are.
fn keep_others(
    text: &[u8],
    ends: &[u16],
    names: &[u8],
    kind: u8,
    m: Mutation,
    atoms: &Atoms,
    xs: &[model::Atom],
    out: &mut Atoms,
) -> usize
    requires running { Running text.now ends.now names.now }
    requires ready { Ready text.now m atoms.now }
    requires xs_len_bound { length xs.now ≤ most_elements }
    ensures { Kept (without (elements_read text.now names.now (base_numbered kind) m atoms.now) xs.now) result out.new }
{
    *out = [[0u8; ATOM]; ELEMENTS];
    let mut n = 0;
    for x in xs {
        if !is_deleted(text, ends, names, kind, m, atoms, x) {
            out[n] = *x;
            n += 1;
        }
    }
    n
}

// The elements of a mutation deleted from its column of a row.
fn delete(
    text: &[u8],
    ends: &[u16],
    names: &[u8],
    column: &Entry,
    m: Mutation,
    atoms: &Atoms,
    row: &mut Row,
) -> Fault
    requires running { Running text.now ends.now names.now }
    requires ready { Ready text.now m atoms.now }
    requires place_lt_most_columns { m.place < most_columns }
    ensures { Stepped (deleted_on (column_from column.now) (elements_read text.now names.now (column_from column.now).base m atoms.now) (elements_of m.place row.old)) m.place result row.old row.new }
{
    let c = m.place;
    let kind = catalog::kind(column);
    let min = leaf::wide(catalog::minimum(column));
    let n = references::size(rows::count_of(row, c));
    let xs = rows::atoms_of(row, c);
    let mut left = [[0u8; ATOM]; ELEMENTS];
    let k = keep_others(text, ends, names, kind, m, atoms, &xs[..n], &mut left);
    let few = k < min;
    if few {
        return Fault::Constraint;
    }
    rows::set_column(row, c, k as u8, &left);
    Fault::Fine
}

// A mutation that has no fault on a row; after a fault of this step the row is as it was.
pub fn mutate_row(
    text: &[u8],
    ends: &[u16],
    names: &[u8],
    columns: &[Entry],
    m: Mutation,
    atoms: &Atoms,
    row: &mut Row,
) -> Fault
    requires running { Running text.now ends.now names.now }
    requires ready { Ready text.now m atoms.now }
    requires place_in_bounds { (m.place < length columns.now) × (length columns.now ≤ most_columns) }
    ensures { RowStepped (map column_from columns.now) (mutation_from text.now names.now columns.now m atoms.now) result row.old row.new }
{
    let c = m.place;
    let column = &columns[c];
    match m.mutator {
        Mutator::Insert => insert(column, &atoms[..m.count], row, c),
        Mutator::Delete => delete(text, ends, names, column, m, atoms, row),
        _ => arithmetic(column, m.mutator, &atoms[0], row, c),
    }
}

// Whether values meet their types: count, range, and length in characters, by the columns' entries of a catalog.
#![tactic(auto)]

ghost use Rattle.std.specs.Prelude.{◌≡◌, ◌+◌, ◌≤◌, ◌<◌, pos, length, take, get_or};
ghost use Rattle.model.specs.Limits.{most_columns};
ghost use Rattle.model.specs.Text.{chars};
ghost use Rattle.model.specs.Catalog.{base_numbered, base_offset, column_from};
ghost use Rattle.model.specs.Value.{int_of, from_twos, in_limits, atom_in_limits};
ghost use Rattle.inner.specs.Working.{value_in};
ghost use Rattle.catalog.specs.Accepted.{Accepted};
ghost use Rattle.row_types.specs.Met.{all_met, met_for, met_from, row_meets, rows_meet};

use model::{ATOM, Atom, Catalog, ELEMENTS, Entry, Row};

// The atom of an integer, given in two's complement.
fn integer(x: u64) -> Atom
    ensures { int_of result ≡ from_twos x }
{
    let mut a = [0u8; ATOM];
    octets::put_number(&mut a, x, 8);
    a
}

// The atom of the number of a text's characters.
fn size_of(t: &[u8]) -> Atom
    ensures { int_of result ≡ pos (chars t.now) }
{
    integer(atom::count_chars(t) as u64)
}

// Whether an integer's atom is in a column's limits.
fn in_limits(entry: &Entry, a: &Atom) -> bool
    ensures { result ≡ in_limits (column_from entry.now) (int_of a.now) }
{
    let low = integer(catalog::low(entry));
    let high = integer(catalog::high(entry));
    !atom::less_integers(a, &low) && !atom::less_integers(&high, a)
}

// Whether an atom is in its column's limits.
fn atom_meets(entry: &Entry, a: &Atom) -> bool
    ensures { result ≡ atom_in_limits (column_from entry.now) (base_numbered (get_or entry.now base_offset 0)) a.now }
{
    match catalog::kind(entry) {
        0 => in_limits(entry, a),
        2 => in_limits(entry, &size_of(atom::text_of(a))),
        _ => true,
    }
}

// Whether all of the first n atoms are in their column's limits.
fn all_meet(entry: &Entry, atoms: &[Atom], n: usize) -> bool
    requires { n ≤ length atoms.now }
    ensures { result ≡ all_met entry.now (take n atoms.now) }
{
    atoms[..n].iter().all(|a| atom_meets(entry, a))
}

// Whether a column of a row meets its type.
fn column_meets(entry: &Entry, row: &Row, c: usize) -> bool
    requires { c < most_columns }
    ensures { result ≡ met_for (column_from entry.now) (value_in c row.now) }
{
    let n = rows::count_of(row, c);
    let k = leaf::wide(n);
    k <= ELEMENTS
        && (catalog::minimum(entry) <= n) & (n <= catalog::maximum(entry))
        && all_meet(entry, rows::atoms_in(row, c), k)
}

// Whether the columns of a row meet their types.
fn row_meets(columns: &[Entry], row: &Row) -> bool
    requires { length columns.now ≤ most_columns }
    ensures { result ≡ met_from 0 columns.now row.now }
{
    for (c, entry) in columns.iter().enumerate() {
        if !column_meets(entry, row, c) {
            return false;
        }
    }
    true
}

// Whether a row is of a table of the schema and meets its types.
fn one_meets(schema: &Catalog, row: &Row) -> bool
    requires { Accepted schema.now }
    ensures { result ≡ row_meets schema.now row.now }
{
    let t = rows::table_of(row);
    t < catalog::table_count(&schema[0])
        && row_meets(catalog::columns_of(schema, leaf::wide(t)), row)
}

// Whether rows meet their types.
pub fn rows_meet(schema: &Catalog, rows: &[Row], n: usize) -> bool
    requires accepted { Accepted schema.now }
    requires n_in_bounds { n ≤ length rows.now }
    ensures { result ≡ rows_meet schema.now n rows.now }
{
    rows[..n].iter().all(|row| one_meets(schema, row))
}

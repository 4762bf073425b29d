// Working rows: rows in cells, beside their count, in the order of their keys.
#![tactic(auto)]

ghost use Rattle.std.specs.Prelude.{◌≡◌, false, not, ◌&&◌, List, [], map, ℕ, ◌+◌, ◌-◌, ◌%◌, ◌^◌, ◌≤◌, ◌<◌, eqb, ltb, length, get_or, take, drop};
ghost use Rattle.model.specs.Limits.{most_columns, most_elements, row_cell_count, id_bytes, counts_offset};
ghost use Rattle.model.specs.Octets.{value, part, eq_bytes};
ghost use Rattle.model.specs.Schema.{Column, Schema};
ghost use Rattle.model.specs.Value.{same_value};
ghost use Rattle.model.specs.Areas.{head_cell, row_cells};
ghost use Rattle.model.specs.Rows.{key_of, has, has_id};
ghost use Rattle.inner.specs.Working.{working, table_in, id_in, key_in, value_in, with_value, Ordered, minimums, born_count, new_row, place, slot, inserted, removed};
ghost use Rattle.rows.specs.Post.{word_bytes, key_of_halves, Narrowed, OfFour, Sought, KeyBytes, IdBytes, Added, Removed, ColumnSet};

use model::{ATOM, Atom, Atoms, CELLS, COLUMNS, COUNTS_OFFSET, ELEMENTS, ID, ID_OFFSET, Row};

// A row's table.
pub fn table_of(row: &Row) -> u8
    ensures { result ≡ table_in row.now }
{
    row[0][0]
}

// A row's table and id, lent.
pub fn key_of<'r>(row: &'r Row) -> &'r [u8]
    ensures { KeyBytes result.now row.now }
{
    let head = &row[0][..];
    &head[..COUNTS_OFFSET]
}

// A row's id, lent.
pub fn id_of<'r>(row: &'r Row) -> &'r [u8]
    ensures { IdBytes result.now row.now }
{
    &row[0][ID_OFFSET..COUNTS_OFFSET]
}

// Whether two ids have the same bytes.
// A counted loop: it becomes one compare of 16 bytes, so that a row is found by its key in 1.5 ns; with `x == y` that took 5.5 ns.
fn same_bytes(x: &[u8], y: &[u8]) -> bool
    requires { (length x.now ≡ id_bytes) × (length y.now ≡ id_bytes) }
    ensures { result ≡ eq_bytes x.now y.now }
{
    let mut same = true;
    for k in 0..ID {
        same &= x[k] == y[k];
    }
    same
}

// Whether two ids are the same number.
fn same_ids(x: &[u8], y: &[u8]) -> bool
    requires { (length x.now ≡ id_bytes) × (length y.now ≡ id_bytes) }
    ensures { result ≡ eqb (value x.now) (value y.now) }
{
    same_bytes(x, y)
}

// Whether table and id are those of a key.
pub fn same_keys(table: u8, id: &[u8], key: &[u8]) -> bool
    requires { (length id.now ≡ id_bytes) × (length key.now ≡ counts_offset) }
    ensures { result ≡ eqb (key_of table (value id.now)) (value key.now) }
{
    table == key[0] && same_bytes(id, &key[ID_OFFSET..COUNTS_OFFSET])
}

// The order of keys.
pub fn less_keys(x: &[u8], y: &[u8]) -> bool
    requires { (length x.now ≡ counts_offset) × (length y.now ≡ counts_offset) }
    ensures { result ≡ ltb (value x.now) (value y.now) }
{
    octets::less(x, y)
}

// Whether a row has this id.
pub fn has_this_id(id: &[u8; ID], row: &Row) -> bool
    ensures { result ≡ eqb (value id.now) (id_in row.now) }
{
    same_ids(&id[..], id_of(row))
}

// Whether an id is not zero, and a number of an id's bytes.
fn some_id(id: &[u8]) -> bool
    requires { length id.now ≡ id_bytes }
    ensures { result ≡ (not (eqb (value id.now) 0) && ltb (value id.now) (256 ^ id_bytes)) }
{
    let none = [0u8; ID];
    !same_bytes(id, &none[..])
}

// Whether a row's id is not zero, and a number of an id's bytes.
pub fn has_some_id(row: &Row) -> bool
    ensures { result ≡ (not (eqb (id_in row.now) 0) && ltb (id_in row.now) (256 ^ id_bytes)) }
{
    some_id(id_of(row))
}

// Whether two rows have the same id.
pub fn same_id(x: &Row, y: &Row) -> bool
    ensures { result ≡ eqb (id_in x.now) (id_in y.now) }
{
    same_ids(id_of(x), id_of(y))
}

// Whether x lies before y.
pub fn less(x: &Row, y: &Row) -> bool
    ensures { result ≡ ltb (key_in x.now) (key_in y.now) }
{
    less_keys(key_of(x), key_of(y))
}

// Half of an id's bytes, and where the second half lies in a key.
const WORD: usize = ID / 2;

const LOW_OFFSET: usize = ID_OFFSET + WORD;

// Half of an id as a number.
fn word(b: &[u8]) -> u64
    requires { length b.now ≡ word_bytes }
    ensures { result ≡ value b.now }
{
    octets::number(b, WORD)
}

// Whether a row lies at a key or before it; the key's id in two halves.
fn up_to(row: &Row, table: u8, high: u64, low: u64) -> bool
    ensures { result ≡ not (ltb (key_of_halves table high low) (key_in row.now)) }
{
    let key = key_of(row);
    let h = word(&key[ID_OFFSET..LOW_OFFSET]);
    let l = word(&key[LOW_OFFSET..COUNTS_OFFSET]);
    (key[0] < table) | ((key[0] == table) & ((h < high) | ((h == high) & (l <= low))))
}

// Whether a row lies at a key; the last half of the id tells most rows apart.
fn lies_at(row: &Row, table: u8, high: u64, low: u64) -> bool
    ensures { result ≡ eqb (key_of_halves table high low) (key_in row.now) }
{
    let key = key_of(row);
    low == word(&key[LOW_OFFSET..COUNTS_OFFSET])
        && (table == key[0]) & (high == word(&key[ID_OFFSET..LOW_OFFSET]))
}

// So few rows are looked at one after another, and so many are not halved any more.
const FEW: usize = 8;

const MANY: usize = 16;

// Rows from a place on, up to another.
#[derive(Clone, Copy)]
struct Span {
    from: usize,
    to: usize,
}

// Rows, found by halves, besides which none has this key.
fn narrowed(rows: &[Row], n: usize, table: u8, high: u64, low: u64) -> Span
    requires { Ordered n rows.now }
    ensures { Narrowed n (key_of_halves table high low) rows.now result.from result.to }
{
    let mut from = 0;
    let mut len = n;
    while MANY < len {
        let half = len / 2;
        if up_to(&rows[from + half], table, high, low) {
            from += half;
        }
        len -= half;
    }
    Span {
        from,
        to: from + len,
    }
}

// Which of four rows lies at a key, counted from 0; 4 where none does.
fn of_four(rows: &[Row], i: usize, table: u8, high: u64, low: u64) -> usize
    requires { i + 4 ≤ length rows.now }
    ensures { OfFour (key_of_halves table high low) rows.now i result }
{
    if lies_at(&rows[i], table, high, low) {
        return 0;
    }
    if lies_at(&rows[i + 1], table, high, low) {
        return 1;
    }
    if lies_at(&rows[i + 2], table, high, low) {
        return 2;
    }
    if lies_at(&rows[i + 3], table, high, low) {
        return 3;
    }
    4
}

// A key looked for from a place up to another, row by row.
fn find_from(rows: &[Row], from: usize, to: usize, table: u8, high: u64, low: u64) -> Option<usize>
    requires { to ≤ length rows.now }
    ensures { Sought (key_of_halves table high low) rows.now from to result }
{
    for i in from..to {
        if lies_at(&rows[i], table, high, low) {
            return Some(i);
        }
    }
    None
}

// The same, four rows at a time.
// A counted loop: row by row, a key among 16 rows takes 15.0 ns, and four at a time 10.2 ns.
fn find_by_fours(
    rows: &[Row],
    from: usize,
    to: usize,
    table: u8,
    high: u64,
    low: u64,
) -> Option<usize>
    requires { (from ≤ to) × (to ≤ length rows.now) }
    ensures { Sought (key_of_halves table high low) rows.now from to result }
{
    let mut i = from;
    while i + 4 <= to {
        let k = of_four(rows, i, table, high, low);
        if k < 4 {
            return Some(i + k);
        }
        i += 4;
    }
    find_from(rows, i, to, table, high, low)
}

// Whether a row is the one of this table and id.
fn is_row(table: u8, id: &[u8], row: &Row) -> bool
    requires { length id.now ≡ id_bytes }
    ensures { result ≡ eqb (key_of table (value id.now)) (key_in row.now) }
{
    same_keys(table, id, key_of(row))
}

// The place of the row of a table and an id among few rows.
fn find_few(rows: &[Row], n: usize, table: u8, id: &[u8]) -> Option<usize>
    requires { Ordered n rows.now × (length id.now ≡ id_bytes) }
    ensures { (s : Schema) → result ≡ place (key_of table (value id.now)) (working s n rows.now) }
{
    for i in 0..n {
        if is_row(table, id, &rows[i]) {
            return Some(i);
        }
    }
    None
}

// The place of the row of a table and an id, and whether there is one; the id in a slice.
pub fn find_key(rows: &[Row], n: usize, table: u8, id: &[u8]) -> Option<usize>
    requires { Ordered n rows.now × (length id.now ≡ id_bytes) }
    ensures { (s : Schema) → result ≡ place (key_of table (value id.now)) (working s n rows.now) }
{
    if n <= FEW {
        return find_few(rows, n, table, id);
    }
    let high = word(&id[0..WORD]);
    let low = word(&id[WORD..ID]);
    let span = narrowed(rows, n, table, high, low);
    find_by_fours(rows, span.from, span.to, table, high, low)
}

pub fn has_key(rows: &[Row], n: usize, table: u8, id: &[u8]) -> bool
    requires { Ordered n rows.now × (length id.now ≡ id_bytes) }
    ensures { (s : Schema) → result ≡ has (key_of table (value id.now)) (working s n rows.now) }
{
    let found = find_key(rows, n, table, id);
    match found {
        Some(_) => true,
        None => false,
    }
}

// The same of an id in an array.
pub fn find(rows: &[Row], n: usize, table: u8, id: &[u8; ID]) -> Option<usize>
    requires { Ordered n rows.now }
    ensures { (s : Schema) → result ≡ place (key_of table (value id.now)) (working s n rows.now) }
{
    find_key(rows, n, table, &id[..])
}

pub fn has_row(rows: &[Row], n: usize, table: u8, id: &[u8; ID]) -> bool
    requires { Ordered n rows.now }
    ensures { (s : Schema) → result ≡ has (key_of table (value id.now)) (working s n rows.now) }
{
    has_key(rows, n, table, &id[..])
}

// Whether the id of a row may be one whose second half is this.
fn may_be(row: &Row, low: u64) -> bool
    ensures { result ≡ eqb (id_in row.now % 256 ^ word_bytes) low }
{
    let id = id_of(row);
    word(&id[WORD..ID]) == low
}

// Whether one of four rows may have such an id.
fn one_may_be(rows: &[Row], i: usize, low: u64) -> bool
    requires { i + 4 ≤ length rows.now }
    ensures { (k : ℕ) → result ≡ false → k < 4 → eqb (id_in (get_or rows.now (i + k) []) % 256 ^ word_bytes) low ≡ false }
{
    if may_be(&rows[i], low) {
        return true;
    }
    if may_be(&rows[i + 1], low) {
        return true;
    }
    if may_be(&rows[i + 2], low) {
        return true;
    }
    may_be(&rows[i + 3], low)
}

// How many rows lie before the first four of which one may have an id: none of them has it.
// A counted loop: row by row, an id among 31 rows takes 19.5 ns, and four at a time 15.9 ns.
fn passed(rows: &[Row], n: usize, id: &[u8; ID]) -> usize
    requires { n ≤ length rows.now }
    ensures { (result ≤ n) × ((s : Schema) → has_id (value id.now) (working s n rows.now) ≡ has_id (value id.now) (drop result (working s n rows.now))) }
{
    let bytes = &id[..];
    let low = word(&bytes[WORD..ID]);
    let mut i = 0;
    while i + 4 <= n {
        if one_may_be(rows, i, low) {
            return i;
        }
        i += 4;
    }
    i
}

// Whether one of the rows from a place on has an id.
fn has_id_from(rows: &[Row], n: usize, from: usize, id: &[u8; ID]) -> bool
    requires { (from ≤ n) × (n ≤ length rows.now) }
    ensures { (s : Schema) → result ≡ has_id (value id.now) (drop from (working s n rows.now)) }
{
    rows[from..n].iter().any(|row| has_this_id(id, row))
}

// Whether one of few rows has an id.
// A counted loop: it is unrolled, so that an id is missed among one row in 9 instructions; the chain of `has_id_from` takes 18.
fn has_id_few(rows: &[Row], n: usize, id: &[u8; ID]) -> bool
    requires { Ordered n rows.now }
    ensures { (s : Schema) → result ≡ has_id (value id.now) (working s n rows.now) }
{
    for i in 0..n {
        if has_this_id(id, &rows[i]) {
            return true;
        }
    }
    false
}

// Whether a row of any table has an id.
pub fn has_id(rows: &[Row], n: usize, id: &[u8; ID]) -> bool
    requires { Ordered n rows.now }
    ensures { (s : Schema) → result ≡ has_id (value id.now) (working s n rows.now) }
{
    if n <= FEW {
        return has_id_few(rows, n, id);
    }
    let i = passed(rows, n, id);
    has_id_from(rows, n, i, id)
}

// The place of a new row.
fn slot_of(rows: &[Row], n: usize, row: &Row) -> usize
    requires { n ≤ length rows.now }
    ensures value { (s : Schema) → result ≡ slot (key_in row.now) (working s n rows.now) }
    ensures upper_bound { result ≤ n }
{
    rows[..n]
        .iter()
        .position(|next| less(row, next))
        .unwrap_or(n)
}

// A row put in at a place.
fn insert_at(rows: &mut [Row], n: usize, i: usize, row: &Row)
    requires { (i ≤ n) × (n < length rows.old) }
    ensures { take (n + 1) rows.new ≡ inserted i row.now (take n rows.old) }
{
    rows.copy_within(i..n, i + 1);
    rows[i] = *row;
}

// The rows after a place moved down by one, over the row there.
fn close_at(rows: &mut [Row], n: usize, i: usize)
    requires { (i < n) × (n ≤ length rows.old) }
    ensures { take (n - 1) rows.new ≡ removed i (take n rows.old) }
{
    rows.copy_within(i + 1..n, i);
}

// A row added in its place.
pub fn add(rows: &mut [Row], n: usize, row: &Row)
    requires { n < length rows.old }
    ensures { Added n row.now rows.old rows.new }
{
    let i = slot_of(rows, n, row);
    insert_at(rows, n, i, row);
}

// The row at a place taken out.
pub fn remove_at(rows: &mut [Row], n: usize, i: usize)
    requires { (i < n) × (n ≤ length rows.old) }
    ensures { Removed n i rows.old rows.new }
{
    close_at(rows, n, i);
}

// A column's count.
pub fn count_of(row: &Row, c: usize) -> u8
    requires { c < most_columns }
    ensures { result ≡ (value_in c row.now).count }
{
    row[0][COUNTS_OFFSET + c]
}

// A column's atoms, lent.
pub fn atoms_in<'r>(row: &'r Row, c: usize) -> &'r [Atom]
    requires { c < most_columns }
    ensures { (result.now ≡ (value_in c row.now).atoms) × (length result.now ≡ most_elements) }
{
    let at = 1 + ELEMENTS * c;
    &row[at..at + ELEMENTS]
}

// A column's atoms, by value.
pub fn atoms_of(row: &Row, c: usize) -> Atoms
    requires { c < most_columns }
    ensures { result ≡ (value_in c row.now).atoms }
{
    let atoms = atoms_in(row, c);
    [atoms[0], atoms[1], atoms[2], atoms[3]]
}

// A column's count and atoms set, in the cells of a row.
fn set_cells(cells: &mut [Atom], c: usize, count: u8, atoms: &[Atom])
    requires { (c < most_columns) × (length cells.old ≡ row_cell_count) × (length atoms.now ≡ most_elements) }
    ensures { cells.new ≡ with_value c (record { count = count; atoms = atoms.now }) cells.old }
{
    cells[0][COUNTS_OFFSET + c] = count;
    let at = 1 + ELEMENTS * c;
    cells[at..at + ELEMENTS].copy_from_slice(atoms);
}

// A column set: its count and its atoms.
pub fn set_column(row: &mut Row, c: usize, count: u8, atoms: &Atoms)
    requires { c < most_columns }
    ensures { ColumnSet c (record { count = count; atoms = atoms.now }) row.old row.new }
{
    let key = key_of(row);
    set_cells(&mut row[..], c, count, &atoms[..]);
}

// Whether two rows have the same value in a column.
pub fn same_column(x: &Row, y: &Row, c: usize) -> bool
    requires { c < most_columns }
    ensures { result ≡ same_value (value_in c x.now) (value_in c y.now) }
{
    count_of(x, c) == count_of(y, c) && value::equal(atoms_in(x, c), atoms_in(y, c))
}

// The count of a column's initial value, by its minimum.
fn born_count(min: u8) -> u8
    ensures { result ≡ born_count min }
{
    if min == 0 { 0 } else { 1 }
}

// The counts of initial values.
fn put_counts(out: &mut [u8], mins: &[u8])
    requires { length out.old ≡ length mins.now }
    ensures { out.new ≡ map born_count mins.now }
{
    for (k, min) in mins.iter().enumerate() {
        out[k] = born_count(*min);
    }
}

// Where the counts end in the first cell of a row.
const COUNTS_END: usize = COUNTS_OFFSET + COLUMNS;

// The first cell of a new row.
fn new_head(table: u8, id: &[u8], mins: &[u8]) -> Atom
    requires { (length id.now ≡ id_bytes) × (length mins.now ≡ most_columns) }
    ensures value { (cs : List Column) → length cs ≤ most_columns → mins.now ≡ minimums cs → result ≡ head_cell (new_row table (value id.now) cs) }
    ensures id_bound { value id.now < 256 ^ id_bytes }
{
    let mut head = [0u8; ATOM];
    head[0] = table;
    octets::put_bytes(&mut head[ID_OFFSET..COUNTS_OFFSET], id);
    put_counts(&mut head[COUNTS_OFFSET..COUNTS_END], mins);
    head
}

// A new row of a table, by the minimums of the table's columns; its id is a number of an id's bytes.
pub fn new_row(table: u8, id: &[u8; ID], mins: &[u8; COLUMNS]) -> Row
    ensures value { (cs : List Column) → length cs ≤ most_columns → mins.now ≡ minimums cs → result ≡ row_cells (new_row table (value id.now) cs) }
    ensures id_bound { value id.now < 256 ^ id_bytes }
{
    let mut row = [[0; ATOM]; CELLS];
    row[0] = new_head(table, &id[..], &mins[..]);
    row
}

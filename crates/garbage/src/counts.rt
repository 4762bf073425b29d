// Collection by counts: the strong references to each row are counted once, and a row that goes takes its own off the counts. It leaves what
// `collect` leaves.
ghost use Rattle.std.specs.Prelude.{◌≡◌, true, not, [], ◌∷◌, ◌≤◌, ◌<◌, length, take, replicate, Some};
ghost use Rattle.model.specs.Limits.{most_columns, most_rows};
ghost use Rattle.model.specs.Base.{any};
ghost use Rattle.model.specs.Schema.{is_root};
ghost use Rattle.model.specs.Value.{uuid_of, elements};
ghost use Rattle.model.specs.Rows.{Row, key_of};
ghost use Rattle.model.specs.Commit.{keys_of, strong_of, loose};
ghost use Rattle.model.specs.Areas.{row_from};
ghost use Rattle.model.specs.Catalog.{packed_tables};
ghost use Rattle.inner.specs.Working.{working, value_in, Ordered};
ghost use Rattle.catalog.specs.Accepted.{Accepted};
ghost use Rattle.garbage.specs.Loose.{Collected};
ghost use Rattle.garbage.specs.Counts.{shifted, most_count, Room, Counted, Tallied, may_go, NextAt, Swept, PartlySwept, Put, Compacted};

use model::{Atom, Catalog, ID, ROWS, Row};

// Every place, as bits.
const EVERY_PLACE: u64 = 18446744073709551615;

// A count with one more, or with one less.
#[tactic(auto, unfolding(crate::specs::Counts::shifted))]
fn moved(c: u16, up: bool) -> u16
    requires { up ≡ true → c < most_count }
    ensures { result ≡ shifted up c 1 }
{
    if up {
        return c + 1;
    }
    c.saturating_sub(1)
}

// The count of the row that an atom names, moved, if it is a different row than the one at place `own`; and as bits the places whose count
// is 0 then. Whoever looks there tests the row again.
fn count_named(
    atom: &Atom,
    table: u8,
    rows: &[Row],
    n: usize,
    own: usize,
    up: bool,
    counts: &mut [u16],
) -> u64
    requires ordered { Ordered n rows.now × (n ≤ length counts.old) }
    requires room { Room up n rows.now own (key_of table (uuid_of atom.now) ∷ []) counts.old }
    ensures { Counted up n rows.now own (key_of table (uuid_of atom.now) ∷ []) counts.old counts.new }
{
    let id = &atom[..];
    let found = rows::find_key(rows, n, table, &id[0..ID]);
    let Some(i) = found else {
        return 0;
    };
    if i == own {
        return 0;
    }
    let d = moved(counts[i], up);
    counts[i] = d;
    if d == 0 { 1u64 << (i % 64) } else { 0 }
}

// The same of the first atoms.
fn count_atoms(
    atoms: &[Atom],
    count: usize,
    table: u8,
    rows: &[Row],
    n: usize,
    own: usize,
    up: bool,
    counts: &mut [u16],
) -> u64
    requires count_in_bounds { (count ≤ length atoms.now) × Ordered n rows.now × (n ≤ length counts.old) }
    requires room { Room up n rows.now own (keys_of (Some table) (take count atoms.now)) counts.old }
    ensures { Counted up n rows.now own (keys_of (Some table) (take count atoms.now)) counts.old counts.new }
{
    let mut zeros = 0u64;
    for atom in &atoms[..count] {
        zeros |= count_named(atom, table, rows, n, own, up, counts);
    }
    zeros
}

// The same of the elements of column c, as one to a table.
fn count_column(
    row: &Row,
    c: usize,
    to: Option<u8>,
    rows: &[Row],
    n: usize,
    own: usize,
    up: bool,
    counts: &mut [u16],
) -> u64
    requires c_lt_most_columns { (c < most_columns) × Ordered n rows.now × (n ≤ length counts.old) }
    requires room { Room up n rows.now own (keys_of to (elements (value_in c row.now))) counts.old }
    ensures { Counted up n rows.now own (keys_of to (elements (value_in c row.now))) counts.old counts.new }
{
    match to {
        Some(t) => count_atoms(
            rows::atoms_in(row, c),
            references::size(rows::count_of(row, c)),
            t,
            rows,
            n,
            own,
            up,
            counts,
        ),
        None => 0,
    }
}

// The same of all strong references of a row.
fn count_row(
    schema: &Catalog,
    row: &Row,
    rows: &[Row],
    n: usize,
    own: usize,
    up: bool,
    counts: &mut [u16],
) -> u64
    requires accepted { Accepted schema.now }
    requires ordered { Ordered n rows.now × (n ≤ length counts.old) }
    requires room { Room up n rows.now own (strong_of (packed_tables schema.now) (row_from (packed_tables schema.now) row.now)) counts.old }
    ensures { Counted up n rows.now own (strong_of (packed_tables schema.now) (row_from (packed_tables schema.now) row.now)) counts.old counts.new }
{
    let table = rows::table_of(row);
    let w = references::width(schema, table);
    let mut zeros = 0u64;
    for c in 0..w {
        let to = references::refers(schema, table, c, 1);
        zeros |= count_column(row, c, to, rows, n, own, up, counts);
    }
    zeros
}

// Each row's count.
fn count_all(schema: &Catalog, rows: &[Row], n: usize, counts: &mut [u16])
    requires accepted { Accepted schema.now }
    requires ordered { Ordered n rows.now × (n ≤ most_rows) × (counts.old ≡ replicate most_rows 0) }
    ensures { Tallied (packed_tables schema.now) n rows.now counts.new }
{
    for i in 0..n {
        count_row(schema, &rows[i], rows, n, i, true, counts);
    }
}

// Whether a row may go: it is there, its count is 0, and its table is not root.
#[tactic(auto, unfolding(crate::specs::Counts::may_go))]
fn may_go(schema: &Catalog, row: &Row, mark: u8, count: u16) -> bool
    requires { Accepted schema.now }
    ensures { result ≡ may_go (packed_tables schema.now) row.now mark count }
{
    mark != 0 && count == 0 && !super::is_root(schema, rows::table_of(row))
}

// The place of the first row that may go.
#[tactic(auto, unfolding(crate::specs::Counts::NextAt))]
fn next_to_go(
    schema: &Catalog,
    rows: &[Row],
    n: usize,
    marks: &[u8],
    counts: &[u16],
) -> Option<usize>
    requires accepted { Accepted schema.now }
    requires n_in_bounds { (n ≤ length rows.now) × (n ≤ length marks.now) × (n ≤ length counts.now) }
    ensures { NextAt (packed_tables schema.now) n rows.now marks.now counts.now result }
{
    for i in 0..n {
        if may_go(schema, &rows[i], marks[i], counts[i]) {
            return Some(i);
        }
    }
    None
}

// Rows that may go are marked as gone, one after another; each takes its references off the counts. `pending` has the places to look at as
// bits: every place at first, and then each whose count fell to 0. So a row is looked at once, and once more where its count fell to 0. That
// none is left that may go is not promised here: `sweep` finds it.
fn sweep_noted(schema: &Catalog, rows: &[Row], n: usize, marks: &mut [u8], counts: &mut [u16])
    requires accepted { Accepted schema.now }
    requires ordered { Ordered n rows.now × (n ≤ length marks.old) × (n ≤ length counts.old) }
    ensures { PartlySwept (packed_tables schema.now) n rows.now marks.old counts.old marks.new counts.new }
{
    let mut pending = EVERY_PLACE;
    for k in 0..n + n {
        if pending == 0 {
            return;
        }
        let i = u64::trailing_zeros(pending) as usize;
        if n <= i {
            return;
        }
        pending &= pending - 1;
        if may_go(schema, &rows[i], marks[i], counts[i]) {
            marks[i] = 0;
            pending |= count_row(schema, &rows[i], rows, n, i, false, counts);
        }
    }
}

// Rows that may go are marked as gone, one after another, until none may; each takes its references off the counts. After each the search
// starts at the first row again. After `sweep_noted` it looks at all rows once and finds none.
fn sweep(schema: &Catalog, rows: &[Row], n: usize, marks: &mut [u8], counts: &mut [u16])
    requires accepted { Accepted schema.now }
    requires ordered { Ordered n rows.now × (n ≤ length marks.old) × (n ≤ length counts.old) }
    ensures { Swept (packed_tables schema.now) n rows.now marks.old counts.old marks.new }
{
    while let Some(i) = next_to_go(schema, rows, n, marks, counts) {
        marks[i] = 0;
        count_row(schema, &rows[i], rows, n, i, false, counts);
    }
}

// Row j put at place m, if it is marked; and the place after it. A row that is there already stays.
#[tactic(auto, unfolding(crate::specs::Counts::Put))]
fn put_down(rows: &mut [Row], m: usize, j: usize, mark: u8) -> usize
    requires { (m ≤ j) × (j < length rows.old) }
    ensures { Put m j mark result rows.old rows.new }
{
    if mark == 0 {
        return m;
    }
    if m != j {
        rows[m] = rows[j];
    }
    m + 1
}

// The marked rows, in their order, put in front; and how many they are.
fn keep_marked(rows: &mut [Row], n: usize, marks: &[u8]) -> usize
    requires { (n ≤ length rows.old) × (n ≤ length marks.now) }
    ensures { Compacted n result marks.now rows.old rows.new }
{
    let mut m = 0;
    for j in 0..n {
        m = put_down(rows, m, j, marks[j]);
    }
    m
}

// Whether a row is of a table that is not root: none is, if no table says that it is root.
fn any_not_root(schema: &Catalog, rows: &[Row], n: usize) -> bool
    requires accepted { Accepted schema.now }
    requires n_in_bounds { n ≤ length rows.now }
    ensures { result ≡ any (λ (x : Row). not (is_root (packed_tables schema.now) x.table)) (working (packed_tables schema.now) n rows.now) }
{
    super::some_root(schema)
        && rows[..n]
            .iter()
            .any(|row| !super::is_root(schema, rows::table_of(row)))
}

// What collection leaves of the rows: just what `collect` leaves, with one count of the references in place of a search for each row that
// goes. `sweep_noted` marks the rows that go, and `sweep` looks at all rows once more and finds none. Where no row can go, or none goes, no
// row is moved.
pub fn collect_by_counts(schema: &Catalog, rows: &mut [Row], n: usize) -> usize
    requires accepted { Accepted schema.now }
    requires ordered { Ordered n rows.old }
    ensures { Collected (packed_tables schema.now) n result rows.old rows.new }
{
    if ROWS < n {
        return super::collect(schema, rows, n);
    }
    if !any_not_root(schema, rows, n) {
        return n;
    }
    let mut counts = [0u16; ROWS];
    count_all(schema, rows, n, &mut counts);
    let mut marks = [1u8; ROWS];
    sweep_noted(schema, rows, n, &mut marks, &mut counts);
    sweep(schema, rows, n, &mut marks, &mut counts);
    keep_marked(rows, n, &marks)
}

// Whether a row of a table that is not root is held by no other, by one count of the references.
pub fn any_loose(schema: &Catalog, rows: &[Row], n: usize) -> bool
    requires accepted { Accepted schema.now }
    requires ordered { Ordered n rows.now }
    ensures { result ≡ any (loose (packed_tables schema.now) (working (packed_tables schema.now) n rows.now)) (working (packed_tables schema.now) n rows.now) }
{
    if ROWS < n {
        let first = super::first_loose(schema, rows, n);
        let Some(_) = first else {
            return false;
        };
        return true;
    }
    if !any_not_root(schema, rows, n) {
        return false;
    }
    let mut counts = [0u16; ROWS];
    count_all(schema, rows, n, &mut counts);
    let marks = [1u8; ROWS];
    let next = next_to_go(schema, rows, n, &marks, &counts);
    let Some(_) = next else {
        return false;
    };
    true
}

// Columns as a schema writes them, read into cells.
#![tactic(auto)]

ghost use Rattle.std.specs.Prelude.{◌≡◌, true, false, map, ◌++◌, ℕ, ◌≤◌, ◌<◌, eqb, length, get_or, take, drop};
ghost use Rattle.model.specs.Limits.{most_tables, most_columns};
ghost use Rattle.model.specs.Base.{all};
ghost use Rattle.model.specs.Json.{member_at, value_at};
ghost use Rattle.inner.specs.Positions.{Says, well_at, tree_at};
ghost use Rattle.model.specs.Nav.{is_read};
ghost use Rattle.model.specs.Catalog.{entry_name};
ghost use Rattle.catalog.specs.Writing.{column_end};
ghost use Rattle.model.specs.SchemaText.{is_id};
ghost use Rattle.columns.specs.Parts.{member_of, met_at, Dropped, Forgotten, Collected};
ghost use Rattle.columns.specs.Columns.{small, shape_bytes, TypeIn, truth_allowed, column_allowed, ColumnRead, ColumnsPut, ColumnsRead};

use column_types::{Key, Shape};
use members::{Places, WORDS};
use model::{ATOM, Atom, COLUMNS, ENTRY, Entry, Kind, Whole};

// A column: whether it fits, and its cell.
#[derive(Clone, Copy)]
pub struct Read {
    pub fits: bool,
    pub cell: Entry,
}

fn small(x: u64) -> u8
    ensures { result ≡ small x }
{
    if x < 256 { x as u8 } else { 0 }
}

// The cell of a column.
fn put_column(out: &mut [u8], name: &Atom, t: Shape, mutable: bool)
    requires { column_end ≤ length out.old }
    ensures { out.new ≡ (name.now ++ shape_bytes t mutable) ++ drop column_end out.old }
{
    let s = catalog::Shape {
        base: t.key.base,
        how: t.key.how,
        target: t.key.target,
        min: small(t.min),
        max: small(t.max),
        mutable: leaf::bit(mutable),
        low: t.key.low,
        high: t.key.high,
    };
    catalog::put_column(out, name, s);
}

// No type.
fn no_type() -> Shape
    ensures { result.fits ≡ false }
{
    Shape {
        fits: false,
        key: Key {
            fits: false,
            base: 0,
            how: 0,
            target: 0,
            low: Whole::Other,
            high: Whole::Other,
        },
        min: 0,
        max: 0,
    }
}

// The type in a slot.
fn type_in(text: &[u8], ends: &[u16], tables: &[Entry], p: usize) -> Shape
    requires says { Says text.now ends.now }
    requires p_value { eqb p 0 ≡ false → well_at text.now p ≡ true }
    requires tables_value { all is_id (map entry_name tables.now) ≡ true }
    requires tables_len_bound { length tables.now ≤ most_tables }
    ensures { TypeIn text.now (map entry_name tables.now) p result }
{
    if p == 0 {
        no_type()
    } else {
        column_types::read_type(text, ends, tables, p)
    }
}

// Whether a slot is empty, or holds true or false.
fn truth_fits(text: &[u8], p: usize) -> bool
    ensures { result ≡ truth_allowed text.now p }
{
    let k = members::kind_in(text, p);
    let t = leaf::is_kind(k, Kind::Truth);
    (p == 0) | t
}

// Whether a column fits: f has its slots, and typed says whether its type fits.
#[tactic(auto, unfolding(crate::specs::Columns::column_allowed))]
fn column_fits(text: &[u8], f: Places, typed: bool) -> bool
    ensures { result ≡ column_allowed text.now f typed }
{
    f[WORDS] == 0 && typed && truth_fits(text, f[1]) && truth_fits(text, f[2])
}

// The column that is the member at `at`.
fn read_column(text: &[u8], ends: &[u16], at: usize, tables: &[Entry]) -> Read
    requires says { Says text.now ends.now }
    requires at_value { is_read (member_at (value_at 12 text.now) text.now at).read ≡ true }
    requires tables_value { all is_id (map entry_name tables.now) ≡ true }
    requires tables_len_bound { length tables.now ≤ most_tables }
    ensures { ColumnRead (map entry_name tables.now) (member_of text.now at) result }
{
    let name = names::name_at(text, at);
    let v = nav::member_value(text, ends, at);
    let f = members::fields(text, ends, v, b"\x04type\x09ephemeral\x07mutable");
    let t = type_in(text, ends, tables, f[0]);
    let fits = column_fits(text, f, t.fits);
    let mutable = members::truth_in(text, f[2], true);
    let mut cell = [0u8; ENTRY];
    put_column(&mut cell, &name, t, mutable);
    Read { fits, cell }
}

// The columns that are the members at n places, and whether all fit.
fn put_columns(
    text: &[u8],
    ends: &[u16],
    places: &[usize],
    n: usize,
    tables: &[Entry],
    cells: &mut [Entry],
) -> bool
    requires says { Says text.now ends.now }
    requires by_index { (i : ℕ) → i < n → is_read (member_at (value_at 12 text.now) text.now (get_or places.now i 0)).read ≡ true }
    requires tables_value { all is_id (map entry_name tables.now) ≡ true }
    requires tables_len_bound { length tables.now ≤ most_tables }
    requires n_le_most_columns { n ≤ most_columns }
    requires n_in_bounds { n ≤ length places.now }
    requires most_columns_in_bounds { most_columns ≤ length cells.old }
    ensures { ColumnsPut text.now (map entry_name tables.now) n places.now result cells.old cells.new }
{
    let mut good = true;
    for i in 0..n {
        let c = read_column(text, ends, places[i], tables);
        good &= c.fits;
        let cell = c.cell;
        cells[i] = cell;
    }
    good
}

// The place of the first of n names that is this one, n where none is.
fn met(names: &[Atom], n: usize, name: &Atom) -> usize
    requires { n ≤ length names.now }
    ensures { result ≡ met_at name.now (take n names.now) }
{
    for i in 0..n {
        if atom::same(&names[i], name) {
            return i;
        }
    }
    n
}

// The first n places and names without those at i: what stood after them moves down.
fn drop_at(places: &mut [usize], names: &mut [Atom], n: usize, i: usize)
    requires i_lt_n { i < n }
    requires n_in_bounds { n ≤ length places.old }
    requires n_in_bounds_2 { n ≤ length names.old }
    ensures dropped { Dropped i n places.old places.new }
    ensures dropped_2 { Dropped i n names.old names.new }
{
    places.copy_within(i + 1..n, i);
    names.copy_within(i + 1..n, i);
}

// The first n places and names without the first that has this name: how many are left.
fn forget(places: &mut [usize], names: &mut [Atom], n: usize, name: &Atom) -> usize
    requires n_in_bounds { n ≤ length places.old }
    requires n_in_bounds_2 { n ≤ length names.old }
    ensures { Forgotten name.now n result places.old places.new names.old names.new }
{
    let i = met(names, n, name);
    if i < n {
        drop_at(places, names, n, i);
        return n - 1;
    }
    n
}

// The places of the members of the object at `at` that count, at most `most`; 9 where they are more, or where it is no object of ids.
pub fn collect(text: &[u8], ends: &[u16], at: usize, most: usize, places: &mut [usize]) -> usize
    requires says { Says text.now ends.now }
    requires at_value { well_at text.now at ≡ true }
    requires most_le_most_columns { most ≤ most_columns }
    requires places_len { length places.old ≡ most_columns }
    ensures { Collected text.now most (tree_at text.now at) result places.new }
{
    let k = nav::kind_at(text, at);
    let o = leaf::is_kind(k, Kind::Object);
    if !o {
        return 9;
    }
    let mut names = [[0u8; ATOM]; COLUMNS];
    let mut n = 0;
    let mut g = nav::first(text, at, b'{', b'}');
    while let Some(p) = g {
        let name = names::name_at(text, p);
        let id = catalog::rules::is_id(atom::text_of(&name));
        if id {
            let left = forget(places, &mut names, n, &name);
            if left == most {
                return 9;
            }
            places[left] = p;
            names[left] = name;
            n = left + 1;
        } else {
            return 9;
        }
        g = nav::next_member(text, ends, p);
    }
    n
}

// The columns of the object at `at`, into the first cells: how many, 9 where they do not fit.
pub fn read_columns(
    text: &[u8],
    ends: &[u16],
    at: usize,
    tables: &[Entry],
    cells: &mut [Entry],
) -> usize
    requires says { Says text.now ends.now }
    requires at_value { well_at text.now at ≡ true }
    requires tables_value { all is_id (map entry_name tables.now) ≡ true }
    requires tables_len_bound { length tables.now ≤ most_tables }
    requires most_columns_in_bounds { most_columns ≤ length cells.old }
    ensures { ColumnsRead (map entry_name tables.now) (tree_at text.now at) result cells.old cells.new }
{
    let mut places = [0usize; COLUMNS];
    let n = collect(text, ends, at, COLUMNS, &mut places);
    if n <= COLUMNS && put_columns(text, ends, &places, n, tables, cells) {
        return n;
    }
    9
}

// The catalog: how its entries look, and what they say. No other crate knows where the parts of an entry lie.
#![tactic(auto)]

pub mod rules;
pub mod tidied;
pub mod tidied_columns;
pub mod tidied_tables;

ghost use Rattle.std.specs.Prelude.{◌≡◌, [], ◌∷◌, ◌++◌, map, ◌+◌, ◌-◌, ◌≤◌, ◌<◌, length, get_or, take, drop, replicate};
ghost use Rattle.std.proofs.lemmas.List.Edits.{sets};
ghost use Rattle.model.specs.Octets.{value, part};
ghost use Rattle.model.specs.Limits.{most_tables, most_columns, entry_bytes, atom_bytes};
ghost use Rattle.model.specs.Schema.{scalar};
ghost use Rattle.model.specs.Catalog.{base_offset, refers_offset, target_offset, min_offset, max_offset, mutable_offset, low_offset, high_offset, columns_offset, root_offset, limited_offset, max_rows_offset, indexes_offset, tables_offset, entry_name, is_set, column_from, column_count, column_place, index_from, first_index_offset, second_index_offset};
ghost use Rattle.model.specs.Conditions.{id_column};
ghost use Rattle.inner.specs.Working.{minimums};
ghost use Rattle.catalog.specs.Entries.{columns_at, is_found, entry_named};
ghost use Rattle.catalog.specs.Writing.{column_end, limit_bytes, column_bytes, head_bytes};

use model::{ATOM, Atom, COLUMNS, Catalog, ENTRY, Entry, INDEX_COLUMNS, TABLES, Whole};

// Where the parts of a column's entry lie, behind the name.
const KIND: usize = ATOM;

const REFERS: usize = KIND + 1;

const TARGET: usize = REFERS + 1;

const MIN: usize = TARGET + 1;

const MAX: usize = MIN + 1;

const MUTABLE: usize = MAX + 1;

const LOW: usize = MUTABLE + 1;

const HIGH: usize = LOW + 8;

// Where those of a table's entry lie.
const WIDTH: usize = ATOM;

const ROOT: usize = WIDTH + 1;

const LIMITED: usize = ROOT + 1;

const MAX_ROWS: usize = LIMITED + 1;

const INDEX_COUNT: usize = MAX_ROWS + 8;

const FIRST_INDEX: usize = INDEX_COUNT + 1;

const SECOND_INDEX: usize = FIRST_INDEX + 1 + INDEX_COLUMNS;

// An index in bytes: how many columns, and their numbers.
pub const INDEX: usize = 1 + INDEX_COLUMNS;

// Where the entries of columns begin.
pub const FIRST_COLUMN: usize = 1 + TABLES;

// And the one of the database's.
const TABLE_COUNT: usize = ATOM;

// The number in eight bytes of an entry.
fn number_at(entry: &Entry, at: usize) -> u64
    requires { at + 8 ≤ entry_bytes }
    ensures { result ≡ value (part at 8 entry.now) }
{
    octets::number(&entry[at..at + 8], 8)
}

// The base type of a column, by its number: 0 integer, 1 boolean, 2 string, 3 uuid.
pub fn kind(entry: &Entry) -> u8
    ensures { result ≡ get_or entry.now base_offset 0 }
{
    entry[KIND]
}

// How a column refers: 0 not, 1 strongly, 2 weakly.
pub fn refers(entry: &Entry) -> u8
    ensures { result ≡ get_or entry.now refers_offset 0 }
{
    entry[REFERS]
}

// The table that a column refers to.
pub fn target(entry: &Entry) -> u8
    ensures { result ≡ get_or entry.now target_offset 0 }
{
    entry[TARGET]
}

// The least and the greatest number of elements of a column.
pub fn minimum(entry: &Entry) -> u8
    ensures { result ≡ get_or entry.now min_offset 0 }
{
    entry[MIN]
}

pub fn maximum(entry: &Entry) -> u8
    ensures { result ≡ get_or entry.now max_offset 0 }
{
    entry[MAX]
}

// Whether a column is a scalar.
pub fn is_scalar(entry: &Entry) -> bool
    ensures { result ≡ scalar (column_from entry.now) }
{
    entry[MIN] == 1 && entry[MAX] == 1
}

// Whether a column may be changed.
pub fn is_mutable(entry: &Entry) -> bool
    ensures { result ≡ is_set entry.now mutable_offset }
{
    entry[MUTABLE] == 1
}

// The limits of a column, in two's complement.
pub fn low(entry: &Entry) -> u64
    ensures { result ≡ value (part low_offset 8 entry.now) }
{
    number_at(entry, LOW)
}

pub fn high(entry: &Entry) -> u64
    ensures { result ≡ value (part high_offset 8 entry.now) }
{
    number_at(entry, HIGH)
}

// How many columns a table has, by its entry.
pub fn width(entry: &Entry) -> u8
    ensures { result ≡ get_or entry.now columns_offset 0 }
{
    entry[WIDTH]
}

// Whether a table says that it is root.
pub fn says_root(entry: &Entry) -> bool
    ensures { result ≡ is_set entry.now root_offset }
{
    entry[ROOT] == 1
}

// Whether a table has maxRows, and that.
pub fn is_limited(entry: &Entry) -> bool
    ensures { result ≡ is_set entry.now limited_offset }
{
    entry[LIMITED] == 1
}

pub fn max_rows(entry: &Entry) -> u64
    ensures { result ≡ value (part max_rows_offset 8 entry.now) }
{
    number_at(entry, MAX_ROWS)
}

// How many indexes a table has.
pub fn index_count(entry: &Entry) -> u8
    ensures { result ≡ get_or entry.now indexes_offset 0 }
{
    entry[INDEX_COUNT]
}

// How many tables a database has, by its entry.
pub fn table_count(entry: &Entry) -> u8
    ensures { result ≡ get_or entry.now tables_offset 0 }
{
    entry[TABLE_COUNT]
}

// The name in an entry.
pub fn name_of<'a>(entry: &'a Entry) -> &'a [u8]
    ensures { result.now ≡ entry_name entry.now }
{
    let n = leaf::wide(entry[0]).min(ENTRY - 1);
    &entry[1..1 + n]
}

// The place of a name among the names of entries.
pub fn named(entries: &[Entry], name: &[u8]) -> Option<usize>
    ensures { result ≡ entry_named entries.now name.now }
{
    for (i, entry) in entries.iter().enumerate() {
        if octets::equal(name, name_of(entry)) {
            return Some(i);
        }
    }
    None
}

// Whether a place was found.
pub fn is_found(f: Option<usize>) -> bool
    ensures { result ≡ is_found f }
{
    match f {
        Some(_) => true,
        None => false,
    }
}

// The entries of a table's columns, lent.
pub fn columns_of<'s>(catalog: &'s Catalog, t: usize) -> &'s [Entry]
    requires { (t < most_tables) × (column_count catalog.now t ≤ most_columns) }
    ensures { (result.now ≡ columns_at catalog.now t) × (length result.now ≤ most_columns) }
{
    let k = leaf::wide(catalog[1 + t][WIDTH]);
    let first = FIRST_COLUMN + COLUMNS * t;
    &catalog[first..first + k]
}

// The minimums of columns.
pub fn minimums_of(columns: &[Entry]) -> [u8; COLUMNS]
    requires { length columns.now ≤ most_columns }
    ensures { result ≡ minimums (map column_from columns.now) }
{
    let mut mins = [0u8; COLUMNS];
    for (c, column) in columns.iter().enumerate() {
        mins[c] = column[MIN];
    }
    mins
}

// ── written ──

// Two limits, one after the other.
fn put_limits(out: &mut [u8], low: Whole, high: Whole)
    requires { 16 ≤ length out.old }
    ensures { out.new ≡ limit_bytes low high ++ drop 16 out.old }
{
    octets::put_number(out, octets::bits(low), 8);
    octets::put_number(&mut out[8..], octets::bits(high), 8);
}

// The six bytes between the name and the limits of a column's entry.
fn put_six(out: &mut [u8], base: u8, how: u8, target: u8, min: u8, max: u8, mutable: u8)
    requires { 6 ≤ length out.old }
    ensures { out.new ≡ (base ∷ how ∷ target ∷ min ∷ max ∷ mutable ∷ []) ++ drop 6 out.old }
{
    out[..6].copy_from_slice(&[base, how, target, min, max, mutable]);
}

// What a column's entry says behind its name.
#[derive(Clone, Copy)]
pub struct Shape {
    pub base: u8,
    pub how: u8,
    pub target: u8,
    pub min: u8,
    pub max: u8,
    pub mutable: u8,
    pub low: Whole,
    pub high: Whole,
}

// What follows the name in a column's entry.
fn put_shape(out: &mut [u8], s: Shape)
    requires { 22 ≤ length out.old }
    ensures { out.new ≡ column_bytes s ++ drop 22 out.old }
{
    put_six(out, s.base, s.how, s.target, s.min, s.max, s.mutable);
    put_limits(&mut out[6..], s.low, s.high);
}

// The entry of a column.
pub fn put_column(out: &mut [u8], name: &Atom, s: Shape)
    requires { column_end ≤ length out.old }
    ensures { out.new ≡ (name.now ++ column_bytes s) ++ drop column_end out.old }
{
    octets::put_bytes(out, name);
    put_shape(&mut out[KIND..], s);
}

// What stands between the name and the indexes of a table's entry.
pub fn put_head(out: &mut [u8], n: u8, root: bool, limited: bool, most: u64)
    requires { indexes_offset ≤ length out.old }
    ensures { out.new ≡ (take columns_offset out.old ++ head_bytes n root limited most) ++ drop indexes_offset out.old }
{
    out[WIDTH] = n;
    out[ROOT] = leaf::bit(root);
    out[LIMITED] = leaf::bit(limited);
    octets::put_number(&mut out[MAX_ROWS..], most, 8);
}

// A table's entry with two indexes, of which n count: each is how many columns it has, and their numbers.
pub fn with_indexes(entry: Entry, n: u8, a: [u8; INDEX], b: [u8; INDEX]) -> Entry
    ensures { (length entry ≡ entry_bytes) × (result ≡ sets entry indexes_offset (n ∷ (a ++ b))) }
{
    let mut c = entry;
    c[INDEX_COUNT] = n;
    c[FIRST_INDEX..SECOND_INDEX].copy_from_slice(&a);
    c[SECOND_INDEX..SECOND_INDEX + INDEX].copy_from_slice(&b);
    c
}

// An entry that has a name and nothing else.
pub fn name_entry(name: &Atom) -> Entry
    ensures { result ≡ name.now ++ replicate (entry_bytes - atom_bytes) 0 }
{
    let mut entry = [0u8; ENTRY];
    entry[..ATOM].copy_from_slice(name);
    entry
}

// The entry of column c of a table, lent.
pub fn column<'s>(catalog: &'s Catalog, t: usize, c: usize) -> &'s Entry
    requires { (t < most_tables) × (c < most_columns) }
    ensures { result.now ≡ get_or catalog.now (column_place t c) [] }
{
    &catalog[FIRST_COLUMN + COLUMNS * t + c]
}

// The columns of the index that lies at a place of a table's entry, by their numbers, lent.
fn index_at<'a>(entry: &'a Entry, at: usize) -> &'a [u8]
    requires { at < entry_bytes }
    ensures { result.now ≡ index_from entry.now at }
{
    let first = at + 1;
    let n = leaf::wide(entry[at]).min(ENTRY - first);
    &entry[first..first + n]
}

// The columns of a table's first index, and of its second.
pub fn first_index<'a>(entry: &'a Entry) -> &'a [u8]
    ensures { result.now ≡ index_from entry.now first_index_offset }
{
    index_at(entry, FIRST_INDEX)
}

pub fn second_index<'a>(entry: &'a Entry) -> &'a [u8]
    ensures { result.now ≡ index_from entry.now second_index_offset }
{
    index_at(entry, SECOND_INDEX)
}

// The entry of the column that a row's id is.
pub fn id_column() -> Entry
    ensures { column_from result ≡ id_column }
{
    let mut entry = [0u8; ENTRY];
    entry[0] = 5;
    entry[1..6].copy_from_slice(b"_uuid");
    entry[KIND] = 3;
    entry[MIN] = 1;
    entry[MAX] = 1;
    entry
}

// The entry of a database that has n tables.
pub fn database_entry(name: &Atom, n: u8) -> Entry
    ensures { (length name.now ≡ atom_bytes) × (result ≡ name.now ++ (n ∷ replicate 22 0)) }
{
    let mut entry = [0u8; ENTRY];
    entry[..ATOM].copy_from_slice(name);
    entry[TABLE_COUNT] = n;
    entry
}

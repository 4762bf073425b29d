// The judge of a catalog: whether its bytes are the entries of a database that keeps every rule on schemas.
ghost use Rattle.std.specs.Prelude.{◌≡◌, map, ◌<◌};
ghost use Rattle.std.specs.Int.Signed.{le_z};
ghost use Rattle.model.specs.Base.{all, member, distinct};
ghost use Rattle.model.specs.Limits.{most_tables};
ghost use Rattle.model.specs.Scan.{is_digit};
ghost use Rattle.model.specs.SchemaText.{is_letter, is_id_byte, is_id};
ghost use Rattle.model.specs.Value.{from_twos};
ghost use Rattle.model.specs.Catalog.{entry_name};
ghost use Rattle.catalog.specs.Accepted.{is_accepted};
ghost use Rattle.catalog.specs.Judging.{is_zero, name_fine, refers_fine, counts_fine, limits_fine, is_column, rows_fine, slot_fine, index_fine, is_head, is_database, is_blank, is_table, is_unused, table_fine};

use super::{
    FIRST_COLUMN, FIRST_INDEX, HIGH, INDEX_COUNT, KIND, LIMITED, LOW, MAX, MAX_ROWS, MIN, MUTABLE,
    REFERS, ROOT, SECOND_INDEX, TABLE_COUNT, TARGET, WIDTH, columns_of, is_found, name_of, named,
    number_at,
};
use model::{ATOM, COLUMNS, Catalog, ELEMENTS, ENTRY, Entry, INDEX_COLUMNS, INDEXES, TABLES, TEXT};

// The integers of 64 bits, least and greatest, in two's complement.
const LEAST: u64 = 9223372036854775808;

const GREATEST: u64 = 9223372036854775807;

// ── names ──
#[tactic(auto, unfolding(model::specs::Scan::is_digit))]
fn is_digit(b: u8) -> bool
    ensures { result ≡ is_digit b }
{
    b.is_ascii_digit()
}

#[tactic(auto, unfolding(model::specs::SchemaText::is_letter))]
fn is_letter(b: u8) -> bool
    ensures { result ≡ is_letter b }
{
    b.is_ascii_alphabetic()
}

#[tactic(auto, unfolding(model::specs::SchemaText::is_id_byte))]
fn is_id_byte(b: u8) -> bool
    ensures { result ≡ is_id_byte b }
{
    is_letter(b) || is_digit(b) || b == b'_'
}

// Whether a name is an id.
pub fn is_id(t: &[u8]) -> bool
    ensures { result ≡ is_id t.now }
{
    match t {
        [first, rest @ ..] => {
            t.len() <= TEXT && is_letter(*first) && rest.iter().all(|b| is_id_byte(*b))
        }
        [] => false,
    }
}

// Whether all bytes are zero, by a loop with no early end: it is compiled to compares of many bytes.
#[tactic(auto, using(crate::proofs::Ids::all_is))]
fn is_clear(b: &[u8]) -> bool
    ensures { result ≡ all is_zero b.now }
{
    let mut ok = true;
    for x in b {
        ok &= *x == 0;
    }
    ok
}

// Whether an entry's name is an id, with zeros behind it.
fn has_name(entry: &Entry) -> bool
    ensures { result ≡ name_fine entry.now }
{
    let n = leaf::wide(entry[0]);
    n <= TEXT && is_id(&entry[1..1 + n]) && is_clear(&entry[1 + n..ATOM])
}

// ── columns ──
// Whether a column refers not at all, or as a uuid to one of n tables.
#[tactic(auto, unfolding(crate::specs::Judging::refers_fine))]
fn refers_well(n: u8, kind: u8, how: u8, t: u8) -> bool
    ensures { result ≡ refers_fine n kind how t }
{
    if how == 0 {
        t == 0
    } else {
        how <= 2 && t < n && kind == 3
    }
}

#[tactic(auto, unfolding(crate::specs::Judging::counts_fine))]
fn counts_well(min: u8, max: u8) -> bool
    ensures { result ≡ counts_fine min max }
{
    min <= 1 && 1 <= max && max <= ELEMENTS as u8 && min <= max
}

// The order of integers in two's complement.
fn at_most(x: u64, y: u64) -> bool
    ensures { result ≡ le_z (from_twos x) (from_twos y) }
{
    leaf::biased(x) <= leaf::biased(y)
}

// Whether the limits of a column are in order, and the least and the greatest where its type has none.
#[tactic(auto, unfolding(crate::specs::Judging::limits_fine))]
fn limits_well(kind: u8, low: u64, high: u64) -> bool
    ensures { result ≡ limits_fine kind low high }
{
    at_most(low, high) && (kind == 0 || kind == 2 || (low == LEAST && high == GREATEST))
}

// Whether an entry is that of a column in a schema of n tables.
fn is_column(entry: &Entry, n: u8) -> bool
    ensures { result ≡ is_column n entry.now }
{
    has_name(entry)
        && entry[KIND] <= 3
        && refers_well(n, entry[KIND], entry[REFERS], entry[TARGET])
        && counts_well(entry[MIN], entry[MAX])
        && limits_well(entry[KIND], number_at(entry, LOW), number_at(entry, HIGH))
        && entry[MUTABLE] <= 1
        && entry[ENTRY - 1] == 0
}

// ── tables ──
#[tactic(auto, unfolding(crate::specs::Judging::rows_fine))]
fn rows_well(limited: u8, most: u64) -> bool
    ensures { result ≡ rows_fine limited most }
{
    if limited == 0 {
        most == 0
    } else {
        limited <= 1 && 1 <= most && most <= GREATEST
    }
}

#[tactic(auto, unfolding(crate::specs::Judging::slot_fine))]
fn slot_well(used: bool, width: u8, c: u8) -> bool
    ensures { result ≡ slot_fine used width c }
{
    if used { c < width } else { c == 0 }
}

// Whether four bytes are an index of a table of some width, or not in use.
#[tactic(auto, unfolding(crate::specs::Judging::index_fine))]
fn index_well(used: bool, width: u8, n: u8, a: u8, b: u8, c: u8) -> bool
    ensures { result ≡ index_fine used width n a b c }
{
    if used {
        1 <= n
            && n <= INDEX_COLUMNS as u8
            && a < width
            && slot_well(1 < n, width, b)
            && slot_well(2 < n, width, c)
    } else {
        n == 0 && a == 0 && b == 0 && c == 0
    }
}

// Whether an entry is that of a table.
fn is_head(entry: &Entry) -> bool
    ensures { result ≡ is_head entry.now }
{
    let w = entry[WIDTH];
    let k = entry[INDEX_COUNT];
    has_name(entry)
        && w <= COLUMNS as u8
        && entry[ROOT] <= 1
        && rows_well(entry[LIMITED], number_at(entry, MAX_ROWS))
        && k <= INDEXES as u8
        && index_well(
            0 < k,
            w,
            entry[FIRST_INDEX],
            entry[FIRST_INDEX + 1],
            entry[FIRST_INDEX + 2],
            entry[FIRST_INDEX + 3],
        )
        && index_well(
            1 < k,
            w,
            entry[SECOND_INDEX],
            entry[SECOND_INDEX + 1],
            entry[SECOND_INDEX + 2],
            entry[SECOND_INDEX + 3],
        )
        && entry[ENTRY - 3] == 0
        && entry[ENTRY - 2] == 0
        && entry[ENTRY - 1] == 0
}

// ── the database ──
fn is_database(entry: &Entry) -> bool
    ensures { result ≡ is_database entry.now }
{
    has_name(entry) && entry[TABLE_COUNT] <= TABLES as u8 && is_clear(&entry[TABLE_COUNT + 1..])
}

// Whether an entry is not in use.
#[tactic(auto, using(crate::proofs::Heads::blank_is))]
fn is_blank(entry: &Entry) -> bool
    ensures { result ≡ is_blank entry.now }
{
    is_clear(entry)
}

// ── entries one after another ──
fn are_blank(entries: &[Entry]) -> bool
    ensures { result ≡ all is_blank entries.now }
{
    entries.iter().all(|e| is_blank(e))
}

fn are_columns(entries: &[Entry], n: u8) -> bool
    ensures { result ≡ all (is_column n) entries.now }
{
    entries.iter().all(|e| is_column(e, n))
}

// Whether a name is among the names of entries.
fn is_among(name: &[u8], entries: &[Entry]) -> bool
    ensures { result ≡ member name.now (map entry_name entries.now) }
{
    is_found(named(entries, name))
}

// Whether the names of entries are all different.
fn are_distinct(entries: &[Entry]) -> bool
    ensures { result ≡ distinct (map entry_name entries.now) }
{
    for (i, entry) in entries.iter().enumerate() {
        if is_among(name_of(entry), &entries[i + 1..]) {
            return false;
        }
    }
    true
}

// ── tables with their columns, and the whole ──
fn is_table(catalog: &Catalog, t: usize, n: u8) -> bool
    requires { t < most_tables }
    ensures { result ≡ is_table n catalog.now t }
{
    if !is_head(&catalog[1 + t]) {
        return false;
    }
    let columns = columns_of(catalog, t);
    let first = FIRST_COLUMN + COLUMNS * t;
    let k = leaf::wide(catalog[1 + t][WIDTH]);
    are_columns(columns, n)
        && are_distinct(columns)
        && are_blank(&catalog[first + k..first + COLUMNS])
}

fn is_unused(catalog: &Catalog, t: usize) -> bool
    requires { t < most_tables }
    ensures { result ≡ is_unused catalog.now t }
{
    let first = FIRST_COLUMN + COLUMNS * t;
    is_blank(&catalog[1 + t]) && are_blank(&catalog[first..first + COLUMNS])
}

// Whether the entries of table t are in order where there are n tables.
#[tactic(auto, unfolding(crate::specs::Judging::table_fine))]
fn table_well(catalog: &Catalog, t: usize, n: u8) -> bool
    requires { t < most_tables }
    ensures { result ≡ table_fine n catalog.now t }
{
    if t < leaf::wide(n) {
        is_table(catalog, t, n)
    } else {
        is_unused(catalog, t)
    }
}

// Whether an area in good order may hold a catalog.
pub fn is_accepted(catalog: &Catalog) -> bool
    ensures { result ≡ is_accepted catalog.now }
{
    if !is_database(&catalog[0]) {
        return false;
    }
    let n = catalog[0][TABLE_COUNT];
    for t in 0..TABLES {
        if !table_well(catalog, t, n) {
            return false;
        }
    }
    are_distinct(&catalog[1..1 + leaf::wide(n)])
}

// An arrival at a mirror, on working rows: whether it is refused, what it does to the rows, and what the mirror's numbers are then; and what a mirror tells of itself.
#![tactic(auto)]

ghost use Rattle.std.specs.Prelude.{◌≡◌, true, false, List, ℕ, ◌+◌, ◌-◌, ◌≤◌, ◌<◌, length, take};
ghost use Rattle.model.specs.Limits.{most_rows, most_columns, row_record_bytes, value_width};
ghost use Rattle.model.specs.Octets.{value};
ghost use Rattle.model.specs.Schema.{Schema, columns_of};
ghost use Rattle.model.specs.Value.{canonical_for};
ghost use Rattle.model.specs.Rows.{Row, key_of, has};
ghost use Rattle.model.specs.Records.{known, born, gone, column, value_bytes};
ghost use Rattle.model.specs.Catalog.{column_from, packed_tables, table_count};
ghost use Rattle.inner.specs.Working.{working, value_in};
ghost use Rattle.record.specs.Reading.{id_in, arrival_record, column_counts, listed_record};
ghost use Rattle.record.specs.Reading.{Sized as Long};
ghost use Rattle.catalog.specs.Accepted.{Accepted};
ghost use Rattle.arrival.specs.Steps.{head_of, canonical_record, sound_record, fits_record, bad_record, act_record, level_of, column_in, column_of, hears_of, applies_of, is_next, heard_of, Ready, Welcome, Left, Acted, Stepped};

use model::{Atom, Atoms, Catalog, Entry, ID, ROW_RECORD, ROWS, Row, Status, TABLES};
use record::{Arrival, ID_AT};

// A mirror's numbers: n, the highest heard, whether anything was heard, whether n is 0 or ends a commit.
#[derive(Clone, Copy)]
pub struct Numbers {
    pub n: u32,
    pub top: u32,
    pub heard: bool,
    pub whole: bool,
}

// What an arrival leaves beside the rows: the status, the mirror's numbers, and how many rows there are.
#[derive(Clone, Copy)]
pub struct Outcome {
    pub status: Status,
    pub numbers: Numbers,
    pub count: usize,
}

// What every record carries: its run and number, whether it is a mark, whether it ends a commit.
#[derive(Clone, Copy)]
pub struct Head {
    pub run: u32,
    pub number: u32,
    pub marks: bool,
    pub ends: bool,
}

// What a change carries.
fn head_with(run: u32, number: u32, ends: bool) -> Head
    ensures { result ≡ record { run = run; number = number; marks = false; ends = ends } }
{
    Head {
        run,
        number,
        marks: false,
        ends,
    }
}

// What a record carries.
#[tactic(auto, unfolding(crate::specs::Steps::head_of, record::specs::Reading::arrival_record))]
fn head_of(arrival: Arrival) -> Head
    ensures { (bytes : List ℕ) → result ≡ head_of (arrival_record arrival bytes) }
{
    match arrival {
        Arrival::Born(r) => head_with(r.run, r.number, false),
        Arrival::Gone(r) => head_with(r.run, r.number, false),
        Arrival::Column(r) => head_with(r.run, r.number, false),
        Arrival::End(r) => head_with(r.run, r.number, true),
        Arrival::Mark(r) => Head {
            run: r.run,
            number: r.last,
            marks: true,
            ends: false,
        },
        Arrival::Bad => head_with(0, 0, false),
    }
}

// The id that a record names.
fn id_of(bytes: &[u8]) -> [u8; ID]
    requires { row_record_bytes ≤ length bytes.now }
    ensures { result ≡ id_in bytes.now }
{
    let mut id = [0u8; ID];
    octets::put_bytes(&mut id, &bytes[ID_AT..ROW_RECORD]);
    id
}

// How many columns each table has.
fn counts_of(schema: &Catalog) -> [u8; TABLES]
    requires { Accepted schema.now }
    ensures { take (table_count schema.now) result ≡ column_counts (packed_tables schema.now) }
{
    [
        catalog::width(&schema[1]),
        catalog::width(&schema[2]),
        catalog::width(&schema[3]),
        catalog::width(&schema[4]),
    ]
}

// Whether the schema lists the table and the column that a record names, and the id is not all zero.
fn listed(schema: &Catalog, arrival: Arrival, bytes: &[u8]) -> bool
    requires accepted { Accepted schema.now }
    requires long { Long arrival (length bytes.now) }
    ensures { result ≡ listed_record (column_counts (packed_tables schema.now)) (arrival_record arrival bytes.now) }
{
    let counts = counts_of(schema);
    let tables = leaf::wide(catalog::table_count(&schema[0]));
    record::listed(arrival, bytes, &counts[..tables])
}

// Whether a value is in canonical form, by its column's entry of the catalog.
fn canonical_by(entry: &Entry, count: u8, atoms: &[Atom]) -> bool
    ensures { result ≡ canonical_for (column_from entry.now) (record { count = count; atoms = atoms.now }) }
{
    value::canonical(
        catalog::kind(entry),
        catalog::is_scalar(entry),
        count,
        atoms,
    )
}

// Whether the value of a record is in canonical form for its column.
#[tactic(auto, unfolding(crate::specs::Steps::canonical_record, record::specs::Reading::canonical_in, record::specs::Reading::arrival_record, record::specs::Reading::Sized))]
fn canonical(schema: &Catalog, arrival: Arrival, bytes: &[u8]) -> bool
    requires accepted { Accepted schema.now }
    requires long { Long arrival (length bytes.now) }
    requires bytes_value { listed_record (column_counts (packed_tables schema.now)) (arrival_record arrival bytes.now) ≡ true }
    ensures { result ≡ canonical_record (packed_tables schema.now) (arrival_record arrival bytes.now) }
{
    match arrival {
        Arrival::Column(r) => {
            let t = leaf::wide(r.table);
            let c = leaf::wide(r.column);
            let atoms = record::atoms(bytes);
            canonical_by(catalog::column(schema, t, c), r.count, &atoms[..])
        }
        _ => true,
    }
}

// Whether a record is sound, whatever the rows are.
fn sound(schema: &Catalog, arrival: Arrival, bytes: &[u8]) -> bool
    requires accepted { Accepted schema.now }
    requires long { Long arrival (length bytes.now) }
    ensures { result ≡ sound_record (packed_tables schema.now) (arrival_record arrival bytes.now) }
{
    listed(schema, arrival, bytes) && canonical(schema, arrival, bytes)
}

// Whether a record's change fits the rows: one that is born has a new id and room, any other one its row.
#[tactic(auto, unfolding(crate::specs::Steps::fits_record, record::specs::Reading::arrival_record, record::specs::Reading::Sized))]
fn fits(rows: &[Row], count: usize, arrival: Arrival, bytes: &[u8]) -> bool
    requires ready { Ready count rows.now }
    requires long { Long arrival (length bytes.now) }
    ensures { (s : Schema) → result ≡ fits_record (working s count rows.now) (arrival_record arrival bytes.now) }
{
    match arrival {
        Arrival::Born(_) => { !rows::has_id(rows, count, &id_of(bytes)) && count < ROWS }
        Arrival::Gone(r) => rows::has_row(rows, count, r.table, &id_of(bytes)),
        Arrival::Column(r) => rows::has_row(rows, count, r.table, &id_of(bytes)),
        Arrival::End(_) | Arrival::Mark(_) | Arrival::Bad => true,
    }
}

// Whether a record is refused for what it says: it is not sound, its number is 0, or it is the next one and does not fit the rows.
fn bad(schema: &Catalog, rows: &[Row], count: usize, n: u32, arrival: Arrival, bytes: &[u8]) -> bool
    requires accepted { Accepted schema.now }
    requires ready { Ready count rows.now }
    requires long { Long arrival (length bytes.now) }
    ensures { result ≡ bad_record (packed_tables schema.now) n (working (packed_tables schema.now) count rows.now) (arrival_record arrival bytes.now) }
{
    if !sound(schema, arrival, bytes) {
        return true;
    }
    let head = head_of(arrival);
    if head.marks {
        return false;
    }
    head.number == 0 || head.number - 1 == n && !fits(rows, count, arrival, bytes)
}

// A mirror's numbers once it has heard a number.
#[tactic(auto, unfolding(crate::specs::Steps::hears_of))]
fn hears(m: Numbers, number: u32) -> Numbers
    ensures { result ≡ hears_of m number }
{
    Numbers {
        top: m.top.max(number),
        heard: true,
        ..m
    }
}

// A mirror's numbers once it has applied the record of a number.
#[tactic(auto, unfolding(crate::specs::Steps::applies_of))]
fn applies(m: Numbers, number: u32, ends: bool) -> Numbers
    ensures { result ≡ applies_of m number ends }
{
    Numbers {
        n: number,
        top: m.top.max(number),
        heard: true,
        whole: ends,
    }
}

// Whether a mirror is level.
#[tactic(auto, unfolding(crate::specs::Steps::level_of))]
pub fn level(m: Numbers) -> bool
    ensures { result ≡ level_of m }
{
    m.heard && m.n == m.top && m.whole
}

// A new row with the insert defaults.
fn born(schema: &Catalog, rows: &mut [Row], count: usize, table: u8, id: &[u8; ID])
    requires accepted { Accepted schema.now }
    requires count_lt_most_rows { (count < most_rows) × (most_rows ≤ length rows.old) }
    requires id_value { known (packed_tables schema.now) table (value id.now) ≡ true }
    ensures { Acted (packed_tables schema.now) (born table (value id.now)) count rows.old (count + 1) rows.new }
{
    let mins = catalog::minimums_of(catalog::columns_of(schema, leaf::wide(table)));
    let row = rows::new_row(table, id, &mins);
    rows::add(rows, count, &row);
}

// A row taken away.
fn gone(rows: &mut [Row], count: usize, table: u8, id: &[u8; ID])
    requires { Ready count rows.old }
    ensures { (s : Schema) → has (key_of table (value id.now)) (working s count rows.old) ≡ true → Acted s (gone table (value id.now)) count rows.old (count - 1) rows.new }
{
    let found = rows::find(rows, count, table, id);
    match found {
        Some(i) => rows::remove_at(rows, count, i),
        None => {}
    }
}

// A column of a row set.
fn set(
    rows: &mut [Row],
    count: usize,
    table: u8,
    id: &[u8; ID],
    c: usize,
    elements: u8,
    atoms: &Atoms,
)
    requires ready { Ready count rows.old }
    requires c_lt_most_columns { c < most_columns }
    ensures { (s : Schema) → known s table (value id.now) ≡ true → c < length (columns_of s table) → length (columns_of s table) ≤ most_columns → Acted s (column table (value id.now) c (record { count = elements; atoms = atoms.now })) count rows.old count rows.new }
{
    let found = rows::find(rows, count, table, id);
    match found {
        Some(i) => rows::set_column(&mut rows[i], c, elements, atoms),
        None => {}
    }
}

// What a record does to the rows: how many there are then.
#[tactic(auto, unfolding(crate::specs::Steps::act_record, record::specs::Reading::arrival_record, record::specs::Reading::Sized))]
fn acts(schema: &Catalog, rows: &mut [Row], count: usize, arrival: Arrival, bytes: &[u8]) -> usize
    requires accepted { Accepted schema.now }
    requires ready { Ready count rows.old }
    requires long { Long arrival (length bytes.now) }
    requires welcome { Welcome (packed_tables schema.now) (working (packed_tables schema.now) count rows.old) (arrival_record arrival bytes.now) }
    ensures { Left (packed_tables schema.now) (act_record (packed_tables schema.now) (arrival_record arrival bytes.now) (working (packed_tables schema.now) count rows.old)) count rows.old result rows.new }
{
    match arrival {
        Arrival::Born(r) => {
            let id = id_of(bytes);
            born(schema, rows, count, r.table, &id);
            count + 1
        }
        Arrival::Gone(r) => {
            let id = id_of(bytes);
            gone(rows, count, r.table, &id);
            count - 1
        }
        Arrival::Column(r) => {
            let id = id_of(bytes);
            let atoms = record::atoms(bytes);
            set(
                rows,
                count,
                r.table,
                &id,
                leaf::wide(r.column),
                r.count,
                &atoms,
            );
            count
        }
        Arrival::End(_) | Arrival::Mark(_) | Arrival::Bad => count,
    }
}

// Whether a record is the one after those that a mirror has applied, of its run.
#[tactic(auto, unfolding(crate::specs::Steps::is_next))]
fn is_next(run: u32, m: Numbers, head: Head) -> bool
    ensures { result ≡ is_next run m head }
{
    head.run == run && !head.marks && head.number as usize == m.n as usize + 1
}

// What another record that is not refused for what it says leaves: rows stay as they are.
#[tactic(auto, unfolding(crate::specs::Steps::heard_of))]
fn heard(run: u32, m: Numbers, head: Head, count: usize) -> Outcome
    ensures { result ≡ heard_of run m head count }
{
    let (status, numbers) = if head.run != run {
        (Status::OtherRun, m)
    } else if head.marks {
        (Status::Heard, hears(m, head.number))
    } else if head.number <= m.n {
        (Status::Repeat, m)
    } else {
        (Status::Behind, hears(m, head.number))
    };
    Outcome {
        status,
        numbers,
        count,
    }
}

// One arrival.
pub fn step(
    schema: &Catalog,
    rows: &mut [Row],
    count: usize,
    m: Numbers,
    run: u32,
    bytes: &[u8],
) -> Outcome
    requires accepted { Accepted schema.now }
    requires ready { Ready count rows.old }
    ensures { Stepped schema.now run m bytes.now count rows.old rows.new result }
{
    // That all its entries are there is known of the slice.
    let cells = &schema[..];
    let arrival = record::read(bytes);
    if bad(schema, rows, count, m.n, arrival, bytes) {
        return Outcome {
            status: Status::BadRecord,
            numbers: m,
            count,
        };
    }
    let head = head_of(arrival);
    if is_next(run, m, head) {
        let left = acts(schema, rows, count, arrival, bytes);
        return Outcome {
            status: Status::Applied,
            numbers: applies(m, head.number, head.ends),
            count: left,
        };
    }
    heard(run, m, head, count)
}

// The count and the atoms of a row's column.
fn put_value(row: &Row, c: usize, out: &mut [u8])
    requires c_lt_most_columns { c < most_columns }
    requires out_len { length out.old ≡ value_width }
    ensures { out.new ≡ value_bytes (value_in c row.now) }
{
    out[0] = rows::count_of(row, c);
    record::put_atoms(&mut out[1..], rows::atoms_in(row, c));
}

// The count and the atoms of a row's column, all zero where the column is missing.
fn put_column(schema: &Catalog, row: &Row, c: usize, out: &mut [u8])
    requires accepted { Accepted schema.now }
    requires out_len { length out.old ≡ value_width }
    ensures { out.new ≡ column_in (packed_tables schema.now) row.now c }
{
    let t = leaf::wide(rows::table_of(row));
    let tables = leaf::wide(catalog::table_count(&schema[0]));
    if tables <= t {
        octets::clear(out);
        return;
    }
    let columns = leaf::wide(catalog::width(&schema[1 + t]));
    if columns <= c {
        octets::clear(out);
        return;
    }
    put_value(row, c, out);
}

// A column's count and atoms, all zero where the row or the column is missing.
pub fn column(
    schema: &Catalog,
    rows: &[Row],
    count: usize,
    table: u8,
    id: &[u8; ID],
    c: u8,
    out: &mut [u8],
)
    requires accepted { Accepted schema.now }
    requires ready { Ready count rows.now }
    requires out_len { length out.old ≡ value_width }
    ensures { out.new ≡ column_of (working (packed_tables schema.now) count rows.now) table (value id.now) c }
{
    // That all its entries are there is known of the slice.
    let cells = &schema[..];
    let found = rows::find(rows, count, table, id);
    match found {
        Some(i) => put_column(schema, &rows[i], leaf::wide(c), out),
        None => octets::clear(out),
    }
}

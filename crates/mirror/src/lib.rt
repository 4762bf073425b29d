// The mirror that a display keeps: starting it, arrivals, and questions, on areas of any bytes.
// Each promises its status's number, as the first refusal of document 01 that applies (crates/model/specs/FirstRefusal.antt), and the equation of the model's definition for that
// call (Calls.antt): its status, and its area or output afterwards. Demand 3 (Demands.antt) speaks of those same definitions, so with these equations it speaks of this code.
#![tactic(auto)]

ghost use Rattle.std.specs.Prelude.{◌≡◌, false, ◌≤◌, length};
ghost use Rattle.model.specs.Limits.{most_rows, mirror_bytes};
ghost use Rattle.model.specs.Refusals.{number_of};
ghost use Rattle.model.specs.FirstRefusal.{mirror_start_number, hear_number, ask_number, column_number};
ghost use Rattle.model.specs.Calls.{zeroed, mirror_start, mirror_hear, mirror_progress, mirror_has_row, mirror_column};
ghost use Rattle.mirror.specs.Held.{Opened, numbers_in, rewritten};

use arrival::Numbers;
use model::{
    ATOM, CELLS, Catalog, ENTRIES, ENTRY, HEARD_OFFSET, ID, MIRROR_BYTES, ROWS, Row, Status,
    VALUE_BYTES, WHOLE_OFFSET,
};

// What a mirror tells of itself: n, and whether it is level. A refused question has 0 and false.
#[derive(Clone, Copy)]
pub struct Standing {
    pub status: Status,
    pub n: u32,
    pub level: bool,
}

// Whether a row is there; false where the question is refused.
#[derive(Clone, Copy)]
pub struct Presence {
    pub status: Status,
    pub there: bool,
}

// Whether an area of a mirror's length is in good order. Its catalog and its rows are read on the way.
fn opened(area: &[u8], schema: &mut Catalog, rows: &mut [Row]) -> bool
    requires { (length area.now ≡ mirror_bytes) × (most_rows ≤ length rows.old) }
    ensures { Opened area.now schema.new rows.new result }
{
    area::read_catalog(area, &mut schema[..]);
    catalog::rules::is_accepted(schema)
        && area::part_good(area, schema, rows)
        && area::mirror_part(area)
}

// A mirror's numbers, where they lie in its area.
#[tactic(auto, unfolding(crate::specs::Held::numbers_in))]
fn numbers_of(area: &[u8]) -> Numbers
    requires { mirror_bytes ≤ length area.now }
    ensures { result ≡ numbers_in area.now }
{
    Numbers {
        n: area::number_of(area),
        top: area::top_of(area),
        heard: area[HEARD_OFFSET] == 1,
        whole: area[WHOLE_OFFSET] == 1,
    }
}

// What an arrival changed, written to the area.
#[tactic(auto, unfolding(crate::specs::Held::rewritten))]
fn rewrite(area: &mut [u8], was: Numbers, is: Numbers, rows: &[Row], count: usize)
    requires { (mirror_bytes ≤ length area.old) × (count ≤ most_rows) × (most_rows ≤ length rows.now) }
    ensures { area.new ≡ rewritten was is count rows.now area.old }
{
    if is.n != was.n {
        area::write_number(area, is.n);
        area::write_rows(area, rows, count);
        area::write_tail(area, is.top, is.heard, is.whole);
    } else if is.top != was.top || is.heard && !was.heard {
        area::write_tail(area, is.top, is.heard, is.whole);
    }
}

// A new mirror of a schema and a run: no rows, and nothing heard.
pub fn start(area: &mut [u8], schema: &[u8], run: u32) -> Status
    ensures result_value { number_of result ≡ mirror_start_number area.old schema.now }
    ensures run_value { mirror_start area.old schema.now run ≡ record { status = result; area = area.new } }
{
    if area.len() != MIRROR_BYTES {
        return Status::WrongLength;
    }
    let mut catalog = [[0u8; ENTRY]; ENTRIES];
    if !schema::read(schema, &mut catalog) {
        return Status::BadSchema;
    }
    let rows = [[[0u8; ATOM]; CELLS]; 1];
    area::write_store(area, run, 0, &catalog, &rows, 0);
    area::write_tail(area, 0, false, true);
    Status::Accepted
}

// One arrival: its bytes are a change record or a mark, or are refused.
pub fn hear(area: &mut [u8], bytes: &[u8]) -> Status
    ensures result_value { number_of result ≡ hear_number area.old bytes.now }
    ensures bytes_value { mirror_hear area.old bytes.now ≡ record { status = result; area = area.new } }
{
    if area.len() != MIRROR_BYTES {
        return Status::WrongLength;
    }
    let mut schema = [[0u8; ENTRY]; ENTRIES];
    let mut rows = [[[0u8; ATOM]; CELLS]; ROWS];
    if !opened(area, &mut schema, &mut rows) {
        return Status::Disordered;
    }
    let was = numbers_of(area);
    let count = area::row_count(area);
    let run = area::run_of(area);
    let left = arrival::step(&schema, &mut rows, count, was, run, bytes);
    let status = left.status;
    rewrite(area, was, left.numbers, &rows, left.count);
    status
}

// A question that is refused.
fn no_standing(status: Status) -> Standing
    ensures { result ≡ record { status = status; n = 0; level = false } }
{
    Standing {
        status,
        n: 0,
        level: false,
    }
}

// How many records made the mirror's rows, and whether it is level.
pub fn progress(area: &[u8]) -> Standing
    ensures status_value { number_of result.status ≡ ask_number area.now }
    ensures area_value { mirror_progress area.now ≡ record { status = result.status; n = result.n; level = result.level } }
{
    if area.len() != MIRROR_BYTES {
        return no_standing(Status::WrongLength);
    }
    let mut schema = [[0u8; ENTRY]; ENTRIES];
    let mut rows = [[[0u8; ATOM]; CELLS]; ROWS];
    if !opened(area, &mut schema, &mut rows) {
        return no_standing(Status::Disordered);
    }
    let m = numbers_of(area);
    Standing {
        status: Status::Accepted,
        n: m.n,
        level: arrival::level(m),
    }
}

// A question that is refused.
fn no_presence(status: Status) -> Presence
    ensures { result ≡ record { status = status; there = false } }
{
    Presence {
        status,
        there: false,
    }
}

// Whether a row is there, by table and id.
pub fn has_row(area: &[u8], table: u8, id: &[u8; ID]) -> Presence
    ensures status_value { number_of result.status ≡ ask_number area.now }
    ensures id_value { mirror_has_row area.now table id.now ≡ record { status = result.status; there = result.there } }
{
    if area.len() != MIRROR_BYTES {
        return no_presence(Status::WrongLength);
    }
    let mut schema = [[0u8; ENTRY]; ENTRIES];
    let mut rows = [[[0u8; ATOM]; CELLS]; ROWS];
    if !opened(area, &mut schema, &mut rows) {
        return no_presence(Status::Disordered);
    }
    let count = area::row_count(area);
    Presence {
        status: Status::Accepted,
        there: rows::has_row(&rows, count, table, id),
    }
}

// A question that is refused: its output is all zero.
fn no_contents(out: &mut [u8], status: Status) -> Status
    ensures { (result ≡ status) × (out.new ≡ zeroed out.old) }
{
    octets::clear(out);
    status
}

// The count and the atoms of a column, by table, id and column, as a column record has them, all zero where the row or the column is missing or the question is refused.
pub fn column(area: &[u8], table: u8, id: &[u8; ID], column: u8, out: &mut [u8]) -> Status
    ensures result_value { number_of result ≡ column_number area.now out.old }
    ensures out_value { mirror_column area.now table id.now column out.old ≡ record { status = result; out = out.new } }
{
    if out.len() != VALUE_BYTES || area.len() != MIRROR_BYTES {
        return no_contents(out, Status::WrongLength);
    }
    let mut schema = [[0u8; ENTRY]; ENTRIES];
    let mut rows = [[[0u8; ATOM]; CELLS]; ROWS];
    if !opened(area, &mut schema, &mut rows) {
        return no_contents(out, Status::Disordered);
    }
    let count = area::row_count(area);
    arrival::column(&schema, &rows, count, table, id, column, out);
    Status::Accepted
}

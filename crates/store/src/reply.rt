// A request on a store's rows: from its text to the answer, the rows after it and the records.
ghost use Rattle.std.specs.Prelude.{◌≡◌, true, List, ℕ, ◌≤◌, ◌<◌, ◌+◌, ◌^◌, leb, length};
ghost use Rattle.model.specs.Limits.{most_operations, most_rows, fresh_bytes, least_records, store_bytes};
ghost use Rattle.inner.specs.Positions.{items_from, is_nothing};
ghost use Rattle.inner.specs.Working.{working, Ordered};
ghost use Rattle.area.specs.Layout.{row_count, rows_at, RowsFit};
ghost use Rattle.model.specs.Catalog.{packed_tables};
ghost use Rattle.catalog.specs.Accepted.{Accepted};
ghost use Rattle.model.specs.Calls.{lengths_good, store_transact};
ghost use Rattle.request.specs.Reading.{RequestRead};
ghost use Rattle.operations.specs.Ran.{Room};
ghost use Rattle.store.specs.Replying.{Readable, Sure, ClosedOn, EndedOn, Asked, no_effect, GivenOut, Concluded, few_rows};

use super::{good_order, refuse};
use model::{ATOM, CELLS, Catalog, ENTRIES, ENTRY, LAST_NUMBER, ROWS, Row, Status};
use request::Request;

// So many rows and operations together have few working rows, which are cleared sooner.
const FEW_ROWS: usize = 8;

// What a transaction comes to: whether it commits a change, how many rows there are then, and where the answer ends.
#[derive(Clone, Copy)]
pub struct Outcome {
    pub commits: bool,
    pub count: usize,
    pub at: usize,
}

// What is asked: whether it is run, the refusal where it is not, and the place of the first operation.
#[derive(Clone, Copy)]
pub struct Question {
    pub runs: bool,
    pub status: Status,
    pub ops: Option<usize>,
}

// What a transact comes to: its status, whether it commits, how many rows there are then, and how many record numbers it gives out.
#[derive(Clone, Copy)]
pub struct Effect {
    pub status: Status,
    pub commits: bool,
    pub count: usize,
    pub changes: usize,
}

// Whether there is no place.
fn is_nothing(f: Option<usize>) -> bool
    ensures { result ≡ is_nothing f }
{
    match f {
        Some(_) => false,
        None => true,
    }
}

// Commits the first n rows and ends the answer: by a bracket, and before it an error object where the commit fails.
fn at_commit(
    schema: &Catalog,
    rows: &mut [Row],
    n: usize,
    first: bool,
    answer: &mut [u8],
    at: usize,
) -> Outcome
    requires accepted { Accepted schema.now }
    requires ordered { Ordered n rows.old }
    requires at_bound { at + 45 < 2 ^ 64 }
    ensures { ClosedOn schema.now n rows.old rows.new first at answer.old answer.new result }
{
    let c = commit::commit(schema, rows, n);
    let f = c.fault;
    if leaf::is_fine(f) {
        let end = json_writer::put_byte(answer, at, b']');
        return Outcome {
            commits: true,
            count: c.count,
            at: end,
        };
    }
    let end = json_writer::put_comma(answer, at, first);
    let end = json_writer::put_error(answer, end, f);
    let end = json_writer::put_byte(answer, end, b']');
    Outcome {
        commits: false,
        count: n,
        at: end,
    }
}

// Runs the operations and commits, with the answer's whole text. Where no row was changed there is nothing to commit: the rows of a store are settled.
fn transact(
    text: &[u8],
    ends: &[u16],
    ops: Option<usize>,
    fresh: &[u8],
    schema: &Catalog,
    rows: &mut [Row],
    n: usize,
    answer: &mut [u8],
) -> Outcome
    requires readable { Readable text.now ends.now ops fresh.now }
    requires accepted { Accepted schema.now }
    requires ops_len_bound { length (items_from text.now ops) ≤ most_operations }
    requires n_le_most_rows { (n ≤ most_rows) × Room n (length (items_from text.now ops)) rows.old }
    requires sure { Sure (packed_tables schema.now) text.now ops fresh.now (working (packed_tables schema.now) n rows.old) }
    ensures { EndedOn schema.now text.now ops fresh.now n rows.old rows.new answer.old answer.new result }
{
    let mut names = [0u8; uuids::NAMES];
    uuids::fill_names(text, ends, ops, fresh, &mut names[..]);
    let ran = operations::run(text, ends, ops, &names[..], schema, rows, n, answer);
    if ran.pending {
        let first = is_nothing(ops);
        return at_commit(schema, rows, ran.count, first, answer, ran.at);
    }
    let end = json_writer::put_byte(answer, ran.at, b']');
    Outcome {
        commits: false,
        count: n,
        at: end,
    }
}

// Judges a request that was read: whether it is one, its database's name, and the fresh ids.
fn judge(
    schema: &Catalog,
    rows: &[Row],
    n: usize,
    request: &[u8],
    q: Request,
    fresh: &[u8],
) -> Question
    requires { (length fresh.now ≡ fresh_bytes) × Ordered n rows.now }
    ensures { (ends : List ℕ) → RequestRead request.now ends q → Asked schema.now n rows.now request.now fresh.now ends q.count result }
{
    if !q.fits {
        return Question {
            runs: false,
            status: Status::BadRequest,
            ops: None,
        };
    }
    if !text::is_word(request, q.name, catalog::name_of(&schema[0])) {
        return Question {
            runs: false,
            status: Status::OtherDatabase,
            ops: None,
        };
    }
    if !fresh::ids_good(fresh, rows, n) {
        return Question {
            runs: false,
            status: Status::BadFreshIds,
            ops: None,
        };
    }
    let ops = q.ops;
    Question {
        runs: true,
        status: Status::Accepted,
        ops,
    }
}

// A request that is refused: nothing is to be written.
fn no_effect(status: Status) -> Effect
    ensures { result ≡ no_effect status }
{
    Effect {
        status,
        commits: false,
        count: 0,
        changes: 0,
    }
}

// The records of a commit, from the rows that the area has to those after it; refused where their numbers pass the last one.
fn give_out(
    schema: &Catalog,
    area: &[u8],
    rows: &[Row],
    count: usize,
    records: &mut [u8],
    answer: &mut [u8],
) -> Effect
    requires accepted { Accepted schema.now }
    requires store_bytes_in_bounds { (store_bytes ≤ length area.now) × (row_count area.now ≤ most_rows) × (count ≤ most_rows) × (least_records ≤ length records.old) }
    requires ordered { Ordered (row_count area.now) (rows_at (row_count area.now) area.now) × Ordered count rows.now }
    ensures { GivenOut (packed_tables schema.now) area.now rows.now count records.old records.new answer.old answer.new result }
{
    let n = area::row_count(area);
    let run = area::run_of(area);
    let number = area::number_of(area);
    let k = changes::write(schema, area, n, rows, count, run, number, records);
    let left = (LAST_NUMBER - number) as usize;
    if left < k {
        return no_effect(refuse(Status::NumbersSpent, records, answer));
    }
    Effect {
        status: Status::Accepted,
        commits: true,
        count,
        changes: k,
    }
}

// What is left of a transaction: it is refused where its answer is longer than the buffer, and else it has records where it commits a change.
fn conclude(
    schema: &Catalog,
    area: &[u8],
    rows: &[Row],
    o: Outcome,
    records: &mut [u8],
    answer: &mut [u8],
) -> Effect
    requires accepted { Accepted schema.now }
    requires store_bytes_in_bounds { (store_bytes ≤ length area.now) × (row_count area.now ≤ most_rows) × (o.count ≤ most_rows) × (least_records ≤ length records.old) }
    requires ordered { Ordered (row_count area.now) (rows_at (row_count area.now) area.now) × (o.commits ≡ true → Ordered o.count rows.now) }
    ensures { Concluded (packed_tables schema.now) area.now rows.now o records.old records.new answer.old answer.new result }
{
    let commits = o.commits;
    if answer.len() < o.at {
        return no_effect(refuse(Status::AnswerTooLong, records, answer));
    }
    if commits {
        return give_out(schema, area, rows, o.count, records, answer);
    }
    octets::clear(records);
    Effect {
        status: Status::Accepted,
        commits: false,
        count: o.count,
        changes: 0,
    }
}

// A request that was read, on a store's area, with working rows that are enough for it.
fn reply(
    area: &mut [u8],
    rows: &mut [Row],
    request: &[u8],
    ends: &[u16],
    asked: Request,
    fresh: &[u8],
    records: &mut [u8],
    answer: &mut [u8],
) -> Status
    requires answer_value { lengths_good area.old fresh.now records.old answer.old ≡ true }
    requires request_read { RequestRead request.now ends.now asked }
    requires rows_fit { RowsFit area.old rows.old × Room (row_count area.old) asked.count rows.old }
    ensures { store_transact area.old request.now fresh.now records.old answer.old ≡ record { status = result; area = area.new; records = records.new; text = answer.new } }
{
    let mut catalog = [[0u8; ENTRY]; ENTRIES];
    if !good_order::opened(area, &mut catalog, rows) {
        return refuse(Status::Disordered, records, answer);
    }
    let n = area::row_count(area);
    let q = judge(&catalog, rows, n, request, asked, fresh);
    let why = q.status;
    if !q.runs {
        return refuse(why, records, answer);
    }
    let ops = q.ops;
    octets::clear(answer);
    let o = transact(request, ends, ops, fresh, &catalog, rows, n, answer);
    let e = conclude(&catalog, area, rows, o, records, answer);
    let given = e.status;
    let commits = e.commits;
    if commits {
        let next = area::number_of(area) + e.changes as u32;
        area::write_number(area, next);
        area::write_rows(area, rows, e.count);
    }
    given
}

// Whether few working rows are enough for n rows and so many operations.
fn is_few(n: usize, count: usize) -> bool
    ensures { result ≡ leb (n + count) few_rows }
{
    if FEW_ROWS < n {
        return false;
    }
    count <= FEW_ROWS - n
}

// A request on a store's area, with a table for where its values end. It is read first: the working rows are no more than it may need.
pub fn read_and_reply(
    area: &mut [u8],
    request: &[u8],
    ends: &mut [u16],
    fresh: &[u8],
    records: &mut [u8],
    answer: &mut [u8],
) -> Status
    requires { lengths_good area.old fresh.now records.old answer.old ≡ true }
    ensures { store_transact area.old request.now fresh.now records.old answer.old ≡ record { status = result; area = area.new; records = records.new; text = answer.new } }
{
    let q = request::read(request, ends);
    let n = area::row_count(area);
    if is_few(n, q.count) {
        let mut rows = [[[0u8; ATOM]; CELLS]; FEW_ROWS];
        return reply(
            area,
            &mut rows[..],
            request,
            ends,
            q,
            fresh,
            records,
            answer,
        );
    }
    let mut rows = [[[0u8; ATOM]; CELLS]; ROWS];
    reply(
        area,
        &mut rows[..],
        request,
        ends,
        q,
        fresh,
        records,
        answer,
    )
}

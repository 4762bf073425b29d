// The calls of a store. Each promises its status's number, as the first refusal of document 01 that applies (specs FirstRefusal of model), and the equation of the model's definition for that call.
#![tactic(auto)]

mod good_order;
mod reply;

ghost use Rattle.std.specs.Prelude.{◌≡◌};
ghost use Rattle.model.specs.Refusals.{number_of};
ghost use Rattle.model.specs.Calls.{lengths_good, store_start, store_transact, store_mark};
ghost use Rattle.model.specs.FirstRefusal.{store_start_number, transact_number, mark_number};
ghost use Rattle.store.specs.Replying.{Refused};

use model::{
    ATOM, CELLS, ENTRIES, ENTRY, FRESH_BYTES, LEAST_ANSWER, LEAST_MARK, LEAST_RECORDS,
    REQUEST_TEXT, ROWS, STORE_BYTES, Status,
};
use record::Mark;

// A request of so many bytes has a small table of ends, which is cleared sooner.
const SHORT_REQUEST: usize = 1024;

// Makes a store of a schema's text and a run, with no rows and number 0.
pub fn start(area: &mut [u8], schema: &[u8], run: u32) -> Status
    ensures result_value { number_of result ≡ store_start_number area.old schema.now }
    ensures value { result ≡ (store_start area.old schema.now run).status }
    ensures area_after { area.new ≡ (store_start area.old schema.now run).area }
{
    if area.len() != STORE_BYTES {
        return Status::WrongLength;
    }
    let mut catalog = [[0u8; ENTRY]; ENTRIES];
    if !schema::read(schema, &mut catalog) {
        return Status::BadSchema;
    }
    let rows = [[[0u8; ATOM]; CELLS]; 1];
    area::write_store(area, run, 0, &catalog, &rows, 0);
    Status::Accepted
}

// Whether the lengths are right: of the area and of the fresh ids exactly, and of both buffers at least.
fn lengths_good(area: &[u8], fresh: &[u8], records: &[u8], answer: &[u8]) -> bool
    ensures { result ≡ lengths_good area.now fresh.now records.now answer.now }
{
    if area.len() != STORE_BYTES {
        return false;
    }
    if fresh.len() != FRESH_BYTES {
        return false;
    }
    if records.len() < LEAST_RECORDS {
        return false;
    }
    LEAST_ANSWER <= answer.len()
}

// Refuses: both buffers are all zero.
fn refuse(why: Status, records: &mut [u8], answer: &mut [u8]) -> Status
    ensures { Refused why records.old records.new answer.old answer.new result }
{
    octets::clear(records);
    octets::clear(answer);
    why
}

// Runs a request's operations and commits them: the answer's text, and the records of what changed. A refused call leaves the area, and both buffers all zero.
pub fn transact(
    area: &mut [u8],
    request: &[u8],
    fresh: &[u8],
    records: &mut [u8],
    answer: &mut [u8],
) -> Status
    ensures result_value { number_of result ≡ transact_number area.old request.now fresh.now records.old answer.old }
    ensures answer_value { store_transact area.old request.now fresh.now records.old answer.old ≡ record { status = result; area = area.new; records = records.new; text = answer.new } }
{
    if !lengths_good(area, fresh, records, answer) {
        return refuse(Status::WrongLength, records, answer);
    }
    if request.len() <= SHORT_REQUEST {
        let mut ends = [0u16; SHORT_REQUEST];
        return reply::read_and_reply(area, request, &mut ends[..], fresh, records, answer);
    }
    let mut ends = [0u16; REQUEST_TEXT];
    reply::read_and_reply(area, request, &mut ends[..], fresh, records, answer)
}

// Writes the mark of a store: its run and the last number that it gave out.
pub fn mark(area: &[u8], mark: &mut [u8]) -> Status
    ensures result_value { number_of result ≡ mark_number area.now mark.old }
    ensures value { result ≡ (store_mark area.now mark.old).status }
    ensures mark_after { mark.new ≡ (store_mark area.now mark.old).mark }
{
    octets::clear(mark);
    if area.len() != STORE_BYTES {
        return Status::WrongLength;
    }
    if mark.len() < LEAST_MARK {
        return Status::WrongLength;
    }
    let mut catalog = [[0u8; ENTRY]; ENTRIES];
    let mut rows = [[[0u8; ATOM]; CELLS]; ROWS];
    if !good_order::opened(area, &mut catalog, &mut rows) {
        return Status::Disordered;
    }
    let m = Mark::new(area::run_of(area), area::number_of(area));
    m.write(mark);
    Status::Accepted
}

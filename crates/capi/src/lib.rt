// The C library: include/maqdufesh.h. Each function is the call of `store` or `mirror` of that name; a slice is a pointer and a length, 0 is accepted, a refusal is its number.
#![tactic(auto)]

ghost use Rattle.std.specs.Prelude.{◌≡◌, min};
ghost use Rattle.model.specs.Refusals.{number_of};
ghost use Rattle.model.specs.Limits.{store_bytes, mirror_bytes};
ghost use Rattle.model.specs.Catalog.{bit};
ghost use Rattle.model.specs.Calls.{store_start, store_transact, store_mark, mirror_start, mirror_hear, mirror_column};
ghost use Rattle.model.specs.FirstRefusal.{store_start_number, transact_number, mark_number, mirror_start_number, hear_number, column_number};
ghost use Rattle.capi.specs.Exports.{progress_bytes, presence_bytes, asked_number};

use model::{ID, MIRROR_BYTES, STORE_BYTES, Status};

// A status's number.
fn number(a: Status) -> u32
    ensures { result ≡ number_of a }
{
    match a {
        Status::Accepted => 0,
        Status::Disordered => 1,
        Status::WrongLength => 2,
        Status::BadSchema => 3,
        Status::BadRequest => 4,
        Status::OtherDatabase => 5,
        Status::BadFreshIds => 6,
        Status::AnswerTooLong => 7,
        Status::BadRecord => 8,
        Status::OtherRun => 9,
        Status::NumbersSpent => 10,
        Status::Repeat => 100,
        Status::Behind => 101,
        Status::Heard => 102,
        Status::Applied => 103,
    }
}

// 1 for true.
fn flag(b: bool) -> u8
    ensures { result ≡ bit b }
{
    u8::from(b)
}

// A table or column by its number; those above 255 are in no schema, and neither is 255.
fn small(x: u32) -> u8
    ensures { result ≡ min x 255 }
{
    x.min(255) as u8
}

#[unsafe(no_mangle)]
pub extern "C" fn maq_store_area_len() -> u64
    ensures { result ≡ store_bytes }
{
    STORE_BYTES as u64
}

#[unsafe(no_mangle)]
pub extern "C" fn maq_mirror_area_len() -> u64
    ensures { result ≡ mirror_bytes }
{
    MIRROR_BYTES as u64
}

#[unsafe(no_mangle)]
pub extern "C" fn maq_store_start(area: &mut [u8], schema: &[u8], run: u32) -> u32
    ensures value { result ≡ store_start_number area.old schema.now }
    ensures value_2 { result ≡ number_of (store_start area.old schema.now run).status }
    ensures area_after { area.new ≡ (store_start area.old schema.now run).area }
{
    number(store::start(area, schema, run))
}

#[unsafe(no_mangle)]
pub extern "C" fn maq_store_transact(
    area: &mut [u8],
    request: &[u8],
    fresh: &[u8],
    records: &mut [u8],
    answer: &mut [u8],
) -> u32
    ensures value { result ≡ transact_number area.old request.now fresh.now records.old answer.old }
    ensures value_2 { result ≡ number_of (store_transact area.old request.now fresh.now records.old answer.old).status }
    ensures area_after { area.new ≡ (store_transact area.old request.now fresh.now records.old answer.old).area }
    ensures records_after { records.new ≡ (store_transact area.old request.now fresh.now records.old answer.old).records }
    ensures answer_after { answer.new ≡ (store_transact area.old request.now fresh.now records.old answer.old).text }
{
    number(store::transact(area, request, fresh, records, answer))
}

#[unsafe(no_mangle)]
pub extern "C" fn maq_store_mark(area: &[u8], mark: &mut [u8]) -> u32
    ensures value { result ≡ mark_number area.now mark.old }
    ensures value_2 { result ≡ number_of (store_mark area.now mark.old).status }
    ensures mark_after { mark.new ≡ (store_mark area.now mark.old).mark }
{
    number(store::mark(area, mark))
}

#[unsafe(no_mangle)]
pub extern "C" fn maq_mirror_start(area: &mut [u8], schema: &[u8], run: u32) -> u32
    ensures value { result ≡ mirror_start_number area.old schema.now }
    ensures value_2 { result ≡ number_of (mirror_start area.old schema.now run).status }
    ensures area_after { area.new ≡ (mirror_start area.old schema.now run).area }
{
    number(mirror::start(area, schema, run))
}

#[unsafe(no_mangle)]
pub extern "C" fn maq_mirror_hear(area: &mut [u8], bytes: &[u8]) -> u32
    ensures value { result ≡ hear_number area.old bytes.now }
    ensures value_2 { result ≡ number_of (mirror_hear area.old bytes.now).status }
    ensures area_after { area.new ≡ (mirror_hear area.old bytes.now).area }
{
    number(mirror::hear(area, bytes))
}

// n in four bytes and whether it is level, in five bytes in all.
#[unsafe(no_mangle)]
pub extern "C" fn maq_mirror_progress(area: &[u8], out: &mut [u8]) -> u32
    ensures value { result ≡ asked_number 5 area.now out.old }
    ensures out_value { progress_bytes area.now out.old ≡ record { status = result; out = out.new } }
{
    if out.len() != 5 {
        octets::clear(out);
        return 2;
    }
    let p = mirror::progress(area);
    let status = p.status;
    out[4] = flag(p.level);
    octets::put_number(out, p.n as u64, 4);
    number(status)
}

// Whether a row is there, in one byte.
#[unsafe(no_mangle)]
pub extern "C" fn maq_mirror_has_row(area: &[u8], table: u32, id: &[u8; ID], out: &mut [u8]) -> u32
    ensures value { result ≡ asked_number 1 area.now out.old }
    ensures out_value { presence_bytes area.now table id.now out.old ≡ record { status = result; out = out.new } }
{
    if out.len() != 1 {
        octets::clear(out);
        return 2;
    }
    let p = mirror::has_row(area, small(table), id);
    let status = p.status;
    out[0] = flag(p.there);
    number(status)
}

// A column's count and atoms, in 101 bytes.
#[unsafe(no_mangle)]
pub extern "C" fn maq_mirror_column(
    area: &[u8],
    table: u32,
    id: &[u8; ID],
    column: u32,
    out: &mut [u8],
) -> u32
    ensures value { result ≡ column_number area.now out.old }
    ensures value_2 { result ≡ number_of (mirror_column area.now table id.now column out.old).status }
    ensures out_after { out.new ≡ (mirror_column area.now table id.now column out.old).out }
{
    number(mirror::column(area, small(table), id, small(column), out))
}

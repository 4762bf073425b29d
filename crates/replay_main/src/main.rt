// Replays requests on a store: what each is answered and the records that it sends; then the tables as a mirror has them that heard every record, and as a display
// has them that lost all records after the first commit's.
#![tactic(auto)]

ghost use Rattle.model.specs.Limits.{most_tables, column_record_bytes};
ghost use Rattle.std.specs.Prelude.{◌≡◌, ◌<◌, ◌≤◌, length, IfSome};
ghost use Rattle.std.specs.Iterator.{at_most};

use model::{
    COLUMN_RECORD, COLUMNS, Catalog, ENTRIES, ENTRY, Entry, FRESH_BYTES, ID, LEAST_RECORDS,
    MIRROR_BYTES, ROW_RECORD, STORE_BYTES, Status, TABLES,
};
use programs::{put, put_hex};
use std::env::{Env, FillError};
use std::fs::File;
use std::io::Read;
use std::str;

// To standard error.
fn say(s: &[u8]) {
    io::write_all(2, s);
}

fn say_usage() {
    say(b"usage: replay_main SCHEMA RUN REQUESTS\n");
    say(b"  SCHEMA    a file with a schema's text, as RFC 7047 has it\n");
    say(b"  RUN       the run of the store, a number from 0 to 4294967295\n");
    say(b"  REQUESTS  a file with requests, the params of RFC 7047's transact, one to a line\n");
    say(
        b"Fresh ids are not random: they are counted from 1 on, sixteen to a line, so that a replay has the same ids every time.\n",
    );
}

// The refusal of a call on a store, in words.
fn refusal(status: Status) -> &'static [u8] {
    match status {
        Status::Disordered => b"refused 1: the area is not in good order\n",
        Status::WrongLength => b"refused 2: a length is wrong\n",
        Status::BadSchema => b"refused 3: the schema is not accepted\n",
        Status::BadRequest => b"refused 4: the request is malformed or too large\n",
        Status::OtherDatabase => b"refused 5: the request is for another database\n",
        Status::BadFreshIds => b"refused 6: the fresh ids are not fresh\n",
        Status::AnswerTooLong => b"refused 7: the answer is longer than its buffer\n",
        Status::NumbersSpent => b"refused 10: the record numbers are spent\n",
        _ => b"no refusal of a store\n",
    }
}

// ── arguments and files ──

// To standard error: a path and what the system says.
fn say_error(rt: &HostRuntime, path: &[u8], error: &std::io::Error) {
    say(path);
    say(b": ");
    let _ = eprintln!(rt; "{error}");
}

// The bytes of an open file, to its end or as far as a buffer has room, at the buffer's start; what fails at once is said.
fn read_open<'a>(
    rt: &HostRuntime,
    path: &[u8],
    mut file: File,
    buf: &'a mut [u8],
) -> Option<&'a [u8]>
    ensures { IfSome result (λ bytes. length bytes.now ≤ length buf.old) }
{
    let mut size = 0;
    while size < buf.len() {
        match file.read(&mut buf[size..]) {
            Ok(0) => break,
            Ok(n) => size += n,
            Err(error) => {
                if size == 0 {
                    say_error(rt, path, &error);
                    return None;
                }
                break;
            }
        }
    }
    Some(&buf[..size])
}

// The file of a path, which is text; what fails is said.
fn open(rt: &HostRuntime, path: &[u8]) -> Option<File> {
    let Ok(text) = str::from_utf8(path) else {
        say(path);
        say(b": not UTF-8\n");
        return None;
    };
    File::open(rt, text)
        .map_err(|error| say_error(rt, path, &error))
        .ok()
}

// The bytes of the file of a path, which are fewer than a buffer has room for; what fails is said.
fn read_path<'a>(rt: &HostRuntime, path: &[u8], buf: &'a mut [u8]) -> Option<&'a [u8]>
    ensures { IfSome result (λ bytes. length bytes.now < length buf.old) }
{
    let room = buf.len();
    let bytes = read_open(rt, path, open(rt, path)?, buf)?;
    if bytes.len() < room {
        return Some(bytes);
    }
    say(path);
    say(b": longer than 65535 bytes\n");
    None
}

// An argument at the start of a buffer; empty where it is missing or longer.
fn argument<'a>(rt: &HostRuntime, i: usize, buf: &'a mut [u8]) -> &'a [u8]
    ensures { length result.now ≤ length buf.old }
{
    let n = rt.arg(i, buf).unwrap_or(0);
    &buf[..n]
}

// Whether there is an argument of a number.
fn is_given(rt: &HostRuntime, i: usize) -> bool {
    !matches!(rt.arg(i, &mut [0]), Err(FillError::NotPresent))
}

// The bytes of the file that an argument names.
fn read_file<'a>(rt: &HostRuntime, i: usize, buf: &'a mut [u8]) -> Option<&'a [u8]>
    ensures { IfSome result (λ bytes. length bytes.now < length buf.old) }
{
    read_path(rt, argument(rt, i, &mut io::buffer()), buf)
}

// The run that a text is.
fn run_of(text: &[u8]) -> Option<u32> {
    if !text.iter().all(u8::is_ascii_digit) {
        return None;
    }
    str::from_utf8(text).ok()?.parse().ok()
}

// The run that the second argument is.
fn read_run(rt: &HostRuntime) -> Option<u32> {
    let run = run_of(argument(rt, 2, &mut [0; 20]));
    if run.is_none() {
        say(b"RUN is no number from 0 to 4294967295\n");
    }
    run
}

// ── requests ──

// The fresh ids of line k, which counts from 0: 16 k + 1 to 16 k + 16.
fn fresh_ids(k: usize) -> [u8; FRESH_BYTES] {
    let mut fresh = [0; FRESH_BYTES];
    for i in 0..16 {
        let id = 16 * k as u128 + i as u128 + 1;
        fresh[ID * i..ID * i + ID].copy_from_slice(&id.to_be_bytes());
    }
    fresh
}

// What a request was answered.
fn put_answer(status: Status, text: &[u8]) {
    if matches!(status, Status::Accepted) {
        let n = text.iter().position(|b| *b == 0).unwrap_or(text.len());
        put(b"answer ");
        put(&text[..n]);
        put(b"\n");
    } else {
        put(refusal(status));
    }
}

// The records in a commit's bytes, one after another, up to the zeros behind them.
#[derive(Drop)]
struct Records<'a>(&'a [u8]);

impl<'a> Iterator for Records<'a> {
    type Item = &'a [u8];

    ghost remaining = { λ records. at_most (length records.0.now) };

    fn next(&mut self) -> Option<&'a [u8]> {
        let len = match record::len_of(*self.0.first()?) {
            0 => return None,
            len => len.min(self.0.len()),
        };
        let (record, rest) = self.0.split_at(len);
        self.0 = rest;
        Some(record)
    }
}

// The records of a commit, one to a line.
fn put_records(records: &[u8]) {
    for record in Records(records) {
        put(b"record ");
        put_hex(record);
        put(b"\n");
    }
}

// The records of a commit heard by a mirror.
fn hear_records(area: &mut [u8], records: &[u8]) {
    for record in Records(records) {
        mirror::hear(area, record);
    }
}

// The same by a display that hears the records of the first commit alone.
fn hear_first(area: &mut [u8], records: &[u8]) {
    if mirror::progress(area).n == 0 {
        hear_records(area, records);
    }
}

// Room for the records of a commit.
fn no_records() -> [u8; LEAST_RECORDS] {
    [0; LEAST_RECORDS]
}

// The request on line k, which counts from 0; an empty line is none.
fn replay_request(store: &mut [u8], whole: &mut [u8], display: &mut [u8], line: &[u8], k: usize) {
    if line.is_empty() {
        return;
    }
    put(b"request ");
    put(line);
    put(b"\n");
    let mut records = no_records();
    let mut answer = io::large_buffer();
    let status = store::transact(store, line, &fresh_ids(k), &mut records, &mut answer);
    put_answer(status, &answer);
    put_records(&records);
    hear_records(whole, &records);
    hear_first(display, &records);
}

// The requests, one to a line, and how many lines there are.
fn replay_lines(store: &mut [u8], whole: &mut [u8], display: &mut [u8], requests: &[u8]) -> usize
    ensures { result ≤ length requests.now }
{
    let lines = requests.split_inclusive(|b| *b == b'\n');
    for (k, line) in lines.enumerate() {
        let line = line.strip_suffix(b"\n").unwrap_or(line);
        replay_request(store, whole, display, line, k);
    }
    requests.split_inclusive(|b| *b == b'\n').count()
}

// ── tables ──

// Where the count stands in a column record.
const COUNT_AT: usize = ROW_RECORD + 1;

// A column's count and atoms, at the end of a column record's bytes.
fn ask_column(area: &[u8], table: u8, id: &[u8; ID], column: u8, bytes: &mut [u8])
    requires { length bytes.old ≡ column_record_bytes }
{
    mirror::column(area, table, id, column, &mut bytes[COUNT_AT..]);
}

// A column's name and value, as an answer has them.
fn put_column(area: &[u8], cell: &Entry, table: u8, id: &[u8; ID], column: u8) {
    let mut bytes = [0; COLUMN_RECORD];
    ask_column(area, table, id, column, &mut bytes);
    let atoms = record::atoms(&bytes);
    let mut text = [0; 600];
    let n = json_writer::put_value(&mut text, 0, catalog::kind(cell), bytes[COUNT_AT], &atoms);
    put(b",\"");
    put(catalog::name_of(cell));
    put(b"\":");
    put(&text[..n.min(text.len())]);
}

// A row's id, as an answer has it.
fn put_id(id: &[u8; ID]) {
    let mut text = [0; 59];
    let n = json_writer::put_id(&mut text, 0, id);
    put(b"  {\"_uuid\":");
    put(&text[..n.min(text.len())]);
}

// A row on a line.
fn put_row(area: &[u8], cells: &Catalog, t: usize, id: &[u8; ID])
    requires { t < most_tables }
{
    put_id(id);
    let n = usize::from(catalog::width(&cells[1 + t]));
    for c in 0..n.min(COLUMNS) {
        put_column(area, catalog::column(cells, t, c), t as u8, id, c as u8);
    }
    put(b"}\n");
}

// A table's rows by their ids, of which so many were counted.
fn show_table(area: &[u8], cells: &Catalog, t: usize, ids: u128)
    requires { t < most_tables }
{
    put(b"table ");
    put(catalog::name_of(&cells[1 + t]));
    put(b"\n");
    for i in 1..=ids {
        let id = i.to_be_bytes();
        if mirror::has_row(area, t as u8, &id).there {
            put_row(area, cells, t, &id);
        }
    }
}

// How far a mirror has followed, whether it is level, and its tables.
fn show(area: &[u8], cells: &Catalog, ids: u128) {
    let p = mirror::progress(area);
    put(b"record ");
    io::print_decimal(1, u64::from(p.n));
    put(if p.level {
        b", level\n"
    } else {
        b", not level\n"
    });
    let n = usize::from(catalog::table_count(&cells[0]));
    for t in 0..n.min(TABLES) {
        show_table(area, cells, t, ids);
    }
}

// A mark of the store, heard by the mirror and the display.
fn send_mark(store: &[u8], whole: &mut [u8], display: &mut [u8]) {
    let mut mark = [0; 9];
    store::mark(store, &mut mark);
    put(b"mark ");
    put_hex(&mark);
    put(b"\n");
    mirror::hear(whole, &mark);
    mirror::hear(display, &mark);
}

// The bytes of a store that is not started.
fn store_area() -> [u8; STORE_BYTES] {
    [0; STORE_BYTES]
}

// The bytes of a mirror that is not started.
fn mirror_area() -> [u8; MIRROR_BYTES] {
    [0; MIRROR_BYTES]
}

// A run of a store from its start.
fn replay(text: &[u8], run: u32, requests: &[u8]) {
    let mut store = store_area();
    let status = store::start(&mut store, text, run);
    if !matches!(status, Status::Accepted) {
        say(refusal(status));
        return;
    }
    let mut whole = mirror_area();
    let mut display = mirror_area();
    mirror::start(&mut whole, text, run);
    mirror::start(&mut display, text, run);
    let lines = replay_lines(&mut store, &mut whole, &mut display, requests);
    let ids = 16 * lines as u128;
    send_mark(&store, &mut whole, &mut display);
    let mut cells = [[0; ENTRY]; ENTRIES];
    schema::read(text, &mut cells);
    put(b"a mirror that heard every record: ");
    show(&whole, &cells, ids);
    put(b"a display that lost all records after the first commit's: ");
    show(&display, &cells, ids);
}

fn main(rt: HostRuntime) {
    if !is_given(&rt, 3) || is_given(&rt, 4) {
        say_usage();
        return;
    }
    let run = read_run(&rt);
    let mut space = io::large_buffer();
    let text = read_file(&rt, 1, &mut space);
    let mut space = io::large_buffer();
    let requests = read_file(&rt, 3, &mut space);
    if let (Some(run), Some(text), Some(requests)) = (run, text, requests) {
        replay(text, run, requests);
    }
}

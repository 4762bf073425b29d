// The types that the definitions and the code share.
#![tactic(auto)]

use std::ops::ControlFlow;

// Why and where reading stopped: at a byte that does not fit, or at the bracket that opened one level too many.
#[derive(Clone, Copy)]
pub enum ReadError {
    Stop(usize),
    Deep(usize),
}

// What reading gives: the position past what was read.
pub type Read = Result<usize, ReadError>;

// What a loop does next: one more turn from a position on, or the end.
pub type Next = ControlFlow<Read, usize>;

// Whether a value's first byte opens a level.
#[derive(Clone, Copy)]
pub enum Open {
    Array,
    Object,
    Scalar,
}

// The kinds of JSON values.
#[derive(Clone, Copy, PartialEq, Eq)]
pub enum Kind {
    Null,
    Truth,
    Number,
    Text,
    Array,
    Object,
}

// An integer's sign and magnitude, or that a value is none.
#[derive(Clone, Copy)]
pub enum Whole {
    Plus(u64),
    Minus(u64),
    Other,
}

// How an operation or a commit fails, in the order of document 01's error checks; Fine, the last, where it does not.
#[derive(Clone, Copy, PartialEq, Eq, PartialOrd, Ord)]
pub enum Fault {
    Syntax,
    Resources,
    Duplicate,
    Constraint,
    Domain,
    Range,
    Aborted,
    Integrity,
    Fine,
}

// The functions of conditions (RFC 7047, 5.1).
#[derive(Clone, Copy)]
pub enum Function {
    Less,
    AtMost,
    Equal,
    Unequal,
    AtLeast,
    Greater,
    Includes,
    Excludes,
}

// The mutators of mutations (RFC 7047, 5.1).
#[derive(Clone, Copy)]
pub enum Mutator {
    Add,
    Subtract,
    Multiply,
    Divide,
    Remainder,
    Insert,
    Delete,
}

// A call's status: accepted, or the refusal of document 01's table; a mirror tells an accepted arrival apart by four more. (The answer is a transact's JSON text.)
#[derive(Clone, Copy)]
pub enum Status {
    Accepted,
    Disordered,
    WrongLength,
    BadSchema,
    BadRequest,
    OtherDatabase,
    BadFreshIds,
    AnswerTooLong,
    BadRecord,
    OtherRun,
    NumbersSpent,
    Repeat,
    Behind,
    Heard,
    Applied,
}

// ── limits (document 01's first table), each named once; sums are derived ──

// Bytes of a schema's text and of a request's, at most.
pub const SCHEMA_TEXT: usize = 4096;

pub const REQUEST_TEXT: usize = 8192;

// Operations in a request, tables, columns in a table, rows in all tables, elements in a set, indexes in a table, columns in an index.
pub const OPERATIONS: usize = 16;

pub const TABLES: usize = 4;

pub const COLUMNS: usize = 6;

pub const ROWS: usize = 32;

pub const ELEMENTS: usize = 4;

pub const INDEXES: usize = 2;

pub const INDEX_COLUMNS: usize = 3;

// Bytes of a string value or a name, of an atom that has one behind a length byte, and of an id.
pub const TEXT: usize = 24;

pub const ATOM: usize = 1 + TEXT;

pub const ID: usize = 16;

// The last record number.
pub const LAST_NUMBER: u32 = 4294967295;

// ── a row in cells: the first has its table, id and counts; the others are atoms, as many to a column as a set has elements ──
pub const CELLS: usize = 1 + ELEMENTS * COLUMNS;

pub const ROW_BYTES: usize = ATOM * CELLS;

pub const ID_OFFSET: usize = 1;

pub const COUNTS_OFFSET: usize = ID_OFFSET + ID;

pub type Atom = [u8; ATOM];

pub type Atoms = [Atom; ELEMENTS];

pub type Row = [Atom; CELLS];

// ── the catalog in entries: one for the database, one for each table, one for each column of each table ──
pub const ENTRY: usize = 48;

pub const ENTRIES: usize = 1 + TABLES + TABLES * COLUMNS;

pub const CATALOG_BYTES: usize = ENTRY * ENTRIES;

pub type Entry = [u8; ENTRY];

pub type Catalog = [Entry; ENTRIES];

// ── an area: run, number, catalog, how many rows, the rows; a mirror's has its highest number heard and two flags behind that ──
pub const NUMBER: usize = 4;

pub const RUN_OFFSET: usize = 0;

pub const NUMBER_OFFSET: usize = RUN_OFFSET + NUMBER;

pub const CATALOG_OFFSET: usize = NUMBER_OFFSET + NUMBER;

pub const COUNT_OFFSET: usize = CATALOG_OFFSET + CATALOG_BYTES;

pub const ROWS_OFFSET: usize = COUNT_OFFSET + 1;

pub const STORE_BYTES: usize = ROWS_OFFSET + ROW_BYTES * ROWS;

pub const TOP_OFFSET: usize = STORE_BYTES;

pub const HEARD_OFFSET: usize = TOP_OFFSET + NUMBER;

pub const WHOLE_OFFSET: usize = HEARD_OFFSET + 1;

pub const MIRROR_BYTES: usize = WHOLE_OFFSET + 1;

// ── buffers: the bytes of each kind of record, of the longest commit (all rows gone, as many born with all their columns, an end), of fresh ids, and the least answer ──
pub const END_RECORD: usize = 1 + NUMBER + NUMBER;

pub const ROW_RECORD: usize = END_RECORD + 1 + ID;

pub const VALUE_BYTES: usize = 1 + ATOM * ELEMENTS;

pub const COLUMN_RECORD: usize = ROW_RECORD + 1 + VALUE_BYTES;

pub const LEAST_RECORDS: usize = ROWS * ROW_RECORD
    + ROWS * (ROW_RECORD + COLUMNS * COLUMN_RECORD)
    + END_RECORD;

pub const FRESH_BYTES: usize = ID * OPERATIONS;

pub const LEAST_ANSWER: usize = 64;

pub const LEAST_MARK: usize = END_RECORD;

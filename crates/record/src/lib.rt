// The records of the line: one byte of kind, then a body whose length the kind fixes. A record's id and atoms stay where they are and are lent beside its struct.
#![tactic(auto)]

ghost use Rattle.std.specs.Prelude.{◌≡◌, ◌∷◌, ◌++◌, ◌+◌, ◌*◌, ◌≤◌, eqb, length, drop};
ghost use Rattle.model.specs.Limits.{atom_bytes, id_bytes, number_bytes, most_elements, end_bytes, row_record_bytes, column_record_bytes};
ghost use Rattle.model.specs.Octets.{value, part};
ghost use Rattle.model.specs.Base.{flat};
ghost use Rattle.model.specs.Records.{record_bytes};
ghost use Rattle.record.specs.Kinds.{born_of, gone_of, column_of, end_of, mark_of, born_record, gone_record, column_record, end_record, mark_record};
ghost use Rattle.record.specs.Writing.{start_bytes, head_bytes, Wrote};
ghost use Rattle.record.specs.Reading.{atoms_in, arrival_record, Sized, ReadAs, known_in, listed_record};

use model::{ATOM, Atom, Atoms, COLUMN_RECORD, END_RECORD, NUMBER, ROW_RECORD};

// Where the parts of a record lie, behind its kind: run, number, table, id, column, count, atoms.
const RUN_AT: usize = 1;

const NUMBER_AT: usize = RUN_AT + NUMBER;

const TABLE_AT: usize = END_RECORD;

pub const ID_AT: usize = TABLE_AT + 1;

const COLUMN_AT: usize = ROW_RECORD;

const COUNT_AT: usize = COLUMN_AT + 1;

const ATOMS_AT: usize = COUNT_AT + 1;

// Where the second, the third and the fourth atom lie behind the first.
const SECOND: usize = ATOM;

const THIRD: usize = SECOND + ATOM;

const FOURTH: usize = THIRD + ATOM;

// What every record begins with: kind, run, number.
fn put_start(out: &mut [u8], kind: u8, run: u32, number: u32)
    requires { end_bytes ≤ length out.old }
    ensures { out.new ≡ start_bytes kind run number ++ drop end_bytes out.old }
{
    leaf::put_byte(out, kind);
    octets::put_number(&mut out[RUN_AT..], run as u64, NUMBER);
    octets::put_number(&mut out[NUMBER_AT..], number as u64, NUMBER);
}

// What the records on a row begin with: kind, run, number, table, id.
fn put_head(out: &mut [u8], kind: u8, run: u32, number: u32, table: u8, id: &[u8])
    requires { (row_record_bytes ≤ length out.old) × (length id.now ≡ id_bytes) }
    ensures { out.new ≡ head_bytes kind run number table (value id.now) ++ drop row_record_bytes out.old }
{
    put_start(out, kind, run, number);
    leaf::put_byte(&mut out[TABLE_AT..], table);
    octets::put_bytes(&mut out[ID_AT..], id);
}

// The first bytes are the atom's.
fn put_atom(out: &mut [u8], atom: &Atom)
    requires { atom_bytes ≤ length out.old }
    ensures atom_len { length atom.now ≡ atom_bytes }
    ensures out_after { out.new ≡ atom.now ++ drop atom_bytes out.old }
{
    octets::put_bytes(out, atom);
}

// The first bytes are the atoms', one after another.
pub fn put_atoms(out: &mut [u8], atoms: &[Atom])
    requires { (atom_bytes * most_elements ≤ length out.old) × (length atoms.now ≡ most_elements) }
    ensures atoms_len { length (flat atoms.now) ≡ atom_bytes * most_elements }
    ensures out_after { out.new ≡ flat atoms.now ++ drop (atom_bytes * most_elements) out.old }
{
    put_atom(out, &atoms[0]);
    put_atom(&mut out[SECOND..], &atoms[1]);
    put_atom(&mut out[THIRD..], &atoms[2]);
    put_atom(&mut out[FOURTH..], &atoms[3]);
}

// A new row.
#[derive(Clone, Copy)]
pub struct Born {
    pub run: u32,
    pub number: u32,
    pub table: u8,
}

impl Born {
    pub const KIND: u8 = 1;

    pub const LEN: usize = ROW_RECORD;

    pub fn new(run: u32, number: u32, table: u8) -> Self
        ensures { result ≡ born_of run number table }
    {
        Born { run, number, table }
    }

    #[tactic(auto, unfolding(crate::specs::Writing::start_bytes, crate::specs::Writing::head_bytes))]
    pub fn write(self, id: &[u8], out: &mut [u8])
        requires { (row_record_bytes ≤ length out.old) × (length id.now ≡ id_bytes) }
        ensures { Wrote (born_record self id.now) row_record_bytes out.old out.new }
    {
        put_head(out, Self::KIND, self.run, self.number, self.table, id);
    }
}

// A row that went.
#[derive(Clone, Copy)]
pub struct Gone {
    pub run: u32,
    pub number: u32,
    pub table: u8,
}

impl Gone {
    pub const KIND: u8 = 2;

    pub const LEN: usize = ROW_RECORD;

    pub fn new(run: u32, number: u32, table: u8) -> Self
        ensures { result ≡ gone_of run number table }
    {
        Gone { run, number, table }
    }

    #[tactic(auto, unfolding(crate::specs::Writing::start_bytes, crate::specs::Writing::head_bytes))]
    pub fn write(self, id: &[u8], out: &mut [u8])
        requires { (row_record_bytes ≤ length out.old) × (length id.now ≡ id_bytes) }
        ensures { Wrote (gone_record self id.now) row_record_bytes out.old out.new }
    {
        put_head(out, Self::KIND, self.run, self.number, self.table, id);
    }
}

// A column's value: its count, and the atoms beside it.
#[derive(Clone, Copy)]
pub struct Column {
    pub run: u32,
    pub number: u32,
    pub table: u8,
    pub column: u8,
    pub count: u8,
}

impl Column {
    pub const KIND: u8 = 3;

    pub const LEN: usize = COLUMN_RECORD;

    pub fn new(run: u32, number: u32, table: u8, column: u8, count: u8) -> Self
        ensures { result ≡ column_of run number table column count }
    {
        Column {
            run,
            number,
            table,
            column,
            count,
        }
    }

    pub fn write(self, id: &[u8], atoms: &[Atom], out: &mut [u8])
        requires { (column_record_bytes ≤ length out.old) × (length id.now ≡ id_bytes) × (length atoms.now ≡ most_elements) }
        ensures { Wrote (column_record self id.now atoms.now) column_record_bytes out.old out.new }
    {
        put_head(out, Self::KIND, self.run, self.number, self.table, id);
        leaf::put_byte(&mut out[COLUMN_AT..], self.column);
        leaf::put_byte(&mut out[COUNT_AT..], self.count);
        put_atoms(&mut out[ATOMS_AT..], atoms);
    }
}

// The end of a commit.
#[derive(Clone, Copy)]
pub struct End {
    pub run: u32,
    pub number: u32,
}

impl End {
    pub const KIND: u8 = 4;

    pub const LEN: usize = END_RECORD;

    pub fn new(run: u32, number: u32) -> Self
        ensures { result ≡ end_of run number }
    {
        End { run, number }
    }

    #[tactic(auto, unfolding(crate::specs::Writing::start_bytes))]
    pub fn write(self, out: &mut [u8])
        requires { end_bytes ≤ length out.old }
        ensures { Wrote (end_record self) end_bytes out.old out.new }
    {
        put_start(out, Self::KIND, self.run, self.number);
    }
}

// The last number given out.
#[derive(Clone, Copy)]
pub struct Mark {
    pub run: u32,
    pub last: u32,
}

impl Mark {
    pub const KIND: u8 = 5;

    pub const LEN: usize = END_RECORD;

    pub fn new(run: u32, last: u32) -> Self
        ensures { result ≡ mark_of run last }
    {
        Mark { run, last }
    }

    #[tactic(auto, unfolding(crate::specs::Writing::start_bytes))]
    pub fn write(self, out: &mut [u8])
        requires { end_bytes ≤ length out.old }
        ensures { Wrote (mark_record self) end_bytes out.old out.new }
    {
        put_start(out, Self::KIND, self.run, self.last);
    }
}

// What bytes are read as: a record, whose id and atoms stay in the bytes, or one of an unknown kind or the wrong length.
#[derive(Clone, Copy)]
pub enum Arrival {
    Born(Born),
    Gone(Gone),
    Column(Column),
    End(End),
    Mark(Mark),
    Bad,
}

// How many bytes a record of the kind has; 0 where there is no such kind.
pub fn len_of(kind: u8) -> usize
    ensures { result ≡ record_bytes kind }
{
    match kind {
        Born::KIND => Born::LEN,
        Gone::KIND => Gone::LEN,
        Column::KIND => Column::LEN,
        End::KIND => End::LEN,
        Mark::KIND => Mark::LEN,
        _ => 0,
    }
}

// The number in a number's bytes.
fn four(bytes: &[u8], at: usize) -> u32
    requires { at + number_bytes ≤ length bytes.now }
    ensures { result ≡ value (part at number_bytes bytes.now) }
{
    octets::number(&bytes[at..], NUMBER) as u32
}

// The record that bytes are.
pub fn read(bytes: &[u8]) -> Arrival
    ensures { ReadAs result bytes.now }
{
    let Some(&kind) = bytes.first() else {
        return Arrival::Bad;
    };
    if bytes.len() != len_of(kind) {
        return Arrival::Bad;
    }
    let run = four(bytes, RUN_AT);
    let number = four(bytes, NUMBER_AT);
    match kind {
        Born::KIND => Arrival::Born(Born::new(run, number, bytes[TABLE_AT])),
        Gone::KIND => Arrival::Gone(Gone::new(run, number, bytes[TABLE_AT])),
        Column::KIND => Arrival::Column(Column::new(
            run,
            number,
            bytes[TABLE_AT],
            bytes[COLUMN_AT],
            bytes[COUNT_AT],
        )),
        End::KIND => Arrival::End(End::new(run, number)),
        _ => Arrival::Mark(Mark::new(run, number)),
    }
}

// The atom that stands at a place.
fn atom_at(bytes: &[u8], at: usize) -> Atom
    requires { at + atom_bytes ≤ length bytes.now }
    ensures { result ≡ part at atom_bytes bytes.now }
{
    let mut atom = [0u8; ATOM];
    octets::put_bytes(&mut atom, &bytes[at..at + ATOM]);
    atom
}

// The atoms of a column record.
pub fn atoms(bytes: &[u8]) -> Atoms
    requires { column_record_bytes ≤ length bytes.now }
    ensures { result ≡ atoms_in bytes.now }
{
    [
        atom_at(bytes, ATOMS_AT),
        atom_at(bytes, ATOMS_AT + SECOND),
        atom_at(bytes, ATOMS_AT + THIRD),
        atom_at(bytes, ATOMS_AT + FOURTH),
    ]
}

// Whether the number that bytes stand for is 0.
pub fn is_nil(id: &[u8]) -> bool
    ensures { result ≡ eqb (value id.now) 0 }
{
    id.iter().all(|b| *b == 0)
}

// Whether a schema of so many tables has the table, and the id is not all zero.
pub fn known(tables: usize, table: u8, id: &[u8]) -> bool
    requires { length id.now ≡ id_bytes }
    ensures { result ≡ known_in tables table (value id.now) }
{
    (table as usize) < tables && !is_nil(id)
}

// Whether a schema, given by each table's number of columns, has the record's table and column, and the id is not all zero.
#[tactic(auto, using(crate::proofs::Listings::known_table), unfolding(crate::specs::Reading::arrival_record, crate::specs::Reading::listed_record, crate::specs::Reading::listed_in, crate::specs::Reading::Sized))]
pub fn listed(arrival: Arrival, bytes: &[u8], counts: &[u8]) -> bool
    requires { Sized arrival (length bytes.now) }
    ensures { result ≡ listed_record counts.now (arrival_record arrival bytes.now) }
{
    match arrival {
        Arrival::Born(b) => known(counts.len(), b.table, &bytes[ID_AT..ROW_RECORD]),
        Arrival::Gone(g) => known(counts.len(), g.table, &bytes[ID_AT..ROW_RECORD]),
        Arrival::Column(c) => {
            known(counts.len(), c.table, &bytes[ID_AT..ROW_RECORD])
                && c.column < counts[c.table as usize]
        }
        Arrival::End(_) | Arrival::Mark(_) => true,
        Arrival::Bad => false,
    }
}

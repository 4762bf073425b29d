// Document 01's first reading: the 163 bytes of a row of Probe that is new in run 1, its one column and the end, written one after another and printed in hex.
#![tactic(auto)]

ghost use Rattle.std.specs.Prelude.{◌≡◌, ◌++◌, map, ◌≤◌, ◌<◌, length, drop};
ghost use Rattle.model.specs.Base.{flat};
ghost use Rattle.model.specs.Records.{encode, number_from};
ghost use Rattle.record_main.specs.Reading.{new_row};

use model::{ATOM, Atom};
use programs::{put, put_hex};
use record::{Born, Column, End};

// The first commit of run 1: a new row of table 0 with one column, which has one element. Each record is lent the rest from where the last one ended.
fn write_commit(id: &[u8], atoms: &[Atom], out: &mut [u8])
    requires { (163 ≤ length out.old) × (length id.now ≡ 16) × (length atoms.now ≡ 4) }
    ensures { out.new ≡ flat (map encode (number_from 1 0 (new_row id.now atoms.now))) ++ drop 163 out.old }
{
    let mut at = 0;
    Born::new(1, 1, 0).write(id, &mut out[at..]);
    at += Born::LEN;
    Column::new(1, 2, 0, 0, 1).write(id, atoms, &mut out[at..]);
    at += Column::LEN;
    End::new(1, 3).write(&mut out[at..]);
}

// A line of bytes in hex.
fn print(bytes: &[u8]) {
    put_hex(bytes);
    put(b"\n");
}

fn main() {
    let id = 1u128.to_be_bytes();
    let mut name = [0; ATOM];
    name[..5].copy_from_slice(b"\x04pH-1");
    let blank = [0; ATOM];
    let atoms = [name, blank, blank, blank];
    let mut out = [0u8; 163];
    write_commit(&id, &atoms, &mut out);
    print(&out[0..26]);
    print(&out[26..54]);
    print(&out[54..79]);
    print(&out[79..154]);
    print(&out[154..163]);
}

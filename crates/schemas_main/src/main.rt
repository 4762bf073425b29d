// Reads schemas from standard input, each after its length in two bytes, and writes what was read: refused, or a line for the database, each table and each column, with its number, its name and the bytes after the name.
#![tactic(auto)]

ghost use Rattle.model.specs.Limits.{most_tables};
ghost use Rattle.std.specs.Prelude.{◌<◌};

use model::{ATOM, COLUMNS, Catalog, ENTRIES, ENTRY, Entry, TABLES};
use programs::{Texts, put, put_hex};

// A cell's line: a word, a number, the name, and the bytes behind it.
fn put_cell(word: &[u8], number: usize, cell: &Entry) {
    put(word);
    io::print_decimal(1, number as u64);
    put(b" ");
    put(catalog::name_of(cell));
    put(b" ");
    put_hex(&cell[ATOM..]);
    put(b"\n");
}

// The columns of table t.
fn put_columns(cells: &Catalog, t: usize)
    requires { t < most_tables }
{
    let n = usize::from(catalog::width(&cells[1 + t]));
    for i in 0..n.min(COLUMNS) {
        put_cell(b"  column ", i, catalog::column(cells, t, i));
    }
}

// The tables of a schema.
fn put_tables(cells: &Catalog) {
    let n = usize::from(catalog::table_count(&cells[0]));
    for t in 0..n.min(TABLES) {
        put_cell(b" table ", t, &cells[1 + t]);
        put_columns(cells, t);
    }
}

// What is read of a schema.
fn report(text: &[u8]) {
    let mut cells = [[0u8; ENTRY]; ENTRIES];
    if schema::read(text, &mut cells) {
        put_cell(b"database ", 0, &cells[0]);
        put_tables(&cells);
    } else {
        put(b"refused\n");
    }
}

fn main() {
    let mut space = io::large_buffer();
    let n = io::read_full(0, &mut space);
    for text in Texts(&space[..n]) {
        report(text);
    }
}

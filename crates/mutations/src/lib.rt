// Rows mutated: each mutation is read once, and put on one marked row after another.
#![tactic(auto)]

pub mod read;
pub mod step;

ghost use Rattle.std.specs.Prelude.{◌≡◌, true, map, ◌≤◌, ◌<◌, length};
ghost use Rattle.model.specs.Limits.{most_columns, most_rows};
ghost use Rattle.inner.specs.Positions.{items_fine};
ghost use Rattle.model.specs.Catalog.{column_from};
ghost use Rattle.uuids.specs.Named.{Running};
ghost use Rattle.mutations.specs.Mutating.{fault_or, mutation_from, Ready, mutations_at};
ghost use Rattle.mutations.specs.Rows.{MarkedStepped, MarkedMutated};

use model::{ATOM, Atoms, ELEMENTS, Entry, Fault, ROWS, Row};
use read::Mutation;

// How far rows are mutated: up to the first on which a step fails, and the fault of that; or all of them, and no fault.
#[derive(Clone, Copy)]
struct Stop {
    fault: Fault,
    end: usize,
}

// A mutation that has no fault, on one marked row after another, up to the first step that fails.
fn mutate_marked(
    text: &[u8],
    ends: &[u16],
    names: &[u8],
    columns: &[Entry],
    m: Mutation,
    atoms: &Atoms,
    rows: &mut [Row],
    marks: &[bool],
) -> Stop
    requires running { Running text.now ends.now names.now }
    requires ready { Ready text.now m atoms.now }
    requires place_in_bounds { (m.place < length columns.now) × (length columns.now ≤ most_columns) }
    requires marks_len_bound { (length marks.now ≤ most_rows) × (length marks.now ≤ length rows.old) }
    ensures { MarkedStepped (map column_from columns.now) (mutation_from text.now names.now columns.now m atoms.now) marks.now result rows.old rows.new }
{
    for i in 0..marks.len() {
        if marks[i] {
            let f = step::mutate_row(text, ends, names, columns, m, atoms, &mut rows[i]);
            let ok = leaf::is_fine(f);
            if !ok {
                return Stop { fault: f, end: i };
            }
        }
    }
    Stop {
        fault: Fault::Fine,
        end: marks.len(),
    }
}

// A fault, or another where it is none.
fn fault_or(f: Fault, g: Fault) -> Fault
    ensures { result ≡ fault_or f g }
{
    if leaf::is_fine(f) {
        return g;
    }
    f
}

// The mutations from f on, each read once and put on the rows that are marked, of the first n: the fault of the mutations as read, or else that of the first row on which a step fails. After a fault these rows are free, but in order.
pub fn mutate_rows(
    text: &[u8],
    ends: &[u16],
    names: &[u8],
    columns: &[Entry],
    f: Option<usize>,
    rows: &mut [Row],
    n: usize,
    marks: &[bool; ROWS],
) -> Fault
    requires running { Running text.now ends.now names.now }
    requires f_value { items_fine text.now f ≡ true }
    requires columns_len_bound { length columns.now ≤ most_columns }
    requires n_le_most_rows { (n ≤ most_rows) × (n ≤ length rows.old) }
    ensures { MarkedMutated (map column_from columns.now) (mutations_at text.now names.now columns.now f) n marks.now result rows.old rows.new }
{
    let all = &marks[..];
    let mut atoms = [[0u8; ATOM]; ELEMENTS];
    let mut w = Fault::Fine;
    let mut e = n;
    let mut stop = Fault::Fine;
    let mut g = f;
    while let Some(p) = g {
        let m = read::read_mutation(text, ends, names, columns, p, &mut atoms);
        let t = m.fault;
        w = leaf::earlier(w, t);
        let ok = leaf::is_fine(w);
        if ok {
            let s = mutate_marked(text, ends, names, columns, m, &atoms, rows, &all[..e]);
            e = s.end;
            let v = s.fault;
            stop = fault_or(v, stop);
        }
        g = nav::next_item(text, ends, p);
    }
    fault_or(w, stop)
}

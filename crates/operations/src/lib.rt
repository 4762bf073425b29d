// The operations of a request, run in order on working rows; their results, written as they are produced.
#![tactic(auto)]

pub mod clauses;
pub mod on_table;
pub mod operation;

ghost use Rattle.std.specs.Prelude.{◌≡◌, true, false, List, ℕ, ◌≤◌, ◌<◌, ◌+◌, ◌^◌, length};
ghost use Rattle.selection.specs.Most.{result_most};
ghost use Rattle.model.specs.Limits.{most_operations, most_rows, fresh_bytes};
ghost use Rattle.inner.specs.Positions.{Says, items_from, items_fine};
ghost use Rattle.catalog.specs.Accepted.{Accepted};
ghost use Rattle.json_writer.specs.Put.{Put};
ghost use Rattle.json_writer.specs.Texts.{joined};
ghost use Rattle.fresh.specs.Fresh.{fresh_at};
ghost use Rattle.uuids.specs.Named.{Running};
ghost use Rattle.operations.specs.Ran.{Room, may_change, Answers};
ghost use Rattle.operations.specs.Running.{Listed, nulls_most, stop_most, nulls_from, Stopped, AllDone};

use model::{Catalog, Fault, Row};
use on_table::Reply;

// What the operations leave: the first fault, whether there is something to commit (no fault, and an operation that may have changed a row), how many rows there are, and where the answer ends.
#[derive(Clone, Copy)]
pub struct Finish {
    pub fault: Fault,
    pub pending: bool,
    pub count: usize,
    pub at: usize,
}

// Whether an operation that answers so may have changed a row.
fn may_change(reply: Reply) -> bool
    ensures { result ≡ may_change reply }
{
    match reply {
        Reply::Empty => false,
        Reply::Count(k) => 0 < k,
        Reply::Id => true,
        Reply::Rows(_) => false,
    }
}

// Nulls for the operations from g on, at most 16 of them, each after a comma.
fn put_nulls(text: &[u8], ends: &[u16], g: Option<usize>, answer: &mut [u8], at: usize) -> usize
    requires says { Says text.now ends.now }
    requires g_value { items_fine text.now g ≡ true }
    requires g_len_bound { length (items_from text.now g) ≤ most_operations }
    requires nulls_most_bound { at + nulls_most < 2 ^ 64 }
    ensures { Put nulls_most answer.old at (joined false (nulls_from text.now g)) result answer.new }
{
    let mut h = g;
    let mut e = at;
    while let Some(p) = h {
        e = json_writer::put_comma(answer, e, false);
        e = json_writer::put_null(answer, e);
        h = nav::next_item(text, ends, p);
    }
    e
}

// The result of operation i, after an operation that gave no fault; rows are there already.
fn put_result(answer: &mut [u8], at: usize, reply: Reply, names: &[u8], i: usize) -> usize
    requires result_most_bound { at + result_most < 2 ^ 64 }
    requires fresh_bytes_in_bounds { fresh_bytes ≤ length names.now }
    requires i_lt_most_operations { i < most_operations }
    ensures { (begun text : List ℕ) → Answers (fresh_at names.now i) at begun answer.old reply text → Put result_most begun at text result answer.new }
{
    match reply {
        Reply::Empty => json_writer::put_bytes(answer, at, b"{}"),
        Reply::Count(k) => json_writer::put_count(answer, at, k as u64),
        Reply::Id => json_writer::put_insert(answer, at, fresh::id_at(names, i)),
        Reply::Rows(e) => e,
    }
}

// What is left by an operation that fails, where n rows were there before it: its error, and nulls for the operations from g on.
fn stop(
    text: &[u8],
    ends: &[u16],
    g: Option<usize>,
    fault: Fault,
    n: usize,
    answer: &mut [u8],
    at: usize,
) -> Finish
    requires says { Says text.now ends.now }
    requires g_value { items_fine text.now g ≡ true }
    requires g_len_bound { length (items_from text.now g) ≤ most_operations }
    requires stop_most_bound { at + stop_most < 2 ^ 64 }
    ensures { Stopped text.now g fault n at answer.old answer.new result }
{
    let e = json_writer::put_error(answer, at, fault);
    let end = put_nulls(text, ends, g, answer, e);
    Finish {
        fault: fault,
        pending: false,
        count: n,
        at: end,
    }
}

// Runs the operations from ops on, up to the first that fails.
pub fn run(
    text: &[u8],
    ends: &[u16],
    ops: Option<usize>,
    names: &[u8],
    schema: &Catalog,
    rows: &mut [Row],
    n: usize,
    answer: &mut [u8],
) -> Finish
    requires running { Running text.now ends.now names.now }
    requires accepted { Accepted schema.now }
    requires listed { Listed text.now ops names.now }
    requires n_le_most_rows { (n ≤ most_rows) × Room n (length (items_from text.now ops)) rows.old }
    ensures { AllDone text.now ops names.now schema.now n rows.old rows.new answer.old answer.new result }
{
    let mut at = json_writer::put_byte(answer, 0, b'[');
    let mut g = ops;
    let mut i = 0;
    let mut m = n;
    let mut pending = false;
    loop {
        let Some(p) = g else {
            return Finish {
                fault: Fault::Fine,
                pending: pending,
                count: m,
                at: at,
            };
        };
        at = json_writer::put_comma(answer, at, i == 0);
        let call = operation::read(text, ends, schema, i, p, m);
        let d = operation::operate(text, ends, names, schema, call, rows, answer, at);
        let f = d.fault;
        let q = d.reply;
        g = nav::next_item(text, ends, p);
        if leaf::is_fine(f) {
            at = put_result(answer, at, q, names, i);
            pending = pending | may_change(q);
            m = d.count;
            i += 1;
        } else {
            return stop(text, ends, g, f, m, answer, at);
        }
    }
}

// One operation of a request, by its "op" and its table.
ghost use Rattle.std.specs.Prelude.{◌≡◌, true, List, ℕ, ◌+◌, ◌^◌, ◌≤◌, ◌<◌};
ghost use Rattle.selection.specs.Most.{result_most};
ghost use Rattle.model.specs.Limits.{most_tables, most_rows};
ghost use Rattle.inner.specs.Positions.{Says, well_at, tree_at};
ghost use Rattle.model.specs.Members.{members_in};
ghost use Rattle.model.specs.Operations.{table_in};
ghost use Rattle.model.specs.Catalog.{packed_tables, table_count};
ghost use Rattle.operations.specs.declared.on_table.Operation.TheVariants.{Comment, Abort};
ghost use Rattle.operations.specs.Ran.{Effect};
ghost use Rattle.operations.specs.Performed.{Begun, Still, operation_by, operation_in, is_on_table, Called};

use super::on_table::{Call, Done, Operation, Reply};
use model::{Catalog, Fault, Kind, Row};

// Comment: it answers {}, and needs a string.
fn run_comment(text: &[u8], ends: &[u16], call: Call) -> Done
    requires says { Says text.now ends.now }
    requires at_value { well_at text.now call.at ≡ true }
    requires count_le_most_rows { call.count ≤ most_rows }
    ensures { Still Comment text.now call result }
{
    let slots = members::fields(text, ends, call.at, b"\x02op\x07comment");
    let k = members::kind_in(text, slots[1]);
    let t = leaf::is_kind(k, Kind::Text);
    if slots[9] == 0 {
        if t {
            return Done {
                fault: Fault::Fine,
                count: call.count,
                reply: Reply::Empty,
            };
        }
    }
    Done {
        fault: Fault::Syntax,
        count: call.count,
        reply: Reply::Empty,
    }
}

// Abort: it always fails.
fn run_abort(text: &[u8], ends: &[u16], call: Call) -> Done
    requires says { Says text.now ends.now }
    requires at_value { well_at text.now call.at ≡ true }
    requires count_le_most_rows { call.count ≤ most_rows }
    ensures { Still Abort text.now call result }
{
    let slots = members::fields(text, ends, call.at, b"\x02op");
    if slots[9] == 0 {
        return Done {
            fault: Fault::Aborted,
            count: call.count,
            reply: Reply::Empty,
        };
    }
    Done {
        fault: Fault::Syntax,
        count: call.count,
        reply: Reply::Empty,
    }
}

// The table that the operation at `op` names.
fn table_in(text: &[u8], ends: &[u16], schema: &Catalog, op: usize) -> Option<usize>
    requires says { Says text.now ends.now }
    requires op_value { well_at text.now op ≡ true }
    requires schema_bound { table_count schema.now ≤ most_tables }
    ensures { result ≡ table_in (packed_tables schema.now) (members_in (tree_at text.now op)) }
{
    let f = text::find(text, ends, op, b"table");
    match f {
        Some(p) => conditions::lookup::table_at(text, p, schema),
        None => None,
    }
}

// The operation of a word's number.
fn operation_of(k: usize) -> Operation
    ensures { result ≡ operation_by k }
{
    if k == 0 {
        return Operation::Insert;
    }
    if k == 1 {
        return Operation::Select;
    }
    if k == 2 {
        return Operation::Update;
    }
    if k == 3 {
        return Operation::Mutate;
    }
    if k == 4 {
        return Operation::Delete;
    }
    if k == 5 {
        return Operation::Comment;
    }
    if k == 6 {
        return Operation::Abort;
    }
    Operation::Unknown
}

// The operation that the "op" of the object at `op` names.
fn operation_at(text: &[u8], ends: &[u16], op: usize) -> Operation
    requires says { Says text.now ends.now }
    requires op_value { well_at text.now op ≡ true }
    ensures { result ≡ operation_in (members_in (tree_at text.now op)) }
{
    let f = text::find(text, ends, op, b"op");
    let Some(p) = f else {
        return Operation::Unknown;
    };
    let k = members::choose(
        text,
        p,
        b"\x06insert\x06select\x06update\x06mutate\x06delete\x07comment\x05abort",
    );
    operation_of(k)
}

// Whether an operation is one on a table.
fn is_on_table(k: Operation) -> bool
    ensures { result ≡ is_on_table k }
{
    matches!(
        k,
        Operation::Insert
            | Operation::Select
            | Operation::Update
            | Operation::Mutate
            | Operation::Delete
    )
}

// Operation i, at `op`, where n rows are there before it: what it is and its table. One on a table that the schema does not have is unknown.
pub fn read(text: &[u8], ends: &[u16], schema: &Catalog, i: usize, op: usize, n: usize) -> Call
    requires says { Says text.now ends.now }
    requires op_value { well_at text.now op ≡ true }
    requires schema_bound { table_count schema.now ≤ most_tables }
    ensures { Called text.now schema.now i op n result }
{
    let k = operation_at(text, ends, op);
    let on = is_on_table(k);
    if on {
        let f = table_in(text, ends, schema, op);
        let Some(t) = f else {
            return Call {
                operation: Operation::Unknown,
                number: i,
                at: op,
                table: 0,
                count: n,
            };
        };
        return Call {
            operation: k,
            number: i,
            at: op,
            table: t as u8,
            count: n,
        };
    }
    Call {
        operation: k,
        number: i,
        at: op,
        table: 0,
        count: n,
    }
}

// An operation on the first rows; a select writes to the answer from `at` on.
pub fn operate(
    text: &[u8],
    ends: &[u16],
    names: &[u8],
    schema: &Catalog,
    call: Call,
    rows: &mut [Row],
    answer: &mut [u8],
    at: usize,
) -> Done
    requires begun { Begun text.now ends.now names.now schema.now call rows.old }
    requires result_most_bound { at + result_most < 2 ^ 64 }
    ensures { Effect call.operation text.now names.now schema.now call rows.old rows.new at answer.old answer.new result }
{
    let k = call.operation;
    match k {
        Operation::Insert => { super::on_table::run_insert(text, ends, names, schema, call, rows) }
        Operation::Select => {
            super::on_table::run_select(text, ends, names, schema, call, rows, answer, at)
        }
        Operation::Update => { super::on_table::run_update(text, ends, names, schema, call, rows) }
        Operation::Mutate => { super::on_table::run_mutate(text, ends, names, schema, call, rows) }
        Operation::Delete => { super::on_table::run_delete(text, ends, names, schema, call, rows) }
        Operation::Comment => run_comment(text, ends, call),
        Operation::Abort => run_abort(text, ends, call),
        Operation::Unknown => Done {
            fault: Fault::Syntax,
            count: call.count,
            reply: Reply::Empty,
        },
    }
}

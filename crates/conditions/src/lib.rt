// Conditions, [column, function, value]: each is read once, and narrows the marks of the rows that meet those before it.
#![tactic(auto)]

pub mod lookup;

ghost use Rattle.std.specs.Prelude.{◌≡◌, true, [], ◌∷◌, map, ◌≤◌, length};
ghost use Rattle.model.specs.Limits.{most_columns, most_elements, most_rows};
ghost use Rattle.inner.specs.Positions.{well_at, tree_at, items_fine};
ghost use Rattle.model.specs.Catalog.{base_numbered, column_from};
ghost use Rattle.model.specs.Conditions.{orders, allowed, compare};
ghost use Rattle.uuids.specs.Named.{names_at, Running};
ghost use Rattle.element_atoms.specs.Atoms.{atom_as};
ghost use Rattle.request_values.specs.Values.{atoms_as};
ghost use Rattle.marks.specs.Marks.{every, InRow, atoms_at, Narrowed};
ghost use Rattle.conditions.specs.Tests.{function_by, function_in, About, subject_in, test_at, tests_at, KeptAs, storing, Beyond, ValueNarrowed, TestNarrowed, TestsNarrowed};

use marks::Place;
use model::{ATOM, Atoms, ELEMENTS, Entry, Fault, Function, ROWS, Row};

// The base type of an id, by its number.
const UUID: u8 = 3;

// The function of a number.
#[tactic(auto, unfolding(crate::specs::Tests::function_by))]
fn function_of(k: usize) -> Option<Function>
    ensures { result ≡ function_by k }
{
    match k {
        0 => Some(Function::Less),
        1 => Some(Function::AtMost),
        2 => Some(Function::Equal),
        3 => Some(Function::Unequal),
        4 => Some(Function::AtLeast),
        5 => Some(Function::Greater),
        6 => Some(Function::Includes),
        7 => Some(Function::Excludes),
        _ => None,
    }
}

// The function that the value at `at` names.
fn function_at(text: &[u8], at: usize) -> Option<Function>
    ensures { function_in (tree_at text.now at) ≡ result }
{
    let k = members::choose(
        text,
        at,
        b"\x01<\x02<=\x02==\x02!=\x02>=\x01>\x08includes\x08excludes",
    );
    function_of(k)
}

// What the value at `at` names.
fn subject_at(text: &[u8], at: usize, columns: &[Entry]) -> Option<Place>
    ensures { About columns.now result (subject_in (map column_from columns.now) (tree_at text.now at)) }
{
    let own = text::is_word(text, at, b"_uuid");
    if own {
        return Some(Place::Id);
    }
    let f = lookup::column_at(text, at, columns);
    match f {
        Some(i) => Some(Place::Column(i)),
        None => None,
    }
}

// Whether a function is one of order.
fn orders(f: Function) -> bool
    ensures { result ≡ orders f }
{
    matches!(
        f,
        Function::Less | Function::AtMost | Function::AtLeast | Function::Greater
    )
}

// Whether a column takes a function.
fn is_allowed(column: &Entry, f: Function) -> bool
    ensures { result ≡ allowed (column_from column.now) f }
{
    !orders(f) || (catalog::kind(column) == 0 && catalog::is_scalar(column))
}

// A condition as read, but for its elements: what it is about, of which base type, and its function.
#[derive(Clone, Copy)]
pub struct Test {
    place: Place,
    kind: u8,
    function: Function,
}

// The first n atoms of a condition as they are kept: sorted where they are to be equal.
fn kept(f: Function, kind: u8, atoms: Atoms, n: usize) -> Atoms
    requires { n ≤ most_elements }
    ensures { KeptAs f (base_numbered kind) n atoms result }
{
    match f {
        Function::Equal | Function::Unequal => value::sort(kind, atoms, n),
        _ => atoms,
    }
}

// The function by which each element is to be stored, or none.
#[tactic(auto, unfolding(crate::specs::Tests::storing))]
fn storing(stored: bool) -> Function
    ensures { result ≡ storing stored }
{
    if stored {
        Function::Includes
    } else {
        Function::Excludes
    }
}

// The marks narrowed by one element of a condition, at `at`, which is to be stored or not; a string above 24 bytes is not.
fn narrow_element(
    text: &[u8],
    ends: &[u16],
    names: &[u8],
    test: Test,
    stored: bool,
    at: usize,
    rows: &[Row],
    marks: &mut [bool; ROWS],
)
    requires running { Running text.now ends.now names.now }
    requires at_value { well_at text.now at ≡ true }
    requires in_row { InRow test.place × (length rows.now ≤ most_rows) }
    ensures { Narrowed (λ row. every stored (atoms_at test.place row) (atom_as (names_at text.now names.now) (base_numbered test.kind) (tree_at text.now at) ∷ [])) rows.now marks.old marks.new }
{
    let mut cell = [0u8; ATOM];
    let place = test.place;
    let f = storing(stored);
    let a = element_atoms::atom_at(text, ends, names, test.kind, at, &mut cell);
    match a {
        element_atoms::Atom::Long => marks::narrow_all(place, !stored, rows, marks),
        element_atoms::Atom::Wrong | element_atoms::Atom::Fits => {
            marks::narrow(place, f, &[cell], rows, marks)
        }
    }
}

// The marks narrowed by all elements of a condition, one after another: so many as there may be.
fn narrow_each(
    text: &[u8],
    ends: &[u16],
    names: &[u8],
    test: Test,
    stored: bool,
    at: usize,
    rows: &[Row],
    marks: &mut [bool; ROWS],
)
    requires running { Running text.now ends.now names.now }
    requires at_value { well_at text.now at ≡ true }
    requires in_row { InRow test.place × (length rows.now ≤ most_rows) }
    ensures { Narrowed (λ row. every stored (atoms_at test.place row) (atoms_as (names_at text.now names.now) (base_numbered test.kind) (tree_at text.now at))) rows.now marks.old marks.new }
{
    let e = elements::elements_at(text, ends, at);
    let set = e.set;
    let mut g = e.first;
    while let Some(p) = g {
        narrow_element(text, ends, names, test, stored, p, rows, marks);
        g = elements::next_element(text, ends, p, set);
    }
}

// The marks narrowed by a condition that has what no column can have: more than four elements, or a string above 24 bytes.
fn narrow_beyond(
    text: &[u8],
    ends: &[u16],
    names: &[u8],
    test: Test,
    at: usize,
    rows: &[Row],
    marks: &mut [bool; ROWS],
)
    requires running { Running text.now ends.now names.now }
    requires at_value { well_at text.now at ≡ true }
    requires in_row { InRow test.place × (length rows.now ≤ most_rows) }
    requires beyond { Beyond (names_at text.now names.now) (base_numbered test.kind) test.function (tree_at text.now at) }
    ensures { Narrowed (λ row. compare test.function (base_numbered test.kind) (atoms_at test.place row) (atoms_as (names_at text.now names.now) (base_numbered test.kind) (tree_at text.now at))) rows.now marks.old marks.new }
{
    match test.function {
        Function::Equal => marks::narrow_all(test.place, false, rows, marks),
        Function::Unequal => marks::narrow_all(test.place, true, rows, marks),
        Function::Includes => narrow_each(text, ends, names, test, true, at, rows, marks),
        Function::Excludes => narrow_each(text, ends, names, test, false, at, rows, marks),
        Function::Less | Function::AtMost | Function::AtLeast | Function::Greater => {}
    }
}

// A condition on a column, whose value stands at `at`: how it is judged; where it has no fault, the marks are narrowed by it.
fn narrow_value(
    text: &[u8],
    ends: &[u16],
    names: &[u8],
    column: &Entry,
    test: Test,
    at: usize,
    rows: &[Row],
    marks: &mut [bool; ROWS],
) -> Fault
    requires running { Running text.now ends.now names.now }
    requires at_value { well_at text.now at ≡ true }
    requires in_row { InRow test.place × (length rows.now ≤ most_rows) }
    requires kind_value { base_numbered test.kind ≡ (column_from column.now).base }
    ensures { ValueNarrowed (names_at text.now names.now) (column_from column.now) test.place test.function (tree_at text.now at) result rows.now marks.old marks.new }
{
    let place = test.place;
    let f = test.function;
    let ok = is_allowed(column, f);
    if !ok {
        return Fault::Syntax;
    }
    let mut atoms = [[0u8; ATOM]; ELEMENTS];
    let g = request_values::test_value(text, ends, names, column, f, at, &mut atoms);
    let v = g.fault;
    let fine = leaf::is_fine(v);
    if fine {
        if g.fits {
            let n = g.count;
            let l = kept(f, test.kind, atoms, n);
            marks::narrow(place, f, &l[..n], rows, marks);
        } else {
            narrow_beyond(text, ends, names, test, at, rows, marks);
        }
    }
    v
}

// The condition at `at`: how it is judged; where it has no fault, the marks are narrowed by it.
fn narrow_by(
    text: &[u8],
    ends: &[u16],
    names: &[u8],
    columns: &[Entry],
    at: usize,
    rows: &[Row],
    marks: &mut [bool; ROWS],
) -> Fault
    requires running { Running text.now ends.now names.now }
    requires at_value { well_at text.now at ≡ true }
    requires columns_len_bound { (length columns.now ≤ most_columns) × (length rows.now ≤ most_rows) }
    ensures { TestNarrowed (map column_from columns.now) (test_at text.now names.now columns.now at) result rows.now marks.old marks.new }
{
    let t = lookup::triple_at(text, ends, at);
    let Some((a, b, v)) = t else {
        return Fault::Syntax;
    };
    let w = function_at(text, b);
    let Some(f) = w else {
        return Fault::Syntax;
    };
    let n = subject_at(text, a, columns);
    let Some(place) = n else {
        return Fault::Syntax;
    };
    match place {
        Place::Column(i) => {
            let kind = catalog::kind(&columns[i]);
            let test = Test {
                place: Place::Column(i),
                kind,
                function: f,
            };
            narrow_value(text, ends, names, &columns[i], test, v, rows, marks)
        }
        Place::Id => {
            let cell = catalog::id_column();
            let test = Test {
                place: Place::Id,
                kind: UUID,
                function: f,
            };
            narrow_value(text, ends, names, &cell, test, v, rows, marks)
        }
    }
}

// The conditions from f on: how they are judged; where none has a fault, marks of a table's rows become those of its rows that meet all of them. After a fault they are free.
pub fn mark_rows(
    text: &[u8],
    ends: &[u16],
    names: &[u8],
    columns: &[Entry],
    f: Option<usize>,
    rows: &[Row],
    marks: &mut [bool; ROWS],
) -> Fault
    requires running { Running text.now ends.now names.now }
    requires f_value { items_fine text.now f ≡ true }
    requires columns_len_bound { (length columns.now ≤ most_columns) × (length rows.now ≤ most_rows) }
    ensures { TestsNarrowed (map column_from columns.now) (tests_at text.now names.now columns.now f) result rows.now marks.old marks.new }
{
    let mut g = f;
    let mut w = Fault::Fine;
    while let Some(p) = g {
        let t = narrow_by(text, ends, names, columns, p, rows, marks);
        w = leaf::earlier(w, t);
        g = nav::next_item(text, ends, p);
    }
    w
}

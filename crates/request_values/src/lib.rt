// Values as written in a request: how each is judged, and its atoms where there is no fault.
#![tactic(auto)]

ghost use Rattle.std.specs.Prelude.{◌≡◌, true, ◌≤◌, eqb, if◌then◌else◌};
ghost use Rattle.model.specs.Limits.{most_elements};
ghost use Rattle.inner.specs.Positions.{well_at, tree_at};
ghost use Rattle.model.specs.Schema.{scalar};
ghost use Rattle.model.specs.Catalog.{base_numbered};
ghost use Rattle.model.specs.Written.{set_count};
ghost use Rattle.model.specs.Catalog.{column_from};
ghost use Rattle.uuids.specs.Named.{names_at, Running};
ghost use Rattle.model.specs.Mutations.{mutation_fault};
ghost use Rattle.request_values.specs.Values.{Inspected, first_fault, MutationFault, Sorts, RowGiven, ValueGiven, TestGiven};

use model::{Atoms, ELEMENTS, Entry, Fault, Function, Mutator};

// What is judged of a value as written: how many elements, that they are of their type, no string above 24 bytes, in their limits, and different.
#[derive(Clone, Copy)]
struct Findings {
    count: usize,
    typed: bool,
    short: bool,
    within: bool,
    different: bool,
}

// A value that was read: how it is judged, how many elements it has, and whether these are at most four and none is a long string.
#[derive(Clone, Copy)]
pub struct Given {
    pub fault: Fault,
    pub count: usize,
    pub fits: bool,
}

// What is judged of the value at `at`, and its atoms in the text's order where they fit.
fn inspect(
    text: &[u8],
    ends: &[u16],
    names: &[u8],
    column: &Entry,
    at: usize,
    atoms: &mut Atoms,
) -> Findings
    requires running { Running text.now ends.now names.now }
    requires at_value { well_at text.now at ≡ true }
    ensures { Inspected (names_at text.now names.now) (column_from column.now) (tree_at text.now at) result.count result.typed result.short result.within result.different atoms.new }
{
    let e = elements::elements_at(text, ends, at);
    let t = element_sets::tally_from(text, ends, names, column, e.set, e.first, atoms);
    let different = if t.count <= ELEMENTS && t.short {
        value::distinct(&atoms[..t.count])
    } else {
        let kind = catalog::kind(column);
        element_sets::distinct_from(text, ends, names, kind, e.set, e.first)
    };
    Findings {
        count: t.count,
        typed: t.typed,
        short: t.short,
        within: t.within,
        different,
    }
}

// The first check that fails, of three.
#[tactic(auto, unfolding(crate::specs::Values::first_fault))]
fn first_fault(typed: bool, fits: bool, allowed: bool) -> Fault
    ensures { result ≡ first_fault typed fits allowed }
{
    if !typed {
        return Fault::Syntax;
    }
    if !fits {
        return Fault::Resources;
    }
    if !allowed {
        return Fault::Constraint;
    }
    Fault::Fine
}

// A column's min and max.
fn least(column: &Entry) -> usize
    ensures { result ≡ (column_from column.now).min }
{
    leaf::wide(catalog::minimum(column))
}

fn most(column: &Entry) -> usize
    ensures { result ≡ (column_from column.now).max }
{
    leaf::wide(catalog::maximum(column))
}

// The first n atoms sorted, where the others are zeros.
fn sort_atoms(kind: u8, n: usize, atoms: &mut Atoms)
    requires { n ≤ most_elements }
    ensures { Sorts (base_numbered kind) n atoms.old atoms.new }
{
    if n < 2 {
        return;
    }
    *atoms = value::sort(kind, *atoms, n);
}

// A value in a row, read: where it has no fault, its count and its atoms, sorted.
pub fn row_value(
    text: &[u8],
    ends: &[u16],
    names: &[u8],
    column: &Entry,
    at: usize,
    atoms: &mut Atoms,
) -> Given
    requires running { Running text.now ends.now names.now }
    requires at_value { well_at text.now at ≡ true }
    ensures { RowGiven (names_at text.now names.now) (column_from column.now) (tree_at text.now at) result.fault result.count result.fits atoms.new }
{
    let w = inspect(text, ends, names, column, at, atoms);
    let n = w.count;
    let min = least(column);
    let max = most(column);
    let fits = (n <= ELEMENTS) & w.short;
    let allowed = w.different & w.within & ((min <= n) & (n <= max));
    let v = first_fault(w.typed, fits, allowed);
    if fits {
        let kind = catalog::kind(column);
        sort_atoms(kind, n, atoms);
    }
    Given {
        fault: v,
        count: n,
        fits,
    }
}

// How the value of a mutation is judged, by what is judged of it.
fn mutation_fault(column: &Entry, m: Mutator, w: Findings) -> Fault
    ensures { MutationFault (column_from column.now) m w.count w.typed w.short w.within w.different result }
{
    let n = w.count;
    let max = most(column);
    let fit = (n <= ELEMENTS) & w.short;
    let allowed = w.different & w.within;
    match m {
        Mutator::Insert => first_fault(w.typed, fit, allowed & (n <= max)),
        Mutator::Delete => first_fault(w.typed, true, allowed),
        _ => first_fault(w.typed, true, n == 1),
    }
}

// The value of a mutation, read: where it has no fault, how many elements, whether their atoms fit, and these in the text's order if they do.
pub fn mutation_value(
    text: &[u8],
    ends: &[u16],
    names: &[u8],
    column: &Entry,
    m: Mutator,
    at: usize,
    atoms: &mut Atoms,
) -> Given
    requires running { Running text.now ends.now names.now }
    requires at_value { well_at text.now at ≡ true }
    ensures { ValueGiven (names_at text.now names.now) (column_from column.now) (mutation_fault (column_from column.now) m) (tree_at text.now at) result.fault result.count result.fits atoms.new }
{
    let w = inspect(text, ends, names, column, at, atoms);
    let v = mutation_fault(column, m, w);
    let n = w.count;
    let fits = (n <= ELEMENTS) & w.short;
    Given {
        fault: v,
        count: n,
        fits,
    }
}

// How many elements a condition on a set may have.
fn set_count(column: &Entry, f: Function, n: usize) -> bool
    ensures { result ≡ set_count (column_from column.now) f n }
{
    let min = least(column);
    let max = most(column);
    match f {
        Function::Equal | Function::Unequal => min <= n && n <= max,
        Function::Includes => n <= max,
        _ => true,
    }
}

// The same of any column: one element where it is a scalar.
fn test_count(column: &Entry, f: Function, n: usize) -> bool
    ensures { result ≡ (if scalar (column_from column.now) then eqb n 1 else set_count (column_from column.now) f n) }
{
    if catalog::is_scalar(column) {
        n == 1
    } else {
        set_count(column, f, n)
    }
}

// The value of a condition, read: where it has no fault, how many elements, whether their atoms fit, and these in the text's order if they do.
pub fn test_value(
    text: &[u8],
    ends: &[u16],
    names: &[u8],
    column: &Entry,
    f: Function,
    at: usize,
    atoms: &mut Atoms,
) -> Given
    requires running { Running text.now ends.now names.now }
    requires at_value { well_at text.now at ≡ true }
    ensures { TestGiven (names_at text.now names.now) (column_from column.now) f (tree_at text.now at) result.fault result.count result.fits atoms.new }
{
    let w = inspect(text, ends, names, column, at, atoms);
    let n = w.count;
    let k = test_count(column, f, n);
    let allowed = w.different & k;
    let v = first_fault(w.typed, true, allowed);
    let fits = (n <= ELEMENTS) & w.short;
    Given {
        fault: v,
        count: n,
        fits,
    }
}

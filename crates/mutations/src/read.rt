// Mutations, [column, mutator, value], as read.
ghost use Rattle.std.specs.Prelude.{◌≡◌, true};
ghost use Rattle.inner.specs.Positions.{Says, well_at, tree_at};
ghost use Rattle.model.specs.Faults.{check};
ghost use Rattle.model.specs.Mutations.{suits};
ghost use Rattle.model.specs.declared.Fault.TheVariants.{Fine, Constraint};
ghost use Rattle.model.specs.Catalog.{column_from};
ghost use Rattle.uuids.specs.Named.{Running};
ghost use Rattle.mutations.specs.Mutating.{mutator_by, mutator_in, column_fault, PartsOf, mutation_at, MutationRead};

use model::{Atoms, Entry, Fault, Mutator};

// A mutation as read: its fault, the place of its column, its mutator, where its value stands, how many elements that has, and whether their atoms fit four places.
#[derive(Clone, Copy)]
pub struct Mutation {
    pub fault: Fault,
    pub place: usize,
    pub mutator: Mutator,
    pub at: usize,
    pub count: usize,
    pub fits: bool,
}

// The mutator of a number.
#[tactic(auto, unfolding(crate::specs::Mutating::mutator_by))]
fn mutator_of(k: usize) -> Option<Mutator>
    ensures { result ≡ mutator_by k }
{
    match k {
        0 => Some(Mutator::Add),
        1 => Some(Mutator::Subtract),
        2 => Some(Mutator::Multiply),
        3 => Some(Mutator::Divide),
        4 => Some(Mutator::Remainder),
        5 => Some(Mutator::Insert),
        6 => Some(Mutator::Delete),
        _ => None,
    }
}

// The mutator that the value at `at` names.
fn mutator_at(text: &[u8], at: usize) -> Option<Mutator>
    ensures { mutator_in (tree_at text.now at) ≡ result }
{
    let k = members::choose(
        text,
        at,
        b"\x02+=\x02-=\x02*=\x02/=\x02%=\x06insert\x06delete",
    );
    mutator_of(k)
}

// The parts of the mutation at `at`.
fn parts_at(
    text: &[u8],
    ends: &[u16],
    columns: &[Entry],
    at: usize,
) -> Option<(usize, Mutator, usize)>
    requires says { Says text.now ends.now }
    requires at_value { well_at text.now at ≡ true }
    ensures { PartsOf text.now columns.now at result }
{
    let t = conditions::lookup::triple_at(text, ends, at);
    let Some((a, b, v)) = t else {
        return None;
    };
    let f = conditions::lookup::column_at(text, a, columns);
    let Some(i) = f else {
        return None;
    };
    let c = mutator_at(text, b);
    match c {
        Some(m) => Some((i, m, v)),
        None => None,
    }
}

// Whether a column takes a mutator.
fn suits(column: &Entry, m: Mutator) -> bool
    ensures { result ≡ suits (column_from column.now) m }
{
    match m {
        Mutator::Insert | Mutator::Delete => !catalog::is_scalar(column),
        _ => catalog::kind(column) == 0,
    }
}

// That a column cannot be changed, or no fault.
fn fixed_fault(column: &Entry) -> Fault
    ensures { result ≡ check (column_from column.now).mutable Constraint Fine }
{
    if catalog::is_mutable(column) {
        return Fault::Fine;
    }
    Fault::Constraint
}

// How a mutation on a column is judged, where its value is judged so.
fn column_fault(column: &Entry, m: Mutator, value: Fault) -> Fault
    ensures { result ≡ column_fault (column_from column.now) m value }
{
    let ok = suits(column, m);
    if ok {
        let w = fixed_fault(column);
        return leaf::earlier(value, w);
    }
    Fault::Syntax
}

// The mutation at `at`, read, and its atoms if they fit; after a fault nothing counts but the fault.
pub fn read_mutation(
    text: &[u8],
    ends: &[u16],
    names: &[u8],
    columns: &[Entry],
    at: usize,
    atoms: &mut Atoms,
) -> Mutation
    requires running { Running text.now ends.now names.now }
    requires at_value { well_at text.now at ≡ true }
    ensures { MutationRead text.now names.now columns.now (mutation_at text.now names.now columns.now at) result atoms.new }
{
    let t = parts_at(text, ends, columns, at);
    let Some((i, m, v)) = t else {
        return Mutation {
            fault: Fault::Syntax,
            place: 0,
            mutator: Mutator::Delete,
            at,
            count: 0,
            fits: true,
        };
    };
    let column = &columns[i];
    let g = request_values::mutation_value(text, ends, names, column, m, v, atoms);
    let w = g.fault;
    let f = column_fault(column, m, w);
    Mutation {
        fault: f,
        place: i,
        mutator: m,
        at: v,
        count: g.count,
        fits: g.fits,
    }
}

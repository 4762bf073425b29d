// The commit of a transaction: strong references, collection, weak references, and limits, in this order.
#![tactic(auto)]

ghost use Rattle.std.specs.Prelude.{◌≡◌};
ghost use Rattle.model.specs.Base.{all};
ghost use Rattle.model.specs.Commit.{lawful};
ghost use Rattle.model.specs.Catalog.{packed_tables};
ghost use Rattle.inner.specs.Working.{working, Ordered};
ghost use Rattle.references.specs.Links.{referred};
ghost use Rattle.catalog.specs.Accepted.{Accepted};
ghost use Rattle.commit.specs.Steps.{Committed};

use model::{Catalog, Fault, Row};

// What a commit says, and how many rows it leaves.
#[derive(Clone, Copy)]
pub struct Settled {
    pub fault: Fault,
    pub count: usize,
}

// Whether every row that the rows refer to, strongly (how 1) or weakly (how 2), is there.
fn all_found(schema: &Catalog, how: u8, rows: &[Row], n: usize) -> bool
    requires accepted { Accepted schema.now }
    requires ordered { Ordered n rows.now }
    ensures { result ≡ all (referred (packed_tables schema.now) how (working (packed_tables schema.now) n rows.now)) (working (packed_tables schema.now) n rows.now) }
{
    rows[..n]
        .iter()
        .all(|row| references::row_found(row, schema, how, rows, n))
}

// The four steps of a commit on the first n rows.
pub fn commit(schema: &Catalog, rows: &mut [Row], n: usize) -> Settled
    requires accepted { Accepted schema.now }
    requires ordered { Ordered n rows.old }
    ensures { Committed (packed_tables schema.now) n rows.old rows.new result }
{
    if !all_found(schema, 1, rows, n) {
        return Settled {
            fault: Fault::Integrity,
            count: n,
        };
    }
    let m = garbage::counts::collect_by_counts(schema, rows, n);
    garbage::weaken(schema, rows, m);
    if !limits::all_enough(schema, rows, m) {
        return Settled {
            fault: Fault::Constraint,
            count: m,
        };
    }
    if !limits::tables_good(schema, rows, m) {
        return Settled {
            fault: Fault::Constraint,
            count: m,
        };
    }
    Settled {
        fault: Fault::Fine,
        count: m,
    }
}

// Whether every commit rule holds of the first n rows.
pub fn lawful(schema: &Catalog, rows: &[Row], n: usize) -> bool
    requires accepted { Accepted schema.now }
    requires ordered { Ordered n rows.now }
    ensures { result ≡ lawful (packed_tables schema.now) (working (packed_tables schema.now) n rows.now) }
{
    all_found(schema, 1, rows, n)
        && !garbage::counts::any_loose(schema, rows, n)
        && all_found(schema, 2, rows, n)
        && limits::all_enough(schema, rows, n)
        && limits::tables_good(schema, rows, n)
}

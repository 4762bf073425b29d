// The fresh ids that come with a request, one for each operation that it may have.
#![tactic(auto)]

ghost use Rattle.std.specs.Prelude.{◌≡◌, ◌≤◌, ◌<◌, eqb, length};
ghost use Rattle.model.specs.Limits.{id_bytes, most_operations, fresh_bytes};
ghost use Rattle.model.specs.Octets.{value};
ghost use Rattle.model.specs.Base.{any};
ghost use Rattle.model.specs.Schema.{Schema};
ghost use Rattle.inner.specs.Working.{working, Ordered};
ghost use Rattle.fresh.specs.Fresh.{fresh_from, FreshId, id_good, fresh_good};

use model::{ID, OPERATIONS, Row};

// Whether two ids are the same number.
fn same(a: &[u8], b: &[u8]) -> bool
    requires { (length a.now ≡ id_bytes) × (length b.now ≡ id_bytes) }
    ensures { result ≡ eqb (value a.now) (value b.now) }
{
    a == b
}

// Fresh id k, lent, of a slice that begins with the fresh ids.
pub fn id_at<'f>(fresh: &'f [u8], k: usize) -> &'f [u8]
    requires { (fresh_bytes ≤ length fresh.now) × (k < most_operations) }
    ensures { FreshId fresh.now k result.now }
{
    &fresh[ID * k..ID * k + ID]
}

// Whether an id is among the fresh ids from k on.
fn among(fresh: &[u8], k: usize, id: &[u8]) -> bool
    requires fresh_len { length fresh.now ≡ fresh_bytes }
    requires k_le_most_operations { k ≤ most_operations }
    requires id_len { length id.now ≡ id_bytes }
    ensures { result ≡ any (eqb (value id.now)) (fresh_from k fresh.now) }
{
    for i in k..OPERATIONS {
        if same(id, id_at(fresh, i)) {
            return true;
        }
    }
    false
}

// Whether fresh id k may be given: it is not zero, no row's, and unlike those after it.
fn id_good(fresh: &[u8], k: usize, rows: &[Row], n: usize) -> bool
    requires fresh_len { length fresh.now ≡ fresh_bytes }
    requires k_lt_most_operations { k < most_operations }
    requires ordered { Ordered n rows.now }
    ensures { (s : Schema) → result ≡ id_good (fresh_from k fresh.now) (working s n rows.now) }
{
    let id = id_at(fresh, k);
    let none = same(id, &[0; ID]);
    let mut copy = [0; ID];
    copy.copy_from_slice(id);
    let taken = rows::has_id(rows, n, &copy);
    let again = among(fresh, k + 1, id);
    !none & !taken & !again
}

// Whether all fresh ids may be given.
pub fn ids_good(fresh: &[u8], rows: &[Row], n: usize) -> bool
    requires { (length fresh.now ≡ fresh_bytes) × Ordered n rows.now }
    ensures { (s : Schema) → result ≡ fresh_good fresh.now (working s n rows.now) }
{
    for k in 0..OPERATIONS {
        if !id_good(fresh, k, rows, n) {
            return false;
        }
    }
    true
}

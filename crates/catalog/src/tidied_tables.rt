// The entries of tables written anew from what they say: every byte that is not in use is zero.
ghost use Rattle.std.specs.Prelude.{◌≡◌, true, List, ◌++◌, ℕ, ◌+◌, ◌-◌, ◌≤◌, leb, length, get_or, replicate};
ghost use Rattle.model.specs.Base.{all};
ghost use Rattle.model.specs.Limits.{most_text_bytes, most_index_columns, entry_bytes};
ghost use Rattle.model.specs.Catalog.{columns_offset, root_offset, limited_offset, indexes_offset, entry_name, is_set, indexes_from, max_rows_from, name_bytes, number_or0};
ghost use Rattle.catalog.specs.Writing.{head_bytes};
ghost use Rattle.catalog.specs.Slots.{kept_where, slot_bytes};
ghost use Rattle.catalog.specs.Tidied.{table_tidied};

use super::tidied_columns::named;
use super::{
    FIRST_INDEX, INDEX, INDEX_COUNT, SECOND_INDEX, index_count, is_limited, max_rows, put_head,
    says_root, width, with_indexes,
};
use model::{Entry, INDEXES};

// A table's maxRows, 0 where it has none.
fn most_rows(e: &Entry) -> u64
    ensures { result ≡ number_or0 (max_rows_from e.now) }
{
    if is_limited(e) { max_rows(e) } else { 0 }
}

// An entry with what stands before the indexes, and nothing else.
fn headed(e: &Entry) -> Entry
    requires { get_or e.now 0 0 ≤ most_text_bytes }
    ensures { result ≡ (name_bytes (entry_name e.now) ++ head_bytes (get_or e.now columns_offset 0) (is_set e.now root_offset) (is_set e.now limited_offset) (number_or0 (max_rows_from e.now))) ++ replicate (entry_bytes - indexes_offset) 0 }
{
    let mut out = named(e);
    put_head(
        &mut out,
        width(e),
        says_root(e),
        is_limited(e),
        most_rows(e),
    );
    out
}

// How many indexes there are.
fn indexes_in(e: &Entry) -> u8
    ensures { result ≡ length (indexes_from e.now) }
{
    index_count(e).min(INDEXES as u8)
}

// A byte where a test passes, else zero.
#[tactic(auto, unfolding(crate::specs::Slots::kept_where))]
fn kept_where(used: bool, b: u8) -> u8
    ensures { result ≡ kept_where used b }
{
    if used { b } else { 0 }
}

// The index that lies at a place, if it is in use.
fn slot(e: &Entry, used: bool, at: usize) -> [u8; INDEX]
    requires most_index_columns_bound { at + 1 + most_index_columns ≤ entry_bytes }
    requires at_bound { kept_where used (get_or e.now at 0) ≤ most_index_columns }
    ensures { result ≡ slot_bytes used e.now at }
{
    let n = kept_where(used, e[at]);
    [
        n,
        kept_where(0 < n, e[at + 1]),
        kept_where(1 < n, e[at + 2]),
        kept_where(2 < n, e[at + 3]),
    ]
}

// The entry of a table.
pub fn table_entry(e: &Entry) -> Entry
    requires e_bound { get_or e.now 0 0 ≤ most_text_bytes }
    requires e_value { all (λ (l : List ℕ). leb (length l) most_index_columns) (indexes_from e.now) ≡ true }
    ensures { result ≡ table_tidied e.now }
{
    let k = index_count(e);
    let first = slot(e, 0 < k, FIRST_INDEX);
    let second = slot(e, 1 < k, SECOND_INDEX);
    with_indexes(headed(e), indexes_in(e), first, second)
}

// A store's area judged: whether it is in good order, and its catalog and rows read on the way.
ghost use Rattle.std.specs.Prelude.{◌≡◌, length};
ghost use Rattle.model.specs.Limits.{store_bytes};
ghost use Rattle.area.specs.Layout.{RowsFit};
ghost use Rattle.store.specs.GoodOrder.{Kept, RowsOpened, Opened};

use model::{Catalog, Row, STORE_BYTES};

// Whether an area with an accepted catalog is in good order, its rows read into working rows.
fn rows_opened(area: &[u8], schema: &Catalog, rows: &mut [Row]) -> bool
    requires area_len { (length area.now ≡ store_bytes) × RowsFit area.now rows.old }
    requires kept { Kept area.now schema.now }
    ensures { RowsOpened area.now schema.now rows.old rows.new result }
{
    if !area::part_good(area, schema, rows) {
        return false;
    }
    let n = area::row_count(area);
    if !row_types::rows_meet(schema, rows, n) {
        return false;
    }
    commit::lawful(schema, rows, n)
}

// Whether a store's area is in good order; its catalog is read on the way, and its rows into working rows.
pub fn opened(area: &[u8], schema: &mut Catalog, rows: &mut [Row]) -> bool
    requires { RowsFit area.now rows.old }
    ensures { Opened area.now schema.old schema.new rows.old rows.new result }
{
    if area.len() != STORE_BYTES {
        return false;
    }
    area::read_catalog(area, &mut schema[..]);
    if !catalog::rules::is_accepted(schema) {
        return false;
    }
    rows_opened(area, schema, rows)
}

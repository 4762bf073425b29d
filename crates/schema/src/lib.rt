// A schema's text read into a catalog.
#![tactic(auto)]

ghost use Rattle.std.specs.Prelude.{◌≡◌, true, false, [], ◌∷◌, ◌++◌, ◌≤◌, eqb, length, get_or, replicate};
ghost use Rattle.inner.specs.Positions.{Says, well_at, tree_at};
ghost use Rattle.model.specs.SchemaText.{is_string_of, is_version};
ghost use Rattle.model.specs.Limits.{most_schema_bytes, atom_bytes, entry_count};
ghost use Rattle.model.specs.Catalog.{blank_entry};
ghost use Rattle.names.specs.Names.{name_cell};
ghost use Rattle.members.specs.Fields.{slot_tree};
ghost use Rattle.tables.specs.Tables.{TablesRead};
ghost use Rattle.schema.specs.Schema.{rest_allowed, Filled, EntriesRead, SchemaRead};

use members::Places;
use model::{ATOM, Atom, Catalog, ENTRIES, ENTRY, Entry, Kind, SCHEMA_TEXT, TABLES};

// Whether the string in a slot is a version.
fn version_in(text: &[u8], p: usize) -> bool
    requires { length text.now ≤ most_schema_bytes }
    ensures { result ≡ is_string_of is_version (slot_tree text.now p) }
{
    if p == 0 {
        return false;
    }
    let mut scratch = [0u8; SCHEMA_TEXT];
    let part = text::string_at(text, p, &mut scratch);
    let t = text::bytes(text, &scratch, part);
    names::is_version(t)
}

// The name in a slot.
fn name_in(text: &[u8], p: usize) -> Atom
    ensures { result ≡ name_cell (slot_tree text.now p) }
{
    if p == 0 {
        return [0u8; ATOM];
    }
    names::name_at(text, p)
}

// The tables in a slot, read into a schema's cells: how many, 9 where they do not fit.
fn tables_in(text: &[u8], ends: &[u16], p: usize, cells: &mut [Entry]) -> usize
    requires says { Says text.now ends.now }
    requires p_value { eqb p 0 ≡ false → well_at text.now p ≡ true }
    requires cells_len { length cells.old ≡ entry_count }
    ensures { TablesRead (slot_tree text.now p) result cells.old cells.new }
{
    if p == 0 {
        return 9;
    }
    tables::read_tables(text, ends, p, cells)
}

// Whether the other members fit: f has the schema's slots, and id says whether its name is one.
fn rest_fits(text: &[u8], f: Places, id: bool) -> bool
    requires { length text.now ≤ most_schema_bytes }
    ensures { result ≡ rest_allowed text.now f id }
{
    let v = version_in(text, f[1]);
    let k = members::kind_in(text, f[3]);
    let c = leaf::is_kind(k, Kind::Text);
    (f[9] == 0) & (id & (v & ((f[3] == 0) | c)))
}

// The schema that the text is, read into cells that are all 0.
fn fill(text: &[u8], ends: &[u16], cells: &mut [Entry]) -> bool
    requires says { Says text.now ends.now }
    requires text_value { well_at text.now 0 ≡ true }
    requires text_len_bound { length text.now ≤ most_schema_bytes }
    requires cells_value { cells.old ≡ replicate entry_count blank_entry }
    ensures { Filled (tree_at text.now 0) result cells.new }
{
    let f = members::fields(text, ends, 0, b"\x04name\x07version\x06tables\x05cksum");
    let name = name_in(text, f[0]);
    let id = catalog::rules::is_id(atom::text_of(&name));
    let ok = rest_fits(text, f, id);
    if ok {
        let n = tables_in(text, ends, f[2], cells);
        if n <= TABLES {
            cells[0] = catalog::database_entry(&name, n as u8);
            return true;
        }
    }
    false
}

// A schema's text, read into entries whose unused bytes may be anything: whether it is accepted.
fn read_entries(text: &[u8], cells: &mut Catalog) -> bool
    ensures { EntriesRead text.now result cells.new }
{
    *cells = [[0u8; ENTRY]; ENTRIES];
    if SCHEMA_TEXT < text.len() {
        return false;
    }
    let mut ends = [0u16; SCHEMA_TEXT];
    let r = json_reader::document(text, &mut ends);
    match r {
        Ok(_) => fill(text, &ends, cells),
        Err(_) => false,
    }
}

// A schema's text, read into a catalog: whether it is accepted. One that is not leaves the catalog all 0.
pub fn read(text: &[u8], cells: &mut Catalog) -> bool
    ensures { SchemaRead text.now result cells.new }
{
    if !read_entries(text, cells) {
        *cells = [[0u8; ENTRY]; ENTRIES];
        return false;
    }
    let tidied = catalog::tidied::tidied(cells);
    *cells = tidied;
    true
}

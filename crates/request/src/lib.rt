// A request: the params of "transact", read by positions of its text; and the fresh ids that come with it.
#![tactic(auto)]

ghost use Rattle.std.specs.Prelude.{◌≡◌, true, false};
ghost use Rattle.inner.specs.Positions.{Says, well_at, items_from, items_fine};
ghost use Rattle.request.specs.Reading.{Counted, Parted, RequestRead};

use model::{Kind, OPERATIONS, REQUEST_TEXT};

// Whether a text is a request, where the database's name stands in it, where its operations begin, and how many they are.
#[derive(Clone, Copy)]
pub struct Request {
    pub fits: bool,
    pub name: usize,
    pub ops: Option<usize>,
    pub count: usize,
}

// Whether items are objects, as many as a request may have, and how many they are then.
#[derive(Clone, Copy)]
pub struct Items {
    pub few: bool,
    pub count: usize,
}

// Too many items, or one that is no object.
fn no_items() -> Items
    ensures { result.few ≡ false }
{
    Items {
        few: false,
        count: 0,
    }
}

// What the items from f on are as objects.
fn few_objects(text: &[u8], ends: &[u16], f: Option<usize>) -> Items
    requires says { Says text.now ends.now }
    requires f_value { items_fine text.now f ≡ true }
    ensures { Counted (items_from text.now f) result }
{
    let mut n: usize = 0;
    let mut g = f;
    while let Some(p) = g {
        if OPERATIONS <= n {
            return no_items();
        }
        let k = nav::kind_at(text, p);
        let o = leaf::is_kind(k, Kind::Object);
        if o {
            n += 1;
            g = nav::next_item(text, ends, p);
        } else {
            return no_items();
        }
    }
    Items {
        few: true,
        count: n,
    }
}

// No request.
fn refused() -> Request
    ensures { result.fits ≡ false }
{
    Request {
        fits: false,
        name: 0,
        ops: None,
        count: 0,
    }
}

// A request of a text whose value has been read.
fn parts(text: &[u8], ends: &[u16]) -> Request
    requires says { Says text.now ends.now }
    requires text_value { well_at text.now 0 ≡ true }
    ensures { Parted text.now result }
{
    let f = nav::first(text, 0, b'[', b']');
    let Some(a) = f else {
        return refused();
    };
    let k = nav::kind_at(text, a);
    let t = leaf::is_kind(k, Kind::Text);
    let g = nav::next_item(text, ends, a);
    let o = few_objects(text, ends, g);
    Request {
        fits: t & o.few,
        name: a,
        ops: g,
        count: o.count,
    }
}

// The request that a text is; the table of ends is filled on the way.
pub fn read(text: &[u8], ends: &mut [u16]) -> Request
    ensures { RequestRead text.now ends.new result }
{
    if REQUEST_TEXT < text.len() {
        return refused();
    }
    let d = json_reader::document(text, ends);
    match d {
        Ok(_) => parts(text, ends),
        Err(_) => refused(),
    }
}

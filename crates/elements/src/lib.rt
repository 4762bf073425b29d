// The elements of values as written in a request, by positions of its text.
#![tactic(auto)]

ghost use Rattle.std.specs.Prelude.{◌≡◌, true};
ghost use Rattle.inner.specs.Positions.{Says, well_at, tree_at};
ghost use Rattle.model.specs.Nav.{items_in};
ghost use Rattle.elements.specs.Elements.{Pairs, next_element, Begins};

use model::Kind;

// The elements of a value: whether they are a set's, and the first.
#[derive(Clone, Copy)]
pub struct Elements {
    pub set: bool,
    pub first: Option<usize>,
}

// The two items of the array at `at`.
pub fn pair_at(text: &[u8], ends: &[u16], at: usize) -> Option<(usize, usize)>
    requires says { Says text.now ends.now }
    requires at_value { well_at text.now at ≡ true }
    ensures { Pairs text.now result (items_in (tree_at text.now at)) }
{
    let f = nav::first(text, at, b'[', b']');
    let Some(a) = f else {
        return None;
    };
    let g = nav::next_item(text, ends, a);
    let Some(b) = g else {
        return None;
    };
    let h = nav::next_item(text, ends, b);
    match h {
        Some(_) => None,
        None => Some((a, b)),
    }
}

// The elements of the value at `at`.
pub fn elements_at(text: &[u8], ends: &[u16], at: usize) -> Elements
    requires says { Says text.now ends.now }
    requires at_value { well_at text.now at ≡ true }
    ensures { Begins text.now result.set result.first (tree_at text.now at) }
{
    let p = pair_at(text, ends, at);
    match p {
        Some((a, b)) => {
            let w = text::is_word(text, a, b"set");
            let l = leaf::is_kind(nav::kind_at(text, b), Kind::Array);
            if w & l {
                let g = nav::first(text, b, b'[', b']');
                return Elements {
                    set: true,
                    first: g,
                };
            }
        }
        None => {}
    }
    Elements {
        set: false,
        first: Some(at),
    }
}

// The element after the one at `at`.
pub fn next_element(text: &[u8], ends: &[u16], at: usize, set: bool) -> Option<usize>
    requires { Says text.now ends.now }
    ensures { result ≡ next_element text.now set at }
{
    if set {
        return nav::next_item(text, ends, at);
    }
    None
}

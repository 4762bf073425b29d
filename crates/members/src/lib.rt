// Members of an object by a few words at once. The words stand one after another, each after its length, as b"\x03key\x03min\x03max".
#![tactic(auto)]

ghost use Rattle.std.specs.Prelude.{◌≡◌, true, [], ◌≤◌, ◌<◌, length, get_or};
ghost use Rattle.model.specs.Base.{distinct};
ghost use Rattle.inner.specs.Positions.{Says, well_at, tree_at};
ghost use Rattle.model.specs.Nav.{kind_of};
ghost use Rattle.model.specs.Whole.{whole_of};
ghost use Rattle.model.specs.Members.{members_in};
ghost use Rattle.model.specs.SchemaText.{members_or, truth_or};
ghost use Rattle.members.specs.Fields.{most_words, words_of, choice, slot_tree, Slots};

use model::{Kind, Whole};

// Words at once, at most; as a word's number, that there is none.
pub const WORDS: usize = 9;

// A slot for the place of each word's value, and one more for members that have none of the words.
pub const SLOTS: usize = WORDS + 1;

pub type Places = [usize; SLOTS];

// The number of the word that the value at `at` is, WORDS where it is none.
pub fn choose(text: &[u8], at: usize, words: &[u8]) -> usize
    ensures { result ≡ choice (words_of words.now) (tree_at text.now at) }
{
    let f = text::body_at(text, at);
    let Some(i) = f else {
        return WORDS;
    };
    let mut a = 0;
    for k in 0..words.len() {
        if words.len() <= a {
            return WORDS;
        }
        let n = words[a] as usize;
        let b = a + 1;
        if words.len() - b < n {
            return WORDS;
        }
        let e = b + n;
        if text::body_is(text, i, &words[b..e]) {
            return k;
        }
        a = e;
    }
    WORDS
}

// Members are noted in all slots: those of listed words, and the last one for all others.
const NOTED: usize = SLOTS;

// Where the last value of each word begins in the object at `at`.
pub fn fields(text: &[u8], ends: &[u16], at: usize, words: &[u8]) -> Places
    requires says { Says text.now ends.now }
    requires at_value { well_at text.now at ≡ true }
    requires words_value { distinct (words_of words.now) ≡ true }
    requires words_len_bound { length (words_of words.now) ≤ most_words }
    ensures { Slots text.now (words_of words.now) (members_in (tree_at text.now at)) result }
{
    let mut slots = [0usize; SLOTS];
    let mut g = nav::first(text, at, b'{', b'}');
    while let Some(p) = g {
        let k = choose(text, p, words);
        let v = nav::member_value(text, ends, p);
        if k < NOTED {
            slots[k] = v;
        }
        g = nav::next_past(text, ends, p, v);
    }
    slots
}

// The same of the value at `at`, which stands for the first word's member where it is no object.
pub fn fields_or(text: &[u8], ends: &[u16], at: usize, words: &[u8]) -> Places
    requires says { Says text.now ends.now }
    requires at_value { well_at text.now at ≡ true }
    requires at_nonzero { 0 < at }
    requires words_value { distinct (words_of words.now) ≡ true }
    requires words_len_bound { length (words_of words.now) ≤ most_words }
    requires nonzero { 0 < length (words_of words.now) }
    ensures { Slots text.now (words_of words.now) (members_or (get_or (words_of words.now) 0 []) (tree_at text.now at)) result }
{
    let k = nav::kind_at(text, at);
    let o = leaf::is_kind(k, Kind::Object);
    if o {
        return fields(text, ends, at, words);
    }
    let mut slots = [0usize; SLOTS];
    slots[0] = at;
    slots
}

// The number of the word that a slot's value is, WORDS where it is none.
pub fn choice_in(text: &[u8], p: usize, words: &[u8]) -> usize
    ensures { result ≡ choice (words_of words.now) (slot_tree text.now p) }
{
    if p == 0 {
        return WORDS;
    }
    choose(text, p, words)
}

// What a slot's value is.
pub fn kind_in(text: &[u8], p: usize) -> Kind
    ensures { result ≡ kind_of (slot_tree text.now p) }
{
    if p == 0 {
        return Kind::Null;
    }
    nav::kind_at(text, p)
}

// The integer that a slot's value is.
pub fn whole_in(text: &[u8], ends: &[u16], p: usize) -> Whole
    requires { Says text.now ends.now }
    ensures { result ≡ whole_of (slot_tree text.now p) }
{
    if p == 0 {
        return Whole::Other;
    }
    nav::integer_at(text, ends, p)
}

// What a slot's value says where it is true or false, and d where it is neither.
pub fn truth_in(text: &[u8], p: usize, d: bool) -> bool
    ensures { result ≡ truth_or d (slot_tree text.now p) }
{
    let k = kind_in(text, p);
    let t = leaf::is_kind(k, Kind::Truth);
    if t {
        return nav::truth_at(text, p);
    }
    d
}

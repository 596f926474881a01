//! Bracket lists.
ghost use Rattle.std.specs.Prelude.{◌≡◌, ◌≤◌, ◌<◌, ◌+◌, IfSome, length, map, option_map, suc, take, drop};
ghost use Rattle.std.specs.Str.{bytes_eq};
ghost use Rattle.sh_pattern.specs.Items.{byte_of, class_of, close_of, closing, ends_class, first_closing, first_has, is_negation, is_range, item_has, item_of, letters, list_has, name_length, item_of_class, other_class_of, plain_item, plain_skip, range_end, skip_of, some_has};

use crate::class::{Class, is_between, is_letter};
use crate::pattern_byte::{PatternByte, is_bare};

/// An item of a bracket list.
#[derive(Clone, Copy, Debug, PartialEq, Eq)]
pub enum Item {
    /// This byte.
    Single(u8),
    /// The bytes from one to another.
    Range(u8, u8),
    /// The bytes of a class.
    Named(Class),
    /// A class that isn't known: no byte.
    Unknown,
}

/// An item, and how many bytes of the pattern after its first one belong to it.
#[derive(Clone, Copy, Debug, PartialEq, Eq)]
pub(crate) struct Taken {
    pub item: Item,
    pub skip: usize,
}

impl Item {
    /// Whether the item takes a byte.
    fn has(self, byte: u8) -> bool
        ensures { result ≡ item_has self byte }
    {
        match self {
            Item::Single(single) => byte == single,
            Item::Range(low, high) => is_between(low, high, byte),
            Item::Named(class) => class.has(byte),
            Item::Unknown => false,
        }
    }
}

/// Whether the bytes of `marks`, literal or not, are `name`.
fn is_named(marks: &[PatternByte], name: &[u8]) -> bool
    ensures { result ≡ bytes_eq (map byte_of marks.now) name.now }
{
    let mut marks = marks;
    let mut name = name;
    'bytes: while let Some((mark, others)) = marks.split_first() {
        let Some((byte, behind)) = name.split_first() else {
            return false;
        };
        if mark.byte != *byte {
            return false;
        }
        marks = others;
        name = behind;
    }
    name.is_empty()
}

/// The class of a name.
fn class_named(name: &[PatternByte]) -> Option<Class>
    ensures { result ≡ class_of (map byte_of name.now) }
{
    if is_named(name, b"alnum") {
        return Some(Class::Alnum);
    }
    if is_named(name, b"alpha") {
        return Some(Class::Alpha);
    }
    if is_named(name, b"blank") {
        return Some(Class::Blank);
    }
    if is_named(name, b"cntrl") {
        return Some(Class::Cntrl);
    }
    if is_named(name, b"digit") {
        return Some(Class::Digit);
    }
    if is_named(name, b"graph") {
        return Some(Class::Graph);
    }
    other_class_named(name)
}

/// The class of a name, of the last six classes.
fn other_class_named(name: &[PatternByte]) -> Option<Class>
    ensures { result ≡ other_class_of (map byte_of name.now) }
{
    if is_named(name, b"lower") {
        return Some(Class::Lower);
    }
    if is_named(name, b"print") {
        return Some(Class::Print);
    }
    if is_named(name, b"punct") {
        return Some(Class::Punct);
    }
    if is_named(name, b"space") {
        return Some(Class::Space);
    }
    if is_named(name, b"upper") {
        return Some(Class::Upper);
    }
    if is_named(name, b"xdigit") {
        return Some(Class::Xdigit);
    }
    None
}

/// The item for a class of this name.
fn class_item(name: &[PatternByte]) -> Item
    ensures { result ≡ item_of_class (class_of (map byte_of name.now)) }
{
    match class_named(name) {
        Some(class) => Item::Named(class),
        None => Item::Unknown,
    }
}

/// With how many letters `marks` begins.
fn count_letters(marks: &[PatternByte]) -> usize
    ensures count { result ≡ letters marks.now }
    ensures within { result ≤ length marks.now }
{
    let mut rest = marks;
    'letters: while let Some((mark, others)) = rest.split_first() {
        if !is_letter(mark.byte) {
            return marks.len() - rest.len();
        }
        rest = others;
    }
    marks.len()
}

/// Whether `marks` begins with an unquoted `:]`.
fn begins_class_end(marks: &[PatternByte]) -> bool
    ensures { result ≡ ends_class marks.now }
{
    match marks {
        [colon, bracket, ..] => is_bare(b':', *colon) && is_bare(b']', *bracket),
        _ => false,
    }
}

/// How many letters the name has, where `behind`, the pattern after a `[`, begins with a class as in
/// `[:alpha:]`.
fn class_name(behind: &[PatternByte]) -> Option<usize>
    ensures count { result ≡ name_length behind.now }
    ensures within { IfSome result (λ n. n + 3 ≤ length behind.now) }
{
    let Some((colon, rest)) = behind.split_first() else {
        return None;
    };
    let count = count_letters(rest);
    if is_bare(b':', *colon) && begins_class_end(&rest[count..]) {
        return Some(count);
    }
    None
}

/// The item that begins with `mark` and is no class. `behind` is the pattern after `mark`.
fn plain(mark: PatternByte, behind: &[PatternByte]) -> Taken
    ensures item { result.item ≡ plain_item mark behind.now }
    ensures skip { result.skip ≡ plain_skip behind.now }
    ensures within { result.skip ≤ length behind.now }
{
    if let [dash, last, ..] = behind {
        if is_bare(b'-', *dash) && !is_bare(b']', *last) {
            return Taken {
                item: Item::Range(mark.byte, last.byte),
                skip: 2,
            };
        }
    }
    Taken {
        item: Item::Single(mark.byte),
        skip: 0,
    }
}

/// The item that begins with `mark`. `behind` is the pattern after `mark`.
fn take_item(mark: PatternByte, behind: &[PatternByte]) -> Taken
    ensures item { result.item ≡ item_of mark behind.now }
    ensures skip { result.skip ≡ skip_of mark behind.now }
    ensures within { result.skip ≤ length behind.now }
{
    if !is_bare(b'[', mark) {
        return plain(mark, behind);
    }
    let Some(count) = class_name(behind) else {
        return plain(mark, behind);
    };
    Taken {
        item: class_item(&behind[1..1 + count]),
        skip: count + 3,
    }
}

/// The index of the `]` that ends the items. The first `skip` bytes of `marks` belong to an earlier item.
fn close_from(marks: &[PatternByte], skip: usize) -> Option<usize>
    requires { skip ≤ length marks.now }
    ensures place { result ≡ closing skip marks.now }
    ensures within { IfSome result (λ n. n < length marks.now) }
{
    let mut at = skip;
    'items: while at < marks.len() {
        let mark = marks[at];
        if is_bare(b']', mark) {
            return Some(at);
        }
        at = at + 1 + take_item(mark, &marks[at + 1..]).skip;
    }
    None
}

/// Whether some item before the `]` takes a byte. The first `skip` bytes of `marks` belong to an earlier
/// item.
fn has_from(marks: &[PatternByte], skip: usize, byte: u8) -> bool
    requires { skip ≤ length marks.now }
    ensures { result ≡ some_has skip marks.now byte }
{
    let mut at = skip;
    'items: while at < marks.len() {
        let mark = marks[at];
        if is_bare(b']', mark) {
            return false;
        }
        let taken = take_item(mark, &marks[at + 1..]);
        if taken.item.has(byte) {
            return true;
        }
        at = at + 1 + taken.skip;
    }
    false
}

/// The index of the `]` that ends a list. The first item of the list may begin with `]`.
fn close_first(marks: &[PatternByte]) -> Option<usize>
    ensures place { result ≡ first_closing marks.now }
    ensures within { IfSome result (λ n. n < length marks.now) }
{
    let Some((mark, behind)) = marks.split_first() else {
        return None;
    };
    match close_from(behind, take_item(*mark, behind).skip) {
        Some(place) => Some(place + 1),
        None => None,
    }
}

/// Whether some item of a list takes a byte. The first item of the list may begin with `]`.
fn has_first(marks: &[PatternByte], byte: u8) -> bool
    ensures { result ≡ first_has marks.now byte }
{
    let Some((mark, behind)) = marks.split_first() else {
        return false;
    };
    let taken = take_item(*mark, behind);
    taken.item.has(byte) || has_from(behind, taken.skip, byte)
}

/// Whether `mark` is a `!` or `^` that negates a list, at its start.
fn negates(mark: PatternByte) -> bool
    ensures { result ≡ is_negation mark }
{
    is_bare(b'!', mark) || is_bare(b'^', mark)
}

/// How many bytes of the pattern are between a `[` and its `]`; `None` where the `[` isn't closed.
pub(crate) fn find_close(behind: &[PatternByte]) -> Option<usize>
    ensures place { result ≡ close_of behind.now }
    ensures within { IfSome result (λ n. n < length behind.now) }
{
    let Some((mark, others)) = behind.split_first() else {
        return None;
    };
    if !negates(*mark) {
        return close_first(behind);
    }
    match close_first(others) {
        Some(place) => Some(place + 1),
        None => None,
    }
}

/// Whether the list after a `[` takes a byte.
pub(crate) fn takes_byte(behind: &[PatternByte], byte: u8) -> bool
    ensures { result ≡ list_has behind.now byte }
{
    let Some((mark, others)) = behind.split_first() else {
        return false;
    };
    if negates(*mark) {
        return !has_first(others, byte);
    }
    has_first(behind, byte)
}

// What stands at one position: a literal, a byte's escape, the dot or a class. Its bytes are put into its set, in a lent buffer; or its end alone is found.
// The text and the place are two parameters, and so are the sets and the position: `SetGrown` says of all sets that the others are kept.
#![tactic(auto)]

mod byte_set;
pub mod text;

ghost use Rattle.std.specs.Prelude.{◌<◌, ◌≤◌, length};
ghost use Rattle.scope.specs.Text.Grammar.{Single};
ghost use Rattle.scope.specs.Limits.{position_limit};
ghost use Rattle.scope.specs.Text.Tree.{dot_set, item_set, items_set, set_of};
ghost use Rattle.sets.specs.Layout.{byte_sets};
ghost use Rattle.leaves.specs.GrownSets.{SetGrown};
ghost use Rattle.leaves.specs.ReadAt.{Some, WholeItem, WholeItems, EndsAt, Took};

use byte_set::insert;
use text::{byte_at, class_byte, escape};

// Puts in the bytes of the dot: all but the line end, 0x0A.
fn insert_dot(bytes: &mut [u8], k: usize)
    requires { (k < position_limit) × (byte_sets ≤ length bytes.old) }
    ensures { SetGrown k dot_set bytes.old bytes.new }
{
    insert(bytes, k, 0x00, 0x09);
    insert(bytes, k, 0x0B, 0xFF);
}

// Puts in the bytes of one item of a class; the place after it.
fn item(text: &[u8], at: usize, k: usize, bytes: &mut [u8]) -> usize
    requires some { Some WholeItem text.now at }
    requires k_lt_position_limit { (k < position_limit) × (byte_sets ≤ length bytes.old) }
    ensures { Took WholeItem item_set text.now at k bytes.old bytes.new result }
{
    let low = class_byte(text, at);
    if byte_at(text, low.next) == Some(b'-') {
        let high = class_byte(text, low.next + 1);
        insert(bytes, k, low.byte, high.byte);
        high.next
    } else {
        insert(bytes, k, low.byte, low.byte);
        low.next
    }
}

// Puts in the bytes of the items of a class; the place of the `]` after them.
fn items(text: &[u8], at: usize, k: usize, bytes: &mut [u8]) -> usize
    requires some { Some WholeItems text.now at }
    requires k_lt_position_limit { (k < position_limit) × (byte_sets ≤ length bytes.old) }
    ensures { Took WholeItems items_set text.now at k bytes.old bytes.new result }
{
    let mut next = at;
    while text[next] != b']' {
        next = item(text, next, k, bytes);
    }
    next
}

// Puts in the bytes of an atom that is one position; the place after it.
pub fn single(text: &[u8], at: usize, k: usize, bytes: &mut [u8]) -> usize
    requires some { Some Single text.now at }
    requires k_lt_position_limit { (k < position_limit) × (byte_sets ≤ length bytes.old) }
    ensures { Took Single set_of text.now at k bytes.old bytes.new result }
{
    match text[at] {
        b'.' => {
            insert_dot(bytes, k);
            at + 1
        }
        b'[' => items(text, at + 1, k, bytes) + 1,
        b'\\' => {
            let e = escape(text, at);
            insert(bytes, k, e.byte, e.byte);
            e.next
        }
        literal => {
            insert(bytes, k, literal, literal);
            at + 1
        }
    }
}

// The place of the `]` after the items of a class: each byte is passed, with the one after it if it is a backslash. The end needs no byte's value, so no item is read as in
// `items`.
fn class_end(text: &[u8], at: usize) -> usize
    requires { Some WholeItems text.now at }
    ensures { EndsAt WholeItems text.now at result }
{
    let mut next = at;
    loop {
        match text[next] {
            b']' => return next,
            b'\\' => next += 2,
            _ => next += 1,
        }
    }
}

// The place after an atom that is one position.
pub fn single_end(text: &[u8], at: usize) -> usize
    requires { Some Single text.now at }
    ensures { EndsAt Single text.now at result }
{
    match text[at] {
        b'[' => class_end(text, at + 1) + 1,
        b'\\' => escape(text, at).next,
        _ => at + 1,
    }
}

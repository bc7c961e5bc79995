// What a factor is made of, but for parentheses: a leaf, and the marks after an atom. Each reads what the text has at a place, and requires that it is there.
#![tactic(auto)]

ghost use Rattle.std.specs.Prelude.{◌≤◌, length};
ghost use Rattle.scope.specs.Text.Grammar.{atoms};
ghost use Rattle.sets.specs.Layout.{read_words};
ghost use Rattle.factors.specs.Tails.{GroupAt, MarkAt};
ghost use Rattle.factors.specs.Answer.{Fit, Readable, WithMarks, Answer};

use fragments::{Fragment, alone, blank, marked};
use leaves::single_end;
use leaves::text::{byte_at, escaped};
use literals::is_mark;

// An atom other than one in parentheses.
pub fn leaf(text: &[u8], at: usize, count: usize, words: &mut [u64]) -> Fragment
    requires readable { Readable atoms count text.now at × (GroupAt text.now at → ⊥) }
    requires read_words_in_bounds { read_words ≤ length words.old }
    ensures { Answer atoms text.now at count words.old words.new result }
{
    match escaped(text, at) {
        Some(b'e') => blank(at + 2, count, true),
        Some(b'0') => blank(at + 2, count, false),
        _ => alone(single_end(text, at), count, words),
    }
}

// The mark at a place, if one is there.
fn mark_at(text: &[u8], at: usize) -> Option<u8>
    ensures { MarkAt text.now at result }
{
    let b = byte_at(text, at)?;
    is_mark(b as usize).then_some(b)
}

// The part with the marks after it; `from` positions are to its left.
pub fn marks(text: &[u8], from: usize, part: Fragment, words: &mut [u64]) -> Fragment
    requires { Fit text.now from words.old part }
    ensures { WithMarks text.now from words.old part words.new result }
{
    let mut all = part;
    while let Some(b) = mark_at(text, all.next) {
        all = marked(from, all, all.next + 1, b != b'?', b != b'+', words);
    }
    all
}

// Four readers that call each other while the remaining bytes fall. Each takes what the text has at a place, and answers with its part; it requires that there is
// something to read, so it never refuses. A judged text has at most 32 nested parentheses: at most 33 calls of each reader are open at a time.
// The text and the words are parameters of each: so the one stays and the other keeps its length, which as fields of a struct each contract would have to say.
ghost use Rattle.std.specs.Prelude.{◌≡◌, ◌≤◌, length};
ghost use Rattle.scope.specs.Text.Grammar.{atoms, factors, branches, exprs};
ghost use Rattle.leaves.specs.ReadAt.{byte_of};
ghost use Rattle.factors.specs.Tails.{stops};
ghost use Rattle.factors.specs.Answer.{Readable, Answer};
ghost use Rattle.sets.specs.Layout.{read_words};

use factors::{leaf, marks};
use fragments::{Fragment, beside, blank, either};
use leaves::text::byte_at;

// Whether a branch ends before the byte b; it does at the end of the text.
#[tactic(auto, unfolding(factors::specs::Tails::stops, factors::specs::Tails::closes_expr))]
fn ends_branch(b: Option<u8>) -> bool
    ensures { result ≡ stops (byte_of b) }
{
    matches!(b, None | Some(b')' | b'|'))
}

// An atom: an expression in parentheses, or a leaf.
#[cycle(atom_branch_expr_factor)]
fn atom(text: &[u8], at: usize, count: usize, words: &mut [u64]) -> Fragment
    requires { Readable atoms count text.now at × (read_words ≤ length words.old) }
    ensures { Answer atoms text.now at count words.old words.new result }
{
    if text[at] == b'(' {
        let inner = expr(text, at + 1, count, words);
        Fragment {
            next: inner.next + 1,
            ..inner
        }
    } else {
        leaf(text, at, count, words)
    }
}

// A factor: an atom and its marks.
#[cycle(atom_branch_expr_factor)]
fn factor(text: &[u8], at: usize, count: usize, words: &mut [u64]) -> Fragment
    requires { Readable factors count text.now at × (read_words ≤ length words.old) }
    ensures { Answer factors text.now at count words.old words.new result }
{
    let part = atom(text, at, count, words);
    marks(text, count, part, words)
}

// A branch: factors side by side.
#[cycle(atom_branch_expr_factor)]
fn branch(text: &[u8], at: usize, count: usize, words: &mut [u64]) -> Fragment
    requires { Readable branches count text.now at × (read_words ≤ length words.old) }
    ensures { Answer branches text.now at count words.old words.new result }
{
    let mut all = blank(at, count, true);
    loop {
        let next = factor(text, all.next, all.count, words);
        all = beside(count, all, next, words);
        if ends_branch(byte_at(text, all.next)) {
            return all;
        }
    }
}

// An expression: branches joined by `|`.
#[cycle(atom_branch_expr_factor)]
pub fn expr(text: &[u8], at: usize, count: usize, words: &mut [u64]) -> Fragment
    requires { Readable exprs count text.now at × (read_words ≤ length words.old) }
    ensures { Answer exprs text.now at count words.old words.new result }
{
    let mut all = blank(at, count, false);
    loop {
        let next = branch(text, all.next, all.count, words);
        all = either(all, next);
        if byte_at(text, all.next) != Some(b'|') {
            return all;
        }
        all.next += 1;
    }
}

// A part of a pattern, made of its parts. Its First and Last lie in two sets of the lent words, with those of all parts that are being read.
#![tactic(auto)]

ghost use Rattle.std.specs.Prelude.{true, ◌<◌, ◌≤◌, length};
ghost use Rattle.scope.specs.Limits.{position_limit};
ghost use Rattle.sets.specs.Value.{set_bits};
ghost use Rattle.sets.specs.Layout.{read_words};
ghost use Rattle.fragments.specs.Shapes.{Linked, Alone, Blank, Beside, Either, WithMark};

use sets::layout::{FIRST_AT, LAST_AT};
use spans::Span;

// A part that was read: the place after it, the number of positions up to there, and whether the empty word is there.
#[derive(Clone, Copy)]
pub struct Fragment {
    pub next: usize,
    pub count: usize,
    pub null: bool,
}

// One position, after `count` others.
pub fn alone(next: usize, count: usize, words: &mut [u64]) -> Fragment
    requires { (count < position_limit) × (read_words ≤ length words.old) }
    ensures { Alone next count words.old words.new result }
{
    let position = Span {
        after: count,
        upto: count + 1,
    };
    spans::add(words, FIRST_AT, position);
    spans::add(words, LAST_AT, position);
    Fragment {
        next,
        count: count + 1,
        null: false,
    }
}

// No position.
pub fn blank(next: usize, count: usize, null: bool) -> Fragment
    ensures { Blank next count null result }
{
    Fragment { next, count, null }
}

// Puts what First has of the one span into what follows each position that Last has of the other.
fn link(words: &mut [u64], lasts: Span, firsts: Span)
    requires { (lasts.after ≤ lasts.upto) × (lasts.upto < set_bits) × (read_words ≤ length words.old) }
    ensures { Linked true lasts.after lasts.upto firsts.after firsts.upto words.old words.new }
{
    for p in lasts.after + 1..lasts.upto + 1 {
        if spans::is_in(words, LAST_AT, p) {
            spans::put(words, p, FIRST_AT, firsts);
        }
    }
}

// a, and b after it; `from` positions are to the left of a. First(a) is kept, and First(b) if a is nullable; Last(b), and Last(a) if b is nullable.
pub fn beside(from: usize, a: Fragment, b: Fragment, words: &mut [u64]) -> Fragment
    requires { (from ≤ a.count) × (a.count < set_bits) × (read_words ≤ length words.old) }
    ensures { Beside from a b words.old words.new result }
{
    let of_a = Span {
        after: from,
        upto: a.count,
    };
    let of_b = Span {
        after: a.count,
        upto: b.count,
    };
    link(words, of_a, of_b);
    if !a.null {
        spans::remove(words, FIRST_AT, of_b);
    }
    if !b.null {
        spans::remove(words, LAST_AT, of_a);
    }
    Fragment {
        null: a.null & b.null,
        ..b
    }
}

// a or b.
pub fn either(a: Fragment, b: Fragment) -> Fragment
    ensures { Either a b result }
{
    Fragment {
        null: a.null | b.null,
        ..b
    }
}

// a with a mark after it, and the place after that: the mark may let a come again, and may let it be left out. `from` positions are to the left of a.
pub fn marked(
    from: usize,
    a: Fragment,
    next: usize,
    repeats: bool,
    skips: bool,
    words: &mut [u64],
) -> Fragment
    requires { (from ≤ a.count) × (a.count < set_bits) × (read_words ≤ length words.old) }
    ensures { WithMark repeats skips from a next words.old words.new result }
{
    if repeats {
        let of_a = Span {
            after: from,
            upto: a.count,
        };
        link(words, of_a, of_a);
    }
    Fragment {
        next,
        null: skips | a.null,
        ..a
    }
}

// Reading a judged text: the sets of positions of its tree, and the bytes that each position holds. One pass over the text makes the byte sets, the readers the others.
#![tactic(auto)]

mod readers;

ghost use Rattle.sets.specs.Layout.{byte_sets, read_words};
ghost use Rattle.pattern.specs.PatternSets.{Faultless, Clear, Reading};

use sets::Set;
use sets::layout::LAST_AT;

// What a pattern is besides the sets in the scratch: whether it has the empty word, Last, and how many positions it has.
#[derive(Clone, Copy)]
pub struct Shape {
    pub null: bool,
    pub last: Set,
    pub size: usize,
}

// The sets of a judged text. First and what follows each position come into the words, as their sets number 0 and p; the bytes that it holds come into the bytes, 32 for
// each position. Both are zero before.
pub fn read(text: &[u8], bytes: &mut [u8], words: &mut [u64]) -> Shape
    requires faultless { Faultless text.now }
    requires clear { Clear byte_sets bytes.old × Clear read_words words.old }
    ensures { Reading text.now bytes.old bytes.new words.old words.new result }
{
    byte_sets::fill(text, bytes);
    let all = readers::expr(text, 0, 0, words);
    let last = sets::load(words, LAST_AT);
    Shape {
        null: all.null,
        last,
        size: all.count,
    }
}

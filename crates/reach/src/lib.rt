// The search for the reached sets, and the cells of the image row by row. A row is one union of follow sets, and for each class what it has in common with the
// class's mask; a set that is not yet among the reached ones takes the next seat.
#![tactic(auto)]

ghost use Rattle.std.specs.Prelude.{◌≡◌, ◌*◌, ◌<◌, ◌≤◌, length};
ghost use Rattle.scope.specs.Limits.{set_words};
ghost use Rattle.scope.specs.Positions.Bits.{joined};
ghost use Rattle.sets.specs.Value.{set_bits, set_value};
ghost use Rattle.seats.specs.SeatLayout.{reached_set};
ghost use Rattle.seats.specs.Seats.{Guesses};
ghost use Rattle.reach.specs.Reach.{follow_of, WordAnswer, GuessesFor, RowFits, RowAnswer, RowsAnswer};

use scope::Machine;
use seats::{GUESSES, seat};
use sets::Set;
use sets::layout::SETS_AT;

// `others` with the follow sets of the positions of one word of a set: the word number w, with the bits x. What is not in the set is passed over by a shift.
fn follows_word(words: &[u64], w: usize, x: u64, others: Set) -> Set
    requires { (w < set_words) × (set_bits * set_words ≤ length words.now) }
    ensures { WordAnswer words.now w x (set_value others.words) (set_value result.words) }
{
    let mut union = others;
    let mut rest = x;
    let mut at: usize = 0;
    while rest != 0 {
        let zeros = u64::trailing_zeros(rest) as usize;
        union = union.joined(sets::load(words, 64 * w + at + zeros));
        rest = (rest >> zeros) / 2;
        at = at + zeros + 1;
    }
    union
}

// The positions that follow those of the set s.
fn follows(words: &[u64], s: Set) -> Set
    requires { set_bits * set_words ≤ length words.now }
    ensures { set_value result.words ≡ joined (follow_of words.now (set_value s.words)) set_bits }
{
    let mut union = Set::none();
    for (w, x) in s.words.iter().enumerate() {
        union = follows_word(words, w, *x, union);
    }
    union
}

// Fills the row of the state q, whose set has the follow sets `union`: the number of reached sets then, if they are not too many.
fn row(
    image: &mut [u8],
    words: &mut [u64],
    guesses: &mut [Option<u8>],
    masks: &[u64],
    k: usize,
    q: usize,
    n: usize,
    union: Set,
) -> Option<usize>
    requires { RowFits image.old words.old masks.now k q n × Guesses words.old guesses.old n }
    ensures guesses_for { GuessesFor words.new guesses.new result }
    ensures row_answer { RowAnswer image.old words.old masks.now k q n (set_value union.words) image.new words.new result }
{
    let at = Machine::CELLS_AT + q * k;
    let mut m = n;
    for c in 0..k {
        let i = seat(words, guesses, m, union.common(sets::load(masks, c)))?;
        if i == m {
            m += 1;
        }
        image[at + c] = i as u8;
    }
    Some(m)
}

// Fills the rows of all reached sets, of which {0} is there: the number of reached sets, if they are not too many. The follow sets are read from the words into which seats are
// put, so no struct holds these; and `RowFits` speaks of the masks and of how many of them count.
pub fn rows(image: &mut [u8], words: &mut [u64], masks: &[u64], k: usize) -> Option<usize>
    requires row_fits { RowFits image.old words.old masks.now k 0 1 }
    requires words_value { reached_set words.old 0 ≡ 1 }
    ensures { RowsAnswer image.old words.old masks.now k image.new words.new result }
{
    let mut guesses = [None; GUESSES];
    guesses[1] = Some(0);
    let mut n = 1;
    let mut q = 0;
    // A row can add sets, and each has a row of its own.
    while q < n {
        let union = follows(words, sets::load(words, SETS_AT + q));
        n = row(image, words, &mut guesses, masks, k, q, n, union)?;
        q += 1;
    }
    Some(n)
}

// The seats of the reached sets: sets in the words, in the order of their arrival. A set has the number of its seat; one that has none yet takes the next. For each
// remainder of a set the number that a set with it had last is tried first.
#![tactic(auto)]

ghost use Rattle.std.specs.Prelude.{◌≡◌, ◌+◌, ◌*◌, ◌≤◌, length};
ghost use Rattle.scope.specs.Limits.{state_limit, set_words};
ghost use Rattle.sets.specs.Value.{set_value};
ghost use Rattle.sets.specs.Layout.{sets_at};
ghost use Rattle.seats.specs.Seats.{remainder_of, Guesses, Guessed, Known, Seated};

use scope::Machine;
use sets::Set;
use sets::layout::SETS_AT;

// How many guesses are kept: for each remainder of a set, the number that a set with it had last, if one had it.
pub const GUESSES: usize = 251;

// The remainder of 2 ^ 64.
const STEP: usize = 0xFFFF_FFFF_FFFF_FFFF % GUESSES + 1;

// The remainder of a set, over its words from the highest down.
fn remainder(s: Set) -> usize
    ensures { result ≡ remainder_of (set_value s.words) }
{
    let mut r = 0;
    for i in (0..Machine::SET_WORDS).rev() {
        r = (r * STEP + (s.words[i] % GUESSES as u64) as usize) % GUESSES;
    }
    r
}

// The number of s among the n reached sets, if it has one: the first that is s.
fn find(words: &[u64], n: usize, s: Set) -> Option<usize>
    requires { (n ≤ state_limit) × ((sets_at + state_limit) * set_words ≤ length words.now) }
    ensures { Known words.now n (set_value s.words) result }
{
    for i in 0..n {
        if s == sets::load(words, SETS_AT + i) {
            return Some(i);
        }
    }
    None
}

// The number of s among the n reached sets: the one that is guessed, if it is that, or else the first that is found. Where there is no guess, or none is found, it is
// new, and is stored after them, if there is room.
pub fn seat(words: &mut [u64], guesses: &mut [Option<u8>], n: usize, s: Set) -> Option<usize>
    requires { (n ≤ state_limit) × ((sets_at + state_limit) * set_words ≤ length words.old) × Guesses words.old guesses.old n }
    ensures seated { Seated words.old words.new n (set_value s.words) result }
    ensures guessed { Guessed words.new guesses.new n result }
{
    let at = remainder(s);
    if let Some(guess) = guesses[at] {
        let guessed = guess as usize;
        if guessed < n && s == sets::load(words, SETS_AT + guessed) {
            return Some(guessed);
        }
        if let Some(i) = find(words, n, s) {
            guesses[at] = Some(i as u8);
            return Some(i);
        }
    }
    if n == Machine::STATES {
        return None;
    }
    sets::store(words, SETS_AT + n, s);
    guesses[at] = Some(n as u8);
    Some(n)
}

// The string that tells two machines apart.
//
// In the tree of parts, with the round of birth beside each parent, the part of a state after any earlier round is found by climbing. The two starts have a first round
// after which they are not together; its number is the length of the shortest strings that tell them apart. Parts only get finer with each round, so it is found by
// halving, where each step climbs from both starts. Of these strings the first is spelled byte by byte: two states that r + 1 bytes tell apart, and no fewer, are led
// by some byte to two states that r bytes tell apart, and the first such byte is the next of the string. A byte leads where the least byte of its kind does, so only
// these are tried.
#![tactic(auto)]

ghost use Rattle.std.specs.Prelude.{ℕ, ◌≤◌, length};
ghost use Rattle.two_rooms.specs.Kinds.{Kinds};
ghost use Rattle.spelling.specs.Word.{Apart, Between, Spells, WordHas};
ghost use Rattle.spelling.specs.Climb.{Climbs, Climbed};

use round::Lineage;
use two_rooms::{ByteKinds, Pair};

// The tree of parts: the part of each state, and for each part its parent and the round of its birth.
#[derive(Drop)]
pub struct Tree<'a> {
    pub part: &'a [u16; refinement::STATES],
    pub lineage: &'a Lineage,
}

impl<'a> Tree<'a> {
    // The part of q after r rounds.
    fn climb(&self, q: usize, r: usize) -> usize
        requires { Climbs self.now.part.now self.now.lineage.now.parent self.now.lineage.now.born q r }
        ensures { Climbed self.now.part.now self.now.lineage.now.parent self.now.lineage.now.born q r result }
    {
        let mut x = self.part[q] as usize;
        while self.lineage.born[x] as usize > r {
            x = self.lineage.parent[x] as usize;
        }
        x
    }

    // The first round after which p and q, which lie in two parts, are not together: the length of the shortest string that tells them apart.
    pub fn distance(&self, p: usize, q: usize, rounds: usize) -> usize
        requires { Apart self.now.part.now self.now.lineage.now.parent self.now.lineage.now.born p q rounds }
        ensures { Between self.now.part.now self.now.lineage.now.parent self.now.lineage.now.born p q rounds result result }
    {
        let mut low: usize = 0;
        let mut high = rounds;
        while low < high {
            let middle = (low + high) / 2;
            if self.climb(p, middle) == self.climb(q, middle) {
                low = middle + 1;
            } else {
                high = middle;
            }
        }
        low
    }

    // Writes the first of the shortest strings that tell the two starts apart; `long` is their length.
    pub fn spell(&self, pair: &Pair, kinds: &ByteKinds, long: usize, word: &mut [u8])
        requires spells { Spells pair.now.left pair.now.right self.now.part.now self.now.lineage.now.parent self.now.lineage.now.born long }
        requires kinds { (count : ℕ) × Kinds pair.now.left pair.now.right kinds.now.least count }
        requires long_in_bounds { long ≤ length word.old }
        ensures { WordHas pair.now.left pair.now.right word.old word.new long }
    {
        let mut p: usize = 0;
        let mut q = pair.left.head().states;
        let mut at: usize = 0;
        'walk: loop {
            // The byte is yielded by `break`, and the walk over pairs left by its label, as docs/RULES.md wants of these loops; no `for` yields a value.
            let mut i: usize = 0;
            let mut y = p;
            let mut z = q;
            let byte = loop {
                if at == long {
                    break 'walk;
                }
                let x = kinds.least[i];
                y = pair.step(p, x);
                z = pair.step(q, x);
                let r = long - (at + 1);
                if self.climb(y, r) != self.climb(z, r) {
                    break x;
                }
                i += 1;
            };
            word[at] = byte;
            p = y;
            q = z;
            at += 1;
        }
    }
}

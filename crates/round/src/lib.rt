// One round of the refinement: each part is split into those that agree.
//
// A part is named by its least state: so a state that begins a part begins one in every later round, and a part that is opened has one parent, the part that its
// least state lay in before. A state is looked at only where something has moved that it or the beginning of its part leads to, and compared only with the states
// that begin new parts within its old one.
#![tactic(auto)]

ghost use Rattle.std.specs.Prelude.{◌≡◌, ℕ, ◌≤◌, ◌<◌, length, get_or, IfSome, unwrap_or};
ghost use Rattle.buffers.specs.Stored.{Decides};
ghost use Rattle.two_rooms.specs.Side.{both_limit, both};
ghost use Rattle.parting.specs.CellRows.{CellRows};
ghost use Rattle.parting.specs.Named.{Named, Renamed, OnePart, Agree};
ghost use Rattle.signs.specs.Signs.{Steady, Stayed, Seen, Calm};
ghost use Rattle.round.specs.Round.{Opening, Opened, Births};

use parting::Moves;

// For each part that a round opened, by its name: its parent, the part that it was split from, and the round that it was born in. They are two arrays, as `BirthTree` of
// refinement speaks of two lists.
#[derive(Drop)]
pub struct Lineage {
    pub parent: [u16; two_rooms::STATES],
    pub born: [u16; two_rooms::STATES],
    pub ghost long: { (length parent ≡ both_limit) × (length born ≡ both_limit) },
}

// Opens a new part within the part that h begins: q begins it, born in round r, and is the last of the chain of h.
fn open(q: usize, h: usize, r: u16, link: &mut [u16; two_rooms::STATES], lineage: &mut Lineage)
    requires { (q < both_limit) × (h < both_limit) }
    ensures { Opening q h r link.old link.new lineage.old.parent lineage.new.parent lineage.old.born lineage.new.born }
{
    link[q] = link[h];
    link[h] = q as u16;
    lineage.parent[q] = h as u16;
    lineage.born[q] = r;
}

// The next state from `at` on that is to be looked at, if there is one below n: one that does not begin its part, where it or the state that does is touched. A state agrees
// still with the one that begins its part where neither is; so where one that begins a part is, all that come after it are tried: `seen` has then every sign.
fn looked(
    part: &[u16; two_rooms::STATES],
    touched: u64,
    seen: &mut u64,
    at: usize,
    n: usize,
) -> Option<usize>
    requires at_le_n { (at ≤ n) × (n ≤ both_limit) }
    requires named { Named (OnePart part.now) part.now n }
    requires seen { Seen part.now touched seen.old at }
    ensures found { IfSome result (λ q. (at ≤ q) × (q < n) × (get_or part.now q 0 < q)) }
    ensures seen_to { Seen part.now touched seen.new (unwrap_or result n) }
    ensures calm_between { (x : ℕ) → x < unwrap_or result n → at ≤ x → Calm part.now touched x }
{
    let mut next = at;
    while let Some(q) = signs::seek(*seen, next, n) {
        let h = part[q] as usize;
        if h < q {
            if (signs::sign(q) | signs::sign(h)) & touched != 0 {
                return Some(q);
            }
        } else {
            *seen = u64::MAX;
        }
        next = q + 1;
    }
    None
}

// One round, from part to next, which is the same before, with the births of round r; whether it opened a part. `touched` has the signs of the states that a byte leads
// to one that moved in the last round, and then in this one. `link` is 0 before. There is no heap: chains and parents are numbers of states, and the arrays are apart, since
// one is copied whole onto another.
pub fn round(
    moves: &Moves,
    from: &[u64; two_rooms::STATES],
    part: &[u16; two_rooms::STATES],
    touched: &mut u64,
    link: &mut [u16; two_rooms::STATES],
    next: &mut [u16; two_rooms::STATES],
    lineage: &mut Lineage,
    r: u16,
) -> bool
    requires cell_rows { CellRows (both moves.now.pair.now.left moves.now.pair.now.right).next moves.now.least.now moves.now.rows.now moves.now.pair.now.states }
    requires named { Named (OnePart part.now) part.now moves.now.pair.now.states }
    requires steady { Steady (both moves.now.pair.now.left moves.now.pair.now.right).next part.now moves.now.pair.now.states touched.old }
    requires next_is_part { (q : ℕ) → q < moves.now.pair.now.states → get_or next.old q 0 ≡ get_or part.now q 0 }
    requires link_zero { (x : ℕ) → get_or link.old x 0 ≡ 0 }
    ensures renamed { Renamed (Agree (both moves.now.pair.now.left moves.now.pair.now.right).next part.now) next.old next.new moves.now.pair.now.states }
    ensures births { Births part.now next.new lineage.old.parent lineage.new.parent lineage.old.born lineage.new.born r moves.now.pair.now.states }
    ensures stayed { Stayed part.now next.new from.now moves.now.pair.now.states touched.new }
    ensures decides { Decides result (Opened part.now next.new moves.now.pair.now.states) }
    ensures link_cleared { (x : ℕ) → moves.now.pair.now.states ≤ x → get_or link.new x 0 ≡ 0 }
{
    let n = moves.pair.states;
    let mut opened = false;
    let mut stirred: u64 = 0;
    let mut seen = *touched;
    let mut at: usize = 0;
    while let Some(q) = looked(part, *touched, &mut seen, at, n) {
        let h = part[q] as usize;
        let p = match moves.walk(part, link, q) {
            Some(p) => p,
            None => {
                open(q, h, r, link, lineage);
                opened = true;
                q
            }
        };
        if p != h {
            stirred |= from[q];
            next[q] = p as u16;
        }
        at = q + 1;
    }
    *touched = stirred;
    opened
}

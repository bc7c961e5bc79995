// Signs of states: a word of 64 signs tells of many states at once which are to be looked at, and never of too few.
//
// With each state the signs of those are noted that a byte leads to it. Round 0 parts the states by their mark, and has then the signs of the states that lead to
// one that is not of the first part.
#![tactic(auto)]

ghost use Rattle.std.specs.Prelude.{◌≡◌, ◌+◌, ◌%◌, ◌^◌, ◌≤◌, ◌<◌, length, replicate, MatchOption};
ghost use Rattle.scope.specs.Machines.Room.{states_of, classes_of};
ghost use Rattle.scope.specs.Machines.Rounds.{Together};
ghost use Rattle.scope.specs.Operations.Buffers.{TailKept};
ghost use Rattle.two_rooms.specs.Side.{both_limit, both, side};
ghost use Rattle.parting.specs.Named.{Named};
ghost use Rattle.parting.specs.CellRows.{row_width, CellRows};
ghost use Rattle.signs.specs.Signs.{signs, Gap, Sources, CellsNoted, Steady};

use room::Table;
use two_rooms::Pair;

// How many signs there are: a state has the one that its number leaves.
const SIGNS: usize = 64;

// The sign of the state q.
pub fn sign(q: usize) -> u64
    ensures { result ≡ 2 ^ (q % signs) }
{
    1u64 << (q % SIGNS)
}

// The next state from q on whose sign is in s, if one below n has it.
pub fn seek(s: u64, q: usize, n: usize) -> Option<usize>
    requires { (q ≤ n) × (n ≤ both_limit) }
    ensures { MatchOption result (Gap s q n) (λ x. (q ≤ x) × (x < n) × Gap s q x) }
{
    let mut x = q;
    while x < n {
        let rest = s >> (x % SIGNS);
        if rest % 2 == 1 {
            return Some(x);
        }
        if rest != 0 {
            let y = x + u64::trailing_zeros(rest) as usize;
            if y < n {
                return Some(y);
            }
            return None;
        }
        x += SIGNS - x % SIGNS;
    }
    None
}

// Notes the sign s with each state to which a class leads the state q of the room, whose states stand from `base` on. Where the class before leads there too,
// it is noted already.
fn note(room: &Table, base: usize, q: usize, s: u64, from: &mut [u64; two_rooms::STATES])
    requires { (q < states_of room.now) × (base + states_of room.now ≤ both_limit) }
    ensures { CellsNoted room.now base q s from.old from.new (classes_of room.now) }
{
    let k = room.head().classes as u8;
    let mut last = base + room.cell(q, 0);
    from[last] |= s;
    for c in 1..k {
        let y = base + room.cell(q, c);
        if y != last {
            from[y] |= s;
            last = y;
        }
    }
}

// Notes the states that are looked at: in rows where the first bytes of least lead each, and its sign with each state to which a byte leads it.
pub fn note_all(pair: &Pair, least: &[u8], rows: &mut [u64], from: &mut [u64; two_rooms::STATES])
    requires { (row_width ≤ length least.now) × (both_limit ≤ length rows.old) }
    ensures cell_rows { CellRows (both pair.now.left pair.now.right).next least.now rows.new pair.now.states × TailKept both_limit rows.old rows.new }
    ensures sources { Sources (both pair.now.left pair.now.right).next pair.now.states from.new }
{
    let s = pair.left.head().states;
    for q in 0..pair.states {
        parting::write_row(pair, least, q, rows);
        if q < s {
            note(&pair.left, 0, q, sign(q), from);
        } else {
            note(&pair.right, s, q - s, sign(q), from);
        }
    }
}

// Round 0: the parts by mark, where all are 0; the signs of the states that a byte leads to one that is not of the first part.
pub fn begin(
    pair: &Pair,
    from: &[u64; two_rooms::STATES],
    part: &mut [u16; two_rooms::STATES],
) -> u64
    requires sources { Sources (both pair.now.left pair.now.right).next pair.now.states from.now }
    requires part_value { part.old ≡ replicate both_limit 0 }
    ensures named { Named (Together (side pair.now.left pair.now.right pair.now.states) 0) part.new pair.now.states }
    ensures steady { Steady (both pair.now.left pair.now.right).next part.new pair.now.states result }
{
    let m = pair.mark(0);
    let mut touched: u64 = 0;
    let mut other: Option<usize> = None;
    for q in 0..pair.states {
        if pair.mark(q) != m {
            let first = other.unwrap_or(q);
            other = Some(first);
            part[q] = first as u16;
            touched |= from[q];
        }
    }
    touched
}

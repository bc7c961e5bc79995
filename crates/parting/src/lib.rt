// Whether two states of one part agree: each byte leads them into one part. And the least state that agrees with a given one.
//
// Two rooms stand side by side. Only a byte of each kind is tried. Where the first few of them lead is read from rows, a word of cells for each state; where the others
// do, from the rooms.
#![tactic(auto)]

ghost use Rattle.std.specs.Prelude.{◌≡◌, ◌+◌, ◌≤◌, ◌<◌, length, get_or};
ghost use Rattle.scope.specs.Limits.{byte_values};
ghost use Rattle.scope.specs.Machines.Room.{states_of, Below};
ghost use Rattle.scope.specs.Operations.Buffers.{TailKept};
ghost use Rattle.buffers.specs.Stored.{Decides};
ghost use Rattle.two_rooms.specs.Side.{both_limit, both};
ghost use Rattle.two_rooms.specs.Kinds.{EachKind};
ghost use Rattle.parting.specs.Named.{LeastLike, LeastBefore, OnePart, Agree, Led};
ghost use Rattle.parting.specs.CellRows.{row_width, CellRows};
ghost use Rattle.parting.specs.Chain.{Chain};

use two_rooms::Pair;

// How many cells a row has. It is a word of 64 bits, the first cell the lowest.
pub const ROW: usize = 4;

// How many values a cell has.
const CELL: u64 = 1 << (64 / ROW);

// Writes the row of the state q behind those of the states before it.
pub fn write_row(pair: &Pair, least: &[u8], q: usize, rows: &mut [u64])
    requires q_bound { (q < states_of pair.now.left + states_of pair.now.right) × (row_width ≤ length least.now) }
    requires both_limit_in_bounds { (both_limit ≤ length rows.old) × CellRows (both pair.now.left pair.now.right).next least.now rows.old q }
    ensures { CellRows (both pair.now.left pair.now.right).next least.now rows.new (q + 1) × TailKept both_limit rows.old rows.new }
{
    let mut row: u64 = 0;
    for i in (0..ROW).rev() {
        row = row * CELL + pair.step(q, least[i]) as u64;
    }
    rows[q] = row;
}

// Where bytes lead the states of two rooms: a byte of each kind, and the rows of states. While rows are written they are lent by `&mut`, so `write_row` takes the three
// apart; and a walk asks for the rows up to its state alone, so how many there are is no part of the type.
#[derive(Drop)]
pub struct Moves<'a> {
    pub pair: &'a Pair<'a>,
    pub least: &'a [u8],
    pub rows: &'a [u64],
    pub ghost wide: { row_width ≤ length least.now },
    pub ghost bytes: { Below least.now 0 (length least.now) byte_values },
    pub ghost each_kind: { ∥ EachKind (both pair.now.left pair.now.right).next least.now ∥₁ },
}

impl<'a> Moves<'a> {
    // Where a byte of each kind leads the states that are looked at.
    pub fn new(pair: &'a Pair<'a>, least: &'a [u8], rows: &'a [u64]) -> Moves<'a>
        requires wide { row_width ≤ length least.now }
        requires each_kind { EachKind (both pair.now.left pair.now.right).next least.now }
        ensures { (result.pair.now ≡ pair.now) × (result.least.now ≡ least.now) × (result.rows.now ≡ rows.now) }
    {
        Moves { pair, least, rows }
    }

    // Whether the bytes whose cells are in the rows lead p and q into one part. All are tried: a test after each would be foreseen worse than one after all.
    fn agree_rows(&self, part: &[u16; two_rooms::STATES], p: usize, q: usize) -> bool
        requires cell_rows { CellRows (both self.now.pair.now.left self.now.pair.now.right).next self.now.least.now self.now.rows.now (q + 1) }
        requires p_le_q { p ≤ q }
        ensures { Decides result (Led (both self.now.pair.now.left self.now.pair.now.right).next self.now.least.now part.now p q 0 row_width) }
    {
        let mut x = self.rows[p];
        let mut y = self.rows[q];
        let mut same = true;
        for _i in 0..ROW {
            if part[(x % CELL) as usize] != part[(y % CELL) as usize] {
                same = false;
            }
            x /= CELL;
            y /= CELL;
        }
        same
    }

    // Whether the other bytes lead p and q into one part, by the rooms. By `all` the goal `returns` stays open: what the closure answers is not tied to the row.
    fn agree_rooms(&self, part: &[u16; two_rooms::STATES], p: usize, q: usize) -> bool
        requires { (p ≤ q) × (q < states_of self.now.pair.now.left + states_of self.now.pair.now.right) }
        ensures { Decides result (Led (both self.now.pair.now.left self.now.pair.now.right).next self.now.least.now part.now p q row_width (length self.now.least.now)) }
    {
        for x in &self.least[ROW..] {
            if part[self.pair.step(p, *x)] != part[self.pair.step(q, *x)] {
                return false;
            }
        }
        true
    }

    // Whether each byte leads p and q, which lie in one part, into one part.
    fn agree(&self, part: &[u16; two_rooms::STATES], p: usize, q: usize) -> bool
        requires cell_rows { CellRows (both self.now.pair.now.left self.now.pair.now.right).next self.now.least.now self.now.rows.now (q + 1) }
        requires p_le_q { (p ≤ q) × (q < states_of self.now.pair.now.left + states_of self.now.pair.now.right) × OnePart part.now p q }
        ensures { Decides result (Agree (both self.now.pair.now.left self.now.pair.now.right).next part.now p q) }
    {
        self.agree_rows(part, p, q) && self.agree_rooms(part, p, q)
    }

    // The least state that agrees with q, which does not begin its part, if there is one before q; from the state that begins its part, link leads to all below q that
    // begin new parts within it.
    pub fn walk(
        &self,
        part: &[u16; two_rooms::STATES],
        link: &[u16; two_rooms::STATES],
        q: usize,
    ) -> Option<usize>
        requires cell_rows { CellRows (both self.now.pair.now.left self.now.pair.now.right).next self.now.least.now self.now.rows.now (q + 1) }
        requires q_bound { (q < states_of self.now.pair.now.left + states_of self.now.pair.now.right) × LeastLike (OnePart part.now) q (get_or part.now q 0) × (get_or part.now q 0 < q) }
        requires chain { Chain (Agree (both self.now.pair.now.left self.now.pair.now.right).next part.now) part.now link.now q }
        ensures { LeastBefore (Agree (both self.now.pair.now.left self.now.pair.now.right).next part.now) q result }
    {
        let mut p = part[q] as usize;
        while !self.agree(part, p, q) {
            p = link[p] as usize;
            // A chain ends with 0, as `ChainEnd` says: the state 0 begins its part, and is in none.
            if p == 0 {
                return None;
            }
        }
        Some(p)
    }
}

// The refinement of parts that minimising and comparing share.
//
// Rooms stand side by side, and the first of their states are refined: all of them, or those of the left room alone, whatever stands beside it.
// Round 0 parts the states by their mark; each next round splits what some byte leads into different parts; the first round that opens no part is the last. With each
// part its parent is kept, the part that it was split from, and the round of its birth.
#![tactic(auto)]

ghost use Rattle.std.specs.Prelude.{◌≡◌, ◌≤◌, length, get_or, replicate, take};
ghost use Rattle.scope.specs.Limits.{byte_values};
ghost use Rattle.scope.specs.Machines.Room.{Below};
ghost use Rattle.scope.specs.Machines.Room.{SoundTable};
ghost use Rattle.scope.specs.Operations.Buffers.{Written, TailKept};
ghost use Rattle.two_rooms.specs.Side.{both_limit, side};
ghost use Rattle.two_rooms.specs.Kinds.{Kinds};
ghost use Rattle.parting.specs.CellRows.{row_width};
ghost use Rattle.refinement.specs.Refined.{Refined, RefinedAlone};

use parting::Moves;
use room::Table;
use round::Lineage;
use scope::Machine;
use two_rooms::{ByteKinds, Pair};

// The most states that two rooms have.
pub const STATES: usize = two_rooms::STATES;

// Copies the parts of the first n states, and makes their links 0.
fn adopt(from: &[u16; STATES], part: &mut [u16; STATES], link: &mut [u16; STATES], n: usize)
    requires { n ≤ both_limit }
    ensures part_written { Written n (λ q. get_or from.now q 0) part.old part.new }
    ensures link_written { Written n (λ q. 0) link.old link.new }
{
    part[..n].copy_from_slice(&from[..n]);
    link[..n].fill(0);
}

// The least bytes that are tried: one of each kind, and as many as a row has. Behind the kinds they are some bytes.
fn tried(kinds: &ByteKinds) -> &[u8]
    requires { kinds.now.count ≤ byte_values }
    ensures part { result.now ≡ take (length result.now) kinds.now.least }
    ensures long { (kinds.now.count ≤ length result.now) × (row_width ≤ length result.now) × (length result.now ≤ byte_values) }
{
    &kinds.least[..kinds.count.max(parting::ROW)]
}

// Refines the states that are looked at until nothing splits, over the kinds of the bytes; the number of rounds. In `part` and `lineage`, which are 0 before, are then the
// part of each state, and for each part its parent and the round it was born in. The rows lie in words that are lent, one for each state. The arrays are lent, since by
// value they would be copied, and are new, so 0.
pub fn refine(
    pair: &Pair,
    kinds: &ByteKinds,
    part: &mut [u16; STATES],
    lineage: &mut Lineage,
    rows: &mut [u64],
) -> usize
    requires kinds { Kinds pair.now.left pair.now.right kinds.now.least kinds.now.count }
    requires part_value { (part.old ≡ replicate both_limit 0) × (lineage.old.parent ≡ replicate both_limit 0) × (lineage.old.born ≡ replicate both_limit 0) }
    requires both_limit_in_bounds { both_limit ≤ length rows.old }
    ensures refined { Refined (side pair.now.left pair.now.right pair.now.states) part.new lineage.new.parent lineage.new.born result }
    ensures tail_kept { TailKept both_limit rows.old rows.new }
{
    let mut from = [0u64; STATES];
    let least = tried(kinds);
    signs::note_all(pair, least, rows, &mut from);
    let moves = Moves::new(pair, least, rows);
    let mut touched = signs::begin(pair, &from, part);
    let mut link = [0u16; STATES];
    let mut next = [0u16; STATES];
    adopt(part, &mut next, &mut link, moves.pair.states);
    let mut r: usize = 0;
    while round::round(
        &moves,
        &from,
        part,
        &mut touched,
        &mut link,
        &mut next,
        lineage,
        (r + 1) as u16,
    ) {
        adopt(&next, part, &mut link, moves.pair.states);
        r += 1;
    }
    r
}

// How many kinds the bytes of one room are of, and how many rounds its states take.
#[derive(Clone, Copy)]
pub struct Alone {
    pub kinds: usize,
    pub rounds: usize,
}

// Refines the states of one room until nothing splits: those that come first where it stands beside itself. In `column` and `part`, which are 0 before, are then the
// class of each kind of bytes and the part of each state.
pub fn refine_alone(
    room: &Table,
    column: &mut [u8; Machine::BYTES],
    part: &mut [u16; STATES],
    rows: &mut [u64],
) -> Alone
    requires { (column.old ≡ replicate byte_values 0) × (part.old ≡ replicate both_limit 0) × (both_limit ≤ length rows.old) }
    ensures sound { SoundTable room.now }
    ensures refined_alone { RefinedAlone room.now column.new part.new result.kinds result.rounds }
    ensures tail_kept { TailKept both_limit rows.old rows.new }
{
    let pair = Pair::alone(room);
    let kinds = pair.kinds(room.head().classes);
    two_rooms::columns(room, &kinds.least[..kinds.count], column);
    let mut lineage = Lineage {
        parent: [0; STATES],
        born: [0; STATES],
    };
    let rounds = refine(&pair, &kinds, part, &mut lineage, rows);
    Alone {
        kinds: kinds.count,
        rounds,
    }
}

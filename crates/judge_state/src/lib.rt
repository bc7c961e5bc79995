// What is known of a text after each of its bytes: where in the grammar it has come to, and which places were noted.
#![tactic(auto)]

ghost use Rattle.std.specs.Prelude.{◌≡◌, ◌≤◌};
ghost use Rattle.scope.specs.Limits.{position_limit};
ghost use Rattle.modes.specs.Notes.{blank};
ghost use Rattle.judge_state.specs.Reading.{NotesKept, TallyMore, TallyBeyond, ReadAs, Bounded};

use scope::Machine;

// How far a piece has come: it is awaited; it is done; its escape has come to the backslash, to the x, to the first digit; no byte goes on.
#[derive(Clone, Copy, PartialEq, Eq)]
pub enum Stage {
    Await,
    Done,
    Back,
    Code,
    Digit,
    Stuck,
}

// The pieces: an atom, a byte in a class, the high end of a range.
#[derive(Clone, Copy, PartialEq, Eq)]
pub enum Piece {
    Atom,
    Low,
    High,
}

// How many places of a kind there were, counted to one beyond a limit, and the last that was counted. Of limit 0 it is the first place, if there is one: one type does for
// all three tallies.
#[derive(Clone, Copy)]
pub struct Tally {
    pub count: usize,
    pub place: usize,
}

impl Tally {
    // One place more.
    pub fn more(&mut self, limit: usize, place: usize)
        requires { limit ≤ position_limit }
        ensures { TallyMore limit self.old place self.new }
    {
        if self.count <= limit {
            self.count += 1;
            self.place = place;
        }
    }

    // The first place beyond the limit, if there are so many.
    pub fn beyond(self, limit: usize) -> Option<usize>
        ensures { TallyBeyond limit self result }
    {
        (limit < self.count).then_some(self.place)
    }
}

// The mode, as a stage of a piece, and the number of open parentheses. half: the first digit of a code on its way. least: the last byte of a class, a low
// end if a dash follows. from: the first byte of the atom on its way, or the dash of the range. Then three tallies: the falling ranges, the
// parentheses that open inside as many others as may be, and the positions.
#[derive(Clone, Copy)]
pub struct Reading {
    pub stage: Stage,
    pub piece: Piece,
    pub half: u8,
    pub least: u8,
    pub deep: usize,
    pub from: usize,
    pub falls: Tally,
    pub opens: Tally,
    pub firsts: Tally,
}

impl Reading {
    // Before the first byte.
    pub fn new() -> Reading
        ensures stage_value { (result.stage ≡ Stage.Await) × (result.piece ≡ Piece.Atom) × (result.deep ≡ 0) × (result.half ≡ 0) }
        ensures notes_kept { NotesKept blank result }
    {
        let none = Tally { count: 0, place: 0 };
        Reading {
            stage: Stage::Await,
            piece: Piece::Atom,
            half: 0,
            least: 0,
            deep: 0,
            from: 0,
            falls: none,
            opens: none,
            firsts: none,
        }
    }

    // The piece is read, and is the byte value.
    pub fn read_as(&mut self, value: u8)
        ensures read_as { ReadAs value self.old self.new }
        ensures bounded { Bounded self.old self.new }
        ensures deep_value { self.new.deep ≡ self.old.deep }
    {
        let from = self.from;
        self.stage = Stage::Done;
        match self.piece {
            Piece::Atom => self.firsts.more(Machine::POSITIONS, from),
            Piece::Low => self.least = value,
            Piece::High if value < self.least => self.falls.more(0, from),
            Piece::High => {}
        }
    }
}

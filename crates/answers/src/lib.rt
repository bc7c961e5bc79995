// What operations answer: their values and refusals as enums, with the numbers and values that contracts speak of.
#![tactic(auto)]

ghost use Rattle.std.specs.Prelude.{◌≡◌, ℕ};
ghost use Rattle.scope.specs.Answers.{DONE};
ghost use Rattle.answers.specs.Numbers.{refusal_number, compile_refusal_number, compile_refusal_place, matched_value_number, matched_value_place, compared_value_number, compared_value_length, compared_value_rounds, compared_rounds, of_fault, of_excess, result_number};

// Why an operation on rooms is refused: a buffer is too short, or a room or a form is not what it has to be.
#[derive(Clone, Copy, PartialEq, Eq)]
pub enum Refusal {
    Room,
    Form,
}

// What is wrong with a text, and where.
#[derive(Clone, Copy, PartialEq, Eq)]
pub enum Fault {
    Syntax(usize),
    Range(usize),
    Depth(usize),
    Positions(usize),
}

// What a machine has too many of.
#[derive(Clone, Copy, PartialEq, Eq)]
pub enum Excess {
    Classes,
    States,
}

// Why compiling is refused. It is flat, as `compiled_number` and `compiled_place` go over it; the refusals of the passes are joined to it by From.
#[derive(Clone, Copy, PartialEq, Eq)]
pub enum CompileRefusal {
    Room,
    Long,
    Syntax(usize),
    Range(usize),
    Depth(usize),
    Positions(usize),
    Classes,
    States,
}

impl From<Fault> for CompileRefusal {
    ghost from_gives = { λ f r. r ≡ of_fault f };

    // A fault of the text refuses it at its place.
    fn from(fault: Fault) -> CompileRefusal {
        match fault {
            Fault::Syntax(place) => CompileRefusal::Syntax(place),
            Fault::Range(place) => CompileRefusal::Range(place),
            Fault::Depth(place) => CompileRefusal::Depth(place),
            Fault::Positions(place) => CompileRefusal::Positions(place),
        }
    }
}

impl From<Excess> for CompileRefusal {
    ghost from_gives = { λ e r. r ≡ of_excess e };

    // Too many classes or states refuse the text whole.
    fn from(excess: Excess) -> CompileRefusal {
        match excess {
            Excess::Classes => CompileRefusal::Classes,
            Excess::States => CompileRefusal::States,
        }
    }
}

// How a text stands; Dead has its place.
#[derive(Clone, Copy, PartialEq, Eq)]
pub enum Matched {
    Accepted,
    Dead(usize),
    Unfinished,
}

// How two machines compare: Same has the rounds, Separated the length of the string and the rounds.
#[derive(Clone, Copy, PartialEq, Eq)]
pub enum Compared {
    Same(usize),
    Separated(usize, usize),
}

impl Compared {
    // The rounds.
    pub fn rounds(self) -> usize
        ensures { result ≡ compared_value_rounds self }
    {
        match self {
            Compared::Same(rounds) => rounds,
            Compared::Separated(_, rounds) => rounds,
        }
    }
}

// The rounds of what comparing answered, 0 for a refusal.
pub fn rounds_of(answer: Result<Compared, Refusal>) -> usize
    ensures { result ≡ compared_rounds answer }
{
    answer.map_or(0, |compared| compared.rounds())
}

// What is told of an answer in numbers: which it is, and the place or length that comes with it, 0 where none does. The C interface returns these numbers, which
// specs/Answers names.
pub trait Numbered {
    ghost number_of: { Self → ℕ };

    ghost value_of: { Self → ℕ };

    fn number(&self) -> u8
        ensures { result ≡ number_of self.now };

    fn value(&self) -> usize
        ensures { result ≡ value_of self.now };
}

// An operation that answers with nothing is done.
impl Numbered for () {
    ghost number_of = { λ _. DONE };

    ghost value_of = { λ _. 0 };

    fn number(&self) -> u8 {
        0
    }

    fn value(&self) -> usize {
        0
    }
}

// So is one that answers with a length.
impl Numbered for usize {
    ghost number_of = { λ _. DONE };

    ghost value_of = { λ n. n };

    fn number(&self) -> u8 {
        0
    }

    fn value(&self) -> usize {
        *self
    }
}

impl Numbered for Refusal {
    ghost number_of = { refusal_number };

    ghost value_of = { λ _. 0 };

    fn number(&self) -> u8 {
        match self {
            Refusal::Room => 1,
            Refusal::Form => 9,
        }
    }

    fn value(&self) -> usize {
        0
    }
}

impl Numbered for CompileRefusal {
    ghost number_of = { compile_refusal_number };

    ghost value_of = { compile_refusal_place };

    fn number(&self) -> u8 {
        match self {
            CompileRefusal::Room => 1,
            CompileRefusal::Long => 2,
            CompileRefusal::Syntax(_) => 3,
            CompileRefusal::Range(_) => 4,
            CompileRefusal::Depth(_) => 5,
            CompileRefusal::Positions(_) => 6,
            CompileRefusal::Classes => 7,
            CompileRefusal::States => 8,
        }
    }

    fn value(&self) -> usize {
        match *self {
            CompileRefusal::Syntax(place)
            | CompileRefusal::Range(place)
            | CompileRefusal::Depth(place)
            | CompileRefusal::Positions(place) => place,
            _ => 0,
        }
    }
}

impl Numbered for Matched {
    ghost number_of = { matched_value_number };

    ghost value_of = { matched_value_place };

    fn number(&self) -> u8 {
        match self {
            Matched::Accepted => 0,
            Matched::Dead(_) => 64,
            Matched::Unfinished => 65,
        }
    }

    fn value(&self) -> usize {
        match *self {
            Matched::Dead(place) => place,
            _ => 0,
        }
    }
}

impl Numbered for Compared {
    ghost number_of = { compared_value_number };

    ghost value_of = { compared_value_length };

    fn number(&self) -> u8 {
        match self {
            Compared::Same(_) => 0,
            Compared::Separated(_, _) => 66,
        }
    }

    fn value(&self) -> usize {
        match *self {
            Compared::Same(_) => 0,
            Compared::Separated(length, _) => length,
        }
    }
}

// A result tells what its value or its refusal tells.
impl<T: Numbered, E: Numbered> Numbered for Result<T, E> {
    ghost number_of = { result_number T.number_of E.number_of };

    ghost value_of = { result_number T.value_of E.value_of };

    fn number(&self) -> u8 {
        match self {
            Ok(value) => value.number(),
            Err(refusal) => refusal.number(),
        }
    }

    fn value(&self) -> usize {
        match self {
            Ok(value) => value.value(),
            Err(refusal) => refusal.value(),
        }
    }
}

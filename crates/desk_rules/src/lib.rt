// The rules of the entry desk: what is entered, what a key does to it and what it answers, the form that shows an entry, and the contracts of opening a form and of
// a key. They stand in `specs`, over those of `entry_form`; here are the refusals. That a form passes the test exactly if keys can give it is a theorem in `proofs`.
#![tactic(auto)]

ghost use Rattle.desk_rules.specs.DeskAnswers.{open_refusal_number, press_refusal_number};

use answers::Numbered;

// Why a form is not opened.
#[derive(Clone, Copy, PartialEq, Eq)]
pub enum OpenRefusal {
    Fields,
    Room,
    Form,
}

impl Numbered for OpenRefusal {
    ghost number_of = { open_refusal_number };

    ghost value_of = { λ _. 0 };

    fn number(&self) -> u8 {
        match self {
            OpenRefusal::Room => 1,
            OpenRefusal::Form => 9,
            OpenRefusal::Fields => 21,
        }
    }

    fn value(&self) -> usize {
        0
    }
}

// Why a key is refused.
#[derive(Clone, Copy, PartialEq, Eq)]
pub enum PressRefusal {
    Room,
    Form,
    DeadByte,
    Unfinished,
    Length,
    Closed,
}

impl Numbered for PressRefusal {
    ghost number_of = { press_refusal_number };

    ghost value_of = { λ _. 0 };

    fn number(&self) -> u8 {
        match self {
            PressRefusal::Room => 1,
            PressRefusal::Form => 9,
            PressRefusal::DeadByte => 10,
            PressRefusal::Unfinished => 11,
            PressRefusal::Length => 12,
            PressRefusal::Closed => 13,
        }
    }

    fn value(&self) -> usize {
        0
    }
}

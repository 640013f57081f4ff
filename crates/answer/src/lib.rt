// What every call gives back: a number and a place (01, "Numbers given back").
#![tactic(auto)]

ghost use Rattle.std.specs.Prelude.{◌≡◌, true, ◌↔◌, ◌<◌};
ghost use Rattle.answer.specs.Answers.{Is, Granted, packed};

// The numbers of 01's table by name. They are numbers and no enum: C and the readers of formats take and pass them on as numbers.
pub const DONE: u8 = 0;

pub const MARK_WRONG: u8 = 1;

pub const VERSION_WRONG: u8 = 2;

pub const ENDS_EARLY: u8 = 3;

pub const COUNT_WRONG: u8 = 4;

pub const PARENT_WRONG: u8 = 5;

pub const EXPRESSION_WRONG: u8 = 6;

pub const LEFT_OVER: u8 = 7;

pub const NO_SLOT: u8 = 8;

pub const SLOT_FREE: u8 = 9;

pub const SLOT_TAKEN: u8 = 10;

pub const NO_ROLE: u8 = 11;

pub const NO_FILE: u8 = 12;

pub const NO_MODE: u8 = 13;

pub const ROW_NOT_PASSED: u8 = 14;

pub const MEDIATING_UNFIT: u8 = 15;

pub const BYPASS_LACKS: u8 = 16;

pub const ILL_FORMED: u8 = 17;

pub const TEXT_WRONG: u8 = 18;

pub const TEXT_LONG: u8 = 19;

pub const BUFFER_SHORT: u8 = 20;

#[derive(Clone, Copy, PartialEq, Eq, Debug)]
pub struct Answer {
    pub number: u8,
    pub place: usize,
}

impl Answer {
    // The answer with this number and place.
    pub fn at(number: u8, place: usize) -> Answer
        ensures { Is result number place }
    {
        Answer { number, place }
    }

    // The answer with this number, and place 0.
    pub fn of(number: u8) -> Answer
        ensures { Is result number 0 }
    {
        Answer { number, place: 0 }
    }

    // Whether the call was granted: only number 0 says so.
    pub fn granted(self) -> bool
        ensures { (result ≡ true) ↔ Granted self }
    {
        self.number == DONE
    }

    // How many bytes a call made or gave out that names their count by a grant's place: a refusal none.
    pub fn given(self) -> usize
        ensures grant { Granted self → result ≡ self.place }
        ensures refusal { (Granted self → ⊥) → result ≡ 0 }
    {
        if self.granted() { self.place } else { 0 }
    }

    // The answer as one number: its number, and 256 times its place.
    pub fn packed(self) -> u32
        requires { self.place < 65536 }
        ensures { result ≡ packed self }
    {
        u32::from(self.number) + 256 * (self.place as u32)
    }
}

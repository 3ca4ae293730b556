// Why a kind refuses a call.
ghost use Rattle.std.specs.Prelude.{◌≡◌, Some};
ghost use Rattle.kinds.specs.Faults.{fault_number, fault_place, fault_text, fault_words};

use std::error::Error;
use std::fmt;

// Each case holds a place: the one asked, or the one whose part of the history doesn't fit.
#[derive(Clone, Copy, PartialEq, Eq, Debug)]
pub enum KindFault {
    UnknownChange(u32),
    DoesNotFit(u32),
    UnknownQuestion(u32),
}

impl KindFault {
    // The number by which logs and scripts call the fault.
    pub fn number(self) -> u8
        ensures { result ≡ fault_number self }
    {
        match self {
            KindFault::UnknownChange(_) => 21,
            KindFault::DoesNotFit(_) => 22,
            KindFault::UnknownQuestion(_) => 23,
        }
    }

    pub fn place(self) -> u32
        ensures { result ≡ fault_place self }
    {
        match self {
            KindFault::UnknownChange(place)
            | KindFault::DoesNotFit(place)
            | KindFault::UnknownQuestion(place) => place,
        }
    }

    // What is wrong, in words.
    pub fn words(self) -> &'static str
        ensures { result.now ≡ fault_words self }
    {
        match self {
            KindFault::UnknownChange(_) => "the kind knows no such change",
            KindFault::DoesNotFit(_) => "the history does not fit",
            KindFault::UnknownQuestion(_) => "the kind knows no such question",
        }
    }
}

// As in '21 at place 4: the kind knows no such change'.
impl fmt::Display for KindFault {
    ghost output = { λ fault. Some (fault_text fault) };

    fn fmt<W: fmt::Write>(&self, f: &mut fmt::Formatter<W>) -> fmt::Result {
        let number = self.number();
        let place = self.place();
        let words = self.words();
        write!(f, "{number} at place {place}: {words}")
    }
}

impl Error for KindFault {}

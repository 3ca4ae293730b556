// What is asked of a value: changes and questions, each three numbers, and the stamp of a change.
ghost use Rattle.std.specs.Prelude.{◌≡◌};
ghost use Rattle.kinds.specs.Pair.{halved, halved_question};

#[derive(Clone, Copy, PartialEq, Eq, Debug)]
pub struct Change {
    pub place: u32,
    pub verb: u8,
    pub argument: i32,
}

#[derive(Clone, Copy, PartialEq, Eq, Debug)]
pub struct Question {
    pub place: u32,
    pub verb: u8,
    pub argument: i32,
}

// A change and a question are two types, so that neither is taken for the other: `halved` stands twice, since a trait with a law for a
// function of one line would be no plainer.
impl Change {
    // The change as a pair's part gets it.
    pub(crate) fn halved(self) -> Change
        ensures { result ≡ halved self }
    {
        Change {
            place: self.place / 2,
            ..self
        }
    }
}

impl Question {
    // The question as a pair's part gets it.
    pub(crate) fn halved(self) -> Question
        ensures { result ≡ halved_question self }
    {
        Question {
            place: self.place / 2,
            ..self
        }
    }
}

// Which event a change is: its number, and the branch that makes it.
#[derive(Clone, Copy, PartialEq, Eq, Debug)]
pub struct Stamp {
    pub event: u16,
    pub branch: u8,
}

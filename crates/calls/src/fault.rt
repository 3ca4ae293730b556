// Why a store refuses a call.
ghost use Rattle.std.specs.Prelude.{◌≡◌, Some};
ghost use Rattle.calls.specs.declared.fault.StoreFault.TheVariants.{OfKind};
ghost use Rattle.calls.specs.Faults.{held_by, number_of, subject_of, text_of, words_of};

use kinds::KindFault;
use std::error::Error;
use std::fmt;

// A case holds the version or the branch that was asked about, or the kind's fault.
#[derive(Clone, Copy, PartialEq, Eq, Debug)]
pub enum StoreFault {
    NoVersion,
    NotStored(u32),
    BranchesFull,
    NoBranch(u8),
    // the source of a merge
    NoSource(u8),
    // the branch of a change, or the destination of a merge
    VersionsFull(u8),
    // the destination of a merge
    NoBase(u8),
    OfKind(KindFault),
}

impl From<KindFault> for StoreFault {
    ghost from_gives = { λ e r. r ≡ OfKind e };

    fn from(e: KindFault) -> StoreFault {
        StoreFault::OfKind(e)
    }
}

impl StoreFault {
    // The number by which logs, scripts and files call the fault.
    pub fn number(self) -> u8
        ensures { result ≡ number_of self }
    {
        match self {
            StoreFault::NoVersion => 1,
            StoreFault::NotStored(_) => 2,
            StoreFault::BranchesFull => 3,
            StoreFault::NoBranch(_) => 4,
            StoreFault::NoSource(_) => 5,
            StoreFault::VersionsFull(_) => 6,
            StoreFault::NoBase(_) => 7,
            StoreFault::OfKind(fault) => fault.number(),
        }
    }

    // The version or branch that was asked about, 0 if there is none, or the place that a kind's fault holds.
    pub fn holds(self) -> u32
        ensures { result ≡ held_by self }
    {
        match self {
            StoreFault::NoVersion | StoreFault::BranchesFull => 0,
            StoreFault::NotStored(version) => version,
            StoreFault::NoBranch(branch)
            | StoreFault::NoSource(branch)
            | StoreFault::VersionsFull(branch)
            | StoreFault::NoBase(branch) => u32::from(branch),
            StoreFault::OfKind(fault) => fault.place(),
        }
    }

    // What it is that `holds` answers.
    pub fn subject(self) -> &'static str
        ensures { result.now ≡ subject_of self }
    {
        match self {
            StoreFault::NoVersion | StoreFault::NotStored(_) => "version",
            StoreFault::BranchesFull
            | StoreFault::NoBranch(_)
            | StoreFault::NoSource(_)
            | StoreFault::VersionsFull(_)
            | StoreFault::NoBase(_) => "branch",
            StoreFault::OfKind(_) => "place",
        }
    }

    // What is wrong, in words.
    pub fn words(self) -> &'static str
        ensures { result.now ≡ words_of self }
    {
        match self {
            StoreFault::NoVersion => "the store has no version 0",
            StoreFault::NotStored(_) => "no such version is stored",
            StoreFault::BranchesFull => "there are 16 branches already",
            StoreFault::NoBranch(_) => "there is no such branch",
            StoreFault::NoSource(_) => "there is no such branch to merge from",
            StoreFault::VersionsFull(_) => "there is no room for a version more",
            StoreFault::NoBase(_) => "no stored version has seen just what both branches have seen",
            StoreFault::OfKind(fault) => fault.words(),
        }
    }
}

// As in '4 at branch 9: there is no such branch'.
impl fmt::Display for StoreFault {
    ghost output = { λ fault. Some (text_of fault) };

    fn fmt<W: fmt::Write>(&self, f: &mut fmt::Formatter<W>) -> fmt::Result {
        let number = self.number();
        let subject = self.subject();
        let holds = self.holds();
        let words = self.words();
        write!(f, "{number} at {subject} {holds}: {words}")
    }
}

impl Error for StoreFault {}

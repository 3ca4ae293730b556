// What is done and asked, and what comes of it, in words.
use std::alloc::{AllocError, Global};
use std::fmt;
use worklists::{Operation, Query};

// As in 'marks object 7'.
#[derive(Clone, Copy)]
pub(crate) struct Done(pub Operation);

impl fmt::Display for Done {
    fn fmt<W: fmt::Write>(&self, f: &mut fmt::Formatter<W>) -> fmt::Result {
        match self.0 {
            Operation::Mark(object) => write!(f, "marks object {object}"),
            Operation::Clear(object) => write!(f, "clears object {object}"),
            Operation::Rebuild(amount) => write!(f, "counts {amount} as rebuilt"),
            Operation::Put(object) => write!(f, "puts object {object} into the queue"),
            Operation::Take => write!(f, "takes from the queue"),
            Operation::Skip(amount) => write!(f, "counts {amount} as skipped"),
        }
    }
}

// The reply to an operation, as in 'it was stale'.
#[derive(Clone, Copy)]
pub(crate) struct Replied(pub Operation, pub i64);

impl fmt::Display for Replied {
    fn fmt<W: fmt::Write>(&self, f: &mut fmt::Formatter<W>) -> fmt::Result {
        let reply = self.1;
        match self.0 {
            Operation::Mark(_) | Operation::Clear(_) if reply == 1 => write!(f, "it was stale"),
            Operation::Mark(_) | Operation::Clear(_) => write!(f, "it was not stale"),
            Operation::Rebuild(_) | Operation::Skip(_) => write!(f, "{reply} in all"),
            Operation::Put(_) if reply == 1 => write!(f, "1 waits"),
            Operation::Put(_) => write!(f, "{reply} wait"),
            Operation::Take if reply < 0 => write!(f, "nothing waits"),
            Operation::Take => write!(f, "object {reply}"),
        }
    }
}

// As in 'is asked whether object 7 is stale'.
#[derive(Clone, Copy)]
pub(crate) struct Asked(pub Query);

impl fmt::Display for Asked {
    fn fmt<W: fmt::Write>(&self, f: &mut fmt::Formatter<W>) -> fmt::Result {
        match self.0 {
            Query::IsStale(object) => write!(f, "is asked whether object {object} is stale"),
            Query::Rebuilds => write!(f, "is asked how many were rebuilt"),
            Query::FirstWaiting => write!(f, "is asked which object waits first"),
            Query::Waiting => write!(f, "is asked how many wait"),
            Query::Skips => write!(f, "is asked how many were skipped"),
        }
    }
}

// The answer to a query, as in 'yes'.
#[derive(Clone, Copy)]
pub(crate) struct Answered(pub Query, pub i64);

impl fmt::Display for Answered {
    fn fmt<W: fmt::Write>(&self, f: &mut fmt::Formatter<W>) -> fmt::Result {
        let answer = self.1;
        match self.0 {
            Query::IsStale(_) if answer == 1 => write!(f, "yes"),
            Query::IsStale(_) => write!(f, "no"),
            Query::FirstWaiting if answer < 0 => write!(f, "none"),
            Query::FirstWaiting => write!(f, "object {answer}"),
            Query::Rebuilds | Query::Waiting | Query::Skips => write!(f, "{answer}"),
        }
    }
}

// Numbers as in '7, 12', or 'none'.
pub(crate) fn listed(alloc: Global, numbers: &[u16]) -> Result<String, AllocError> {
    let Some((first, others)) = numbers.split_first() else {
        return String::from_str(alloc, "none");
    };
    let mut text = first.to_string(alloc)?;
    for number in others {
        write!(text, ", {number}")?;
    }
    Ok(text)
}

// Rising event numbers as in '1-4, 8-10', or 'nothing'.
pub(crate) fn ranges(alloc: Global, events: &[u16]) -> Result<String, AllocError> {
    if events.is_empty() {
        return String::from_str(alloc, "nothing");
    }
    let mut text = String::new(alloc);
    for run in events.chunk_by(|a, b| a.checked_add(1) == Some(*b)) {
        if !text.is_empty() {
            text.push_str(", ")?;
        }
        match run {
            [] => {}
            [only] => write!(text, "{only}")?,
            [first, .., last] => write!(text, "{first}-{last}")?,
        }
    }
    Ok(text)
}

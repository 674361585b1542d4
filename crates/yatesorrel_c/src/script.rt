// The calls of a script, and the replies to them, in plain numbers.
ghost use Rattle.std.specs.Prelude.{◌≡◌};
ghost use Rattle.std.specs.List.{list_all};
ghost use Rattle.yatesorrel_c.specs.Script.{call_in, known, refusal_reply, attempt_reply, count_reply, record_reply, reply_in};

use crate::attempt::PlainAttempt;
use crate::questions::NO_RECORD;
use crate::told::PlainTold;
use claims::call::Call;
use claims::reply::{Attempt, Reply};
use isa::refusal::Refusal;
use machine::state::Record;

const STEP: u32 = 0;

const CUT: u32 = 1;

const CHARGES: u32 = 2;

const SAVES: u32 = 3;

const CUTS: u32 = 4;

const ATTEMPTS: u32 = 5;

const RECORD: u32 = 6;

// A call of a kind; the index is that of a record.
#[repr(C)]
#[derive(Clone, Copy)]
pub struct PlainCall {
    pub kind: u32,
    pub index: usize,
}

// The reply to a call: what it did not ask for is 0.
#[repr(C)]
#[derive(Clone, Copy)]
pub struct PlainReply {
    pub refusal: PlainTold,
    pub said_yes: u8,
    pub ending: u8,
    pub count: u64,
    pub kept: Record,
}

impl PlainCall {
    fn is_known(&self) -> bool
        ensures { result ≡ known self.now }
    {
        self.kind <= RECORD
    }

    // The call of this kind; one of no kind is read as one for a record.
    pub(crate) fn call(&self) -> Call
        ensures { result ≡ call_in self.now }
    {
        match self.kind {
            STEP => Call::Step,
            CUT => Call::Cut,
            CHARGES => Call::Charges,
            SAVES => Call::Saves,
            CUTS => Call::Cuts,
            ATTEMPTS => Call::Attempts,
            _ => Call::Record(self.index),
        }
    }
}

// Whether every call of a script is of some kind.
pub(crate) fn all_known(calls: &[PlainCall]) -> bool
    ensures { result ≡ list_all known calls.now }
{
    calls.iter().all(|call| call.is_known())
}

impl PlainReply {
    fn of_refusal(refusal: Option<Refusal>) -> PlainReply
        ensures { result ≡ refusal_reply refusal }
    {
        PlainReply {
            refusal: PlainTold::of(refusal),
            said_yes: 0,
            ending: 0,
            count: 0,
            kept: NO_RECORD,
        }
    }

    fn of_attempt(attempt: Result<Attempt, Refusal>) -> PlainReply
        ensures { result ≡ attempt_reply attempt }
    {
        let attempt = PlainAttempt::of(attempt);
        PlainReply {
            refusal: attempt.refusal,
            said_yes: attempt.said_yes,
            ending: attempt.ending,
            count: 0,
            kept: NO_RECORD,
        }
    }

    fn of_count(count: u64) -> PlainReply
        ensures { result ≡ count_reply count }
    {
        PlainReply {
            refusal: PlainTold::of(None),
            said_yes: 0,
            ending: 0,
            count,
            kept: NO_RECORD,
        }
    }

    fn of_record(found: Result<Record, Refusal>) -> PlainReply
        ensures { result ≡ record_reply found }
    {
        PlainReply {
            refusal: PlainTold::of(found.err()),
            said_yes: 0,
            ending: 0,
            count: 0,
            kept: found.unwrap_or(NO_RECORD),
        }
    }

    pub(crate) fn of(reply: Reply) -> PlainReply
        ensures { result ≡ reply_in reply }
    {
        let told = match reply {
            Reply::Step(attempt) => PlainReply::of_attempt(attempt),
            Reply::Cut(answer) => PlainReply::of_refusal(answer.err()),
            Reply::Count(count) => PlainReply::of_count(count),
            Reply::Record(found) => PlainReply::of_record(found),
        };
        // Made anew of its numbers: a reply that is copied takes the gaps between
        // them along, and the next copy waits for that.
        let Record { sensor, value } = told.kept;
        PlainReply {
            refusal: told.refusal,
            said_yes: told.said_yes,
            ending: told.ending,
            count: told.count,
            kept: Record { sensor, value },
        }
    }
}

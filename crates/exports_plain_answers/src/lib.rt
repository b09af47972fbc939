// Answers of a queue tree as plain numbers, since an exported function cannot return an enum.
#![tactic(auto)]

ghost use Rattle.std.specs.Prelude.{◌≡◌};
ghost use Rattle.pifo_model.specs.Machine.{number_of};
ghost use Rattle.queue_state.specs.Calls.{answer_of};
ghost use Rattle.exports_plain_answers.specs.Answers.{reply_of, value_of, plain_amount};

use queue_state::{Answer, Packet};
use refusal::Refusal;

// The answer to a question for a count: 0 and the count, or a refusal's number and 0.
#[repr(C)]
#[derive(Clone, Copy)]
pub struct PlainAmount {
    pub refusal: u8,
    pub value: u32,
}

impl From<Result<u32, Refusal>> for PlainAmount {
    ghost from_gives = { λ amount plain. plain ≡ plain_amount amount };

    fn from(amount: Result<u32, Refusal>) -> PlainAmount {
        match amount {
            Ok(value) => PlainAmount { refusal: 0, value },
            Err(refusal) => PlainAmount {
                refusal: refusal.into(),
                value: 0,
            },
        }
    }
}

// The answer to a call with a number in place of the refusal. It may be any number, so that the two functions below ask nothing of their callers.
#[derive(Clone, Copy)]
pub enum PlainReply {
    Accepted(u32),
    Departed(Packet),
    Refused(u8),
    Full(u8, u32),
}

impl From<Answer> for PlainReply {
    ghost from_gives = { λ answer reply. reply_of reply ≡ answer_of answer };

    fn from(answer: Answer) -> PlainReply {
        match answer {
            Answer::Accepted(held) => PlainReply::Accepted(held),
            Answer::Departed(packet) => PlainReply::Departed(packet),
            Answer::Refused(refusal) => PlainReply::Refused(refusal.into()),
            Answer::Full(refusal, count) => PlainReply::Full(refusal.into(), count),
        }
    }
}

// The refusal's number of an answer, or 0.
pub fn answer_refusal(reply: PlainReply) -> u8
    ensures { result ≡ number_of (reply_of reply) }
{
    match reply {
        PlainReply::Accepted(_) | PlainReply::Departed(_) => 0,
        PlainReply::Refused(number) | PlainReply::Full(number, _) => number,
    }
}

// The value of an answer: the packets held after a push, the packet that departs, or the new count of refusals for a push without room; else 0.
pub fn answer_value(reply: PlainReply) -> u32
    ensures { result ≡ value_of (reply_of reply) }
{
    match reply {
        PlainReply::Accepted(value) | PlainReply::Departed(value) | PlainReply::Full(_, value) =>
            value,
        PlainReply::Refused(_) => 0,
    }
}

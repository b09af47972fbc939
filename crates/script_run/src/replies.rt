// Replies to calls: from the answer of the chip's side to a line of text.
ghost use Rattle.std.specs.Prelude.{◌≡◌};
ghost use Rattle.queue_state.specs.Calls.{answer_of};
ghost use Rattle.text.specs.Appending.{Appends};
ghost use Rattle.script_run.specs.Output.{line_of};
ghost use Rattle.script_run.specs.Execute.{replied, stops as execute_stops};

use queue_state::Answer;
use refusal::Refusal;
use script_lines::{put_in, put_no, put_out};
use text::Text;

// Whether a script stops after an answer: it goes on after the refusals 13 to 16, which are the four named here.
pub(crate) fn stops(answer: Answer) -> bool
    ensures { result ≡ execute_stops (replied (answer_of answer)) }
{
    match answer {
        Answer::Accepted(_) | Answer::Departed(_) => false,
        Answer::Refused(refusal) | Answer::Full(refusal, _) => !matches!(
            refusal,
            Refusal::NoSuchChild | Refusal::EndsAboveLeaf | Refusal::Full | Refusal::Empty,
        ),
    }
}

// The line of an answer to the command at an offset.
pub(crate) fn put_reply(text: &mut Text<'_>, answer: Answer, offset: usize)
    ensures { Appends text.old (line_of (replied (answer_of answer)) offset) text.new }
{
    match answer {
        Answer::Accepted(held) => put_in(text, held),
        Answer::Departed(packet) => put_out(text, packet),
        Answer::Refused(refusal) | Answer::Full(refusal, _) => {
            put_no(text, refusal.into(), offset);
        }
    }
}

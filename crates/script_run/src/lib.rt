// Scripts for gatewalk: the text that a whole script prints.
//
// After 04 each call goes to both trees, as in demand 3: a push is made along the path as drawn on the source's tree, and along the path carried over
// on the chip's tree. The text has the answers of the chip's side.
#![tactic(auto)]

mod replies;

ghost use Rattle.std.specs.Prelude.{◌≡◌, None, OnSome};
ghost use Rattle.refusal.specs.Numbers.{number};
ghost use Rattle.text.specs.Text.{Puts};
ghost use Rattle.text.specs.Appending.{Appends};
ghost use Rattle.script_lines.specs.Lines.{no_line};
ghost use Rattle.queue_push.specs.Calls.{path_of};
ghost use Rattle.script_run.specs.Output.{output};
ghost use Rattle.script_run.specs.InnerParts.{opening_text, start_text, batch_text, limit_in, Ready, Comes};
ghost use Rattle.script_commands.specs.InnerBatches.{AllCommands};

use pair_state::Pair;
use queue_push::Path;
use queue_state::{Answer, State};
use refusal::Refusal;
use replies::{put_reply, stops};
use script_commands::{Call, Command, Read, reader_at};
use script_lines::{put_map, put_no};
use script_setup::{Drawing, Ending, Gathered, gather};
use text::Text;

// How many steps may be gathered for a push.
const MOST_STEPS: usize = 8;

// The stage of a script after 04 that goes on: the drawings, both trees with the map, and the steps gathered for the next push.
#[derive(Drop)]
struct Session {
    drawing: Drawing,
    pair: Pair<State>,
    path: Path,
}

// Runs a script: its text is put into `out`, as far as there is room, and the answer is where it ends there. One reader reads the script from its
// first command to its last; after 04 it reads in batches, because `serve` takes and returns both trees by value.
pub fn run(script: &[u8], out: &mut [u8]) -> usize
    ensures { Puts out.old 0 (output script.now) out.new result }
{
    let mut text = Text::new(out);
    let mut reader = reader_at(script, 0);
    let gathered = gather(&mut reader);
    let Some(mut session) = start(&mut text, gathered) else {
        return text.place();
    };
    while let Some(next) = serve(session, &mut text, reader.next_batch()) {
        session = next;
    }
    text.place()
}

// The stage after the setup and 04, or none if the script stops there.
fn start(text: &mut Text<'_>, gathered: Gathered) -> Option<Session>
    ensures { Comes (start_text gathered) text.old result text.new }
{
    match gathered.ending {
        Ending::End => None,
        Ending::Refused(refusal, at) => refuse(text, refusal, at),
        Ending::Compile(at) => compile(text, gathered.drawing, at),
    }
}

// 04 at an offset: opens both trees and prints the map, or prints its refusal. The limit is given, since the 04 is in turn (`limited` in
// script_setup/proofs/WithLimit).
#[tactic(auto, using(pair_state::proofs::Truncated::both_few))]
fn compile(text: &mut Text<'_>, drawing: Drawing, at: usize) -> Option<Session>
    ensures { Comes (opening_text drawing.source.items drawing.target.items (limit_in drawing) at) text.old result text.new }
{
    let source = drawing.source.as_slice();
    let limit = drawing.limit.unwrap_or(0);
    // The cast loses nothing, and a `try_from` would give a Result that is never an error.
    match pair_state::open(source, drawing.target.as_slice(), limit as usize) {
        Err(refusal) => refuse(text, refusal, at),
        Ok(pair) => {
            put_map(text, &pair.map[..source.len()]);
            Some(Session {
                drawing,
                pair,
                path: Path::new(0),
            })
        }
    }
}

// The line of a refusal that stops the script.
fn refuse(text: &mut Text<'_>, refusal: Refusal, at: usize) -> Option<Session>
    ensures line { Appends text.old (no_line (number refusal) at) text.new }
    ensures stops { result ≡ None }
{
    put_no(text, refusal.into(), at);
    None
}

// Serves a batch of reads after 04, or as many as come before the script stops.
fn serve(session: Session, text: &mut Text<'_>, batch: [Read; 256]) -> Option<Session>
    requires { Ready session }
    ensures comes { Comes (batch_text batch session) text.old result text.new }
    ensures commands { OnSome result (AllCommands batch) }
{
    let Session {
        drawing,
        pair,
        mut path,
    } = session;
    let Pair {
        mut source,
        mut chip,
        map,
    } = pair;
    let source_tree = drawing.source.as_slice();
    let chip_tree = drawing.target.as_slice();
    let images = &map[..source_tree.len()];
    for &read in &batch {
        match read {
            Read::Next(Command::Call(call), at) => match call {
                Call::Step(child, rank) => {
                    if MOST_STEPS <= path.count {
                        return refuse(text, Refusal::OutOfTurn, at);
                    }
                    path = queue_push::extended(path, child, rank);
                }
                Call::Push(packet, leaf_rank) => {
                    let whole = Path { leaf_rank, ..path };
                    path = Path::new(0);
                    source = queue_push::push(source, whole, packet).state;
                    let answer = match translator::carry(source_tree, chip_tree, images, whole) {
                        Err(refusal) => Answer::Refused(refusal),
                        Ok(carried) => {
                            let sent = queue_push::push(chip, carried, packet);
                            chip = sent.state;
                            sent.answer
                        }
                    };
                    put_reply(text, answer, at);
                    if stops(answer) {
                        return None;
                    }
                }
                Call::Pop => {
                    let drawn = queue_pop::pop(source);
                    let taken = queue_pop::pop(chip);
                    source = drawn.served.state;
                    chip = taken.served.state;
                    put_reply(text, taken.served.answer, at);
                    if stops(taken.served.answer) {
                        return None;
                    }
                }
            },
            Read::Next(_, at) => return refuse(text, Refusal::OutOfTurn, at),
            Read::Refused(refusal, at) => return refuse(text, refusal, at),
            Read::End => return None,
        }
    }
    Some(Session {
        drawing,
        pair: Pair { source, chip, map },
        path,
    })
}

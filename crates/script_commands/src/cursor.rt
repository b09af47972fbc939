// What is read at an offset of a script, and where the next command begins.
ghost use Rattle.std.specs.Prelude.{◌≡◌};
ghost use Rattle.script_commands.specs.Reading.{size_by, read_at, next_at};
ghost use Rattle.script_commands.specs.Batches.{first_reads, after};

use super::Read;
use super::operands::command_by;

// How many bytes a command has, by its first byte; 0 if no command begins with it. An Option would be no plainer: `read_at`, which alone asks, has
// found a command by then. The numbers are those of the table in paper 01, "Scripts for gatewalk".
fn size_by(code: u8) -> usize
    ensures { result ≡ size_by code }
{
    match code {
        1 => 2,
        2 => 2,
        3 => 3,
        4 => 1,
        5 => 6,
        6 => 9,
        7 => 1,
        9 => 10,
        10 => 13,
        _ => 0,
    }
}

// What is read at an offset, and the offset of the next command.
#[tactic(auto, unfolding(crate::specs::Reading::read_at, crate::specs::Reading::next_at))]
pub(crate) fn read_at(script: &[u8], at: usize) -> (Read, usize)
    ensures read { result.0 ≡ read_at script.now at }
    ensures next { result.1 ≡ next_at script.now at }
{
    let Some(&code) = script.get(at) else {
        return (Read::End, at);
    };
    let read = command_by(code, &script[at..], at);
    match read {
        Read::Next(_, _) => (read, at + size_by(code)),
        Read::End | Read::Refused(_, _) => (read, at),
    }
}

// What is read in 256 reads, and the offset of the next command.
pub(crate) fn batch_at(script: &[u8], at: usize) -> ([Read; 256], usize)
    ensures reads { result.0 ≡ first_reads 256 script.now at }
    ensures next { result.1 ≡ after 256 script.now at }
{
    let mut reads = [Read::End; 256];
    let mut next = at;
    for read in reads.iter_mut() {
        (*read, next) = read_at(script, next);
    }
    (reads, next)
}

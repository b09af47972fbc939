// A command by its first byte, and its operands.
ghost use Rattle.std.specs.Prelude.{◌≡◌, ◌<◌, length};
ghost use Rattle.script_commands.specs.Reading.{command_by};
ghost use Rattle.script_commands.specs.InnerOperands.{operand_bytes};

use super::{Call, Command, Read, Setup};
use refusal::Refusal;

// The N bytes of the operand at a place of a command's bytes, or none if the script ends within them.
fn operand<const N: usize>(bytes: &[u8], place: usize) -> Option<[u8; N]>
    ensures { result ≡ operand_bytes place N bytes.now }
{
    bytes.get(place..)?.first_chunk().copied()
}

// The command whose first byte is `code`, if `bytes` is the script from its offset on. Paper 01 asks that each operand read be taken apart by let-else
// whose else side returns refusal 21 and the offset; so there is no `?` here. The numbers of the commands are those of the paper's table.
#[tactic(auto, unfolding(crate::specs::Reading::command_by, crate::specs::Reading::sized, crate::specs::Reading::operand))]
pub(crate) fn command_by(code: u8, bytes: &[u8], at: usize) -> Read
    requires { 0 < length bytes.now }
    ensures { result ≡ command_by code bytes.now at }
{
    match code {
        1 => {
            let Some(&children) = bytes.get(1) else {
                return Read::Refused(Refusal::CutShort, at);
            };
            Read::Next(Command::Setup(Setup::Source(children)), at)
        }
        2 => {
            let Some(&children) = bytes.get(1) else {
                return Read::Refused(Refusal::CutShort, at);
            };
            Read::Next(Command::Setup(Setup::Target(children)), at)
        }
        3 => {
            let Some(limit) = operand(bytes, 1).map(u16::from_be_bytes) else {
                return Read::Refused(Refusal::CutShort, at);
            };
            Read::Next(Command::Setup(Setup::Limit(limit.into())), at)
        }
        4 => Read::Next(Command::Compile, at),
        5 => {
            let Some(&child) = bytes.get(1) else {
                return Read::Refused(Refusal::CutShort, at);
            };
            let Some(rank) = operand(bytes, 2).map(u32::from_be_bytes) else {
                return Read::Refused(Refusal::CutShort, at);
            };
            Read::Next(Command::Call(Call::Step(child, rank.into())), at)
        }
        6 => {
            let Some(packet) = operand(bytes, 1).map(u32::from_be_bytes) else {
                return Read::Refused(Refusal::CutShort, at);
            };
            let Some(leaf_rank) = operand(bytes, 5).map(u32::from_be_bytes) else {
                return Read::Refused(Refusal::CutShort, at);
            };
            Read::Next(Command::Call(Call::Push(packet, leaf_rank.into())), at)
        }
        7 => Read::Next(Command::Call(Call::Pop), at),
        9 => {
            let Some(&child) = bytes.get(1) else {
                return Read::Refused(Refusal::CutShort, at);
            };
            let Some(rank) = operand(bytes, 2).map(u64::from_be_bytes) else {
                return Read::Refused(Refusal::CutShort, at);
            };
            Read::Next(Command::Call(Call::Step(child, rank)), at)
        }
        10 => {
            let Some(packet) = operand(bytes, 1).map(u32::from_be_bytes) else {
                return Read::Refused(Refusal::CutShort, at);
            };
            let Some(leaf_rank) = operand(bytes, 5).map(u64::from_be_bytes) else {
                return Read::Refused(Refusal::CutShort, at);
            };
            Read::Next(Command::Call(Call::Push(packet, leaf_rank)), at)
        }
        _ => Read::Refused(Refusal::UnknownCommand, at),
    }
}

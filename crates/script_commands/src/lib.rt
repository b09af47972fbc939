// The reader of a script's commands.
#![tactic(auto)]

mod cursor;
mod operands;

ghost use Rattle.std.specs.Prelude.{◌≡◌};
ghost use Rattle.script_commands.specs.Reading.{read_at, next_at};
ghost use Rattle.script_commands.specs.Batches.{first_reads, after};

use refusal::Refusal;

// A command of the setup, before 04.
#[derive(Clone, Copy)]
pub enum Setup {
    // a node of the source, and of the target: its number of children
    Source(u8),
    Target(u8),
    // the packet limit
    Limit(u32),
}

// A command after 04.
#[derive(Clone, Copy)]
pub enum Call {
    // a step's child and rank, by 05 or 09
    Step(u8, u64),
    // a push's packet and leaf rank, by 06 or 0A
    Push(u32, u64),
    Pop,
}

// A command with its operands.
#[derive(Clone, Copy)]
pub enum Command {
    Setup(Setup),
    Compile,
    Call(Call),
}

// What a reader reads: the end of the script; a command and its offset; or a refusal and its command's offset. An Option of a Result would be no
// plainer: each place that makes or matches a read would have more brackets, as in `Some(Ok((command, at)))`, and no name for the end.
#[derive(Clone, Copy)]
pub enum Read {
    End,
    Next(Command, usize),
    Refused(Refusal, usize),
}

// The script reader: the script, and the offset of its next command. Paper 01 names this form: a struct with the slice and a number, and few thin
// functions over a cursor. The functions of `cursor`, over the slice and the number, do the work.
#[derive(Clone, Copy)]
pub struct Reader<'a> {
    pub script: &'a [u8],
    pub at: usize,
}

// A reader whose next command is at an offset.
pub fn reader_at<'a>(script: &'a [u8], at: usize) -> Reader<'a>
    ensures script { result.script ≡ script.entry }
    ensures at { result.at ≡ at }
{
    Reader { script, at }
}

impl<'a> Reader<'a> {
    // The next command. The reader moves past it, or stays if there is none.
    pub fn next(&mut self) -> Read
        ensures read { result ≡ read_at self.old.script.now self.old.at }
        ensures script { self.new.script ≡ self.old.script }
        ensures at { self.new.at ≡ next_at self.old.script.now self.old.at }
    {
        let (read, next) = cursor::read_at(self.script, self.at);
        self.at = next;
        read
    }

    // The next 256 reads at once, so that a caller passes its own large values by value once for all of these.
    pub fn next_batch(&mut self) -> [Read; 256]
        ensures reads { result ≡ first_reads 256 self.old.script.now self.old.at }
        ensures script { self.new.script ≡ self.old.script }
        ensures at { self.new.at ≡ after 256 self.old.script.now self.old.at }
    {
        let (reads, next) = cursor::batch_at(self.script, self.at);
        self.at = next;
        reads
    }
}

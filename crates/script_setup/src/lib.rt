// The setup of a script, its commands before 04: the two drawings and the limit.
#![tactic(auto)]

ghost use Rattle.std.specs.Prelude.{◌≡◌, [], None};
ghost use Rattle.script_commands.specs.Reading.{reads};
ghost use Rattle.script_setup.specs.Gathering.{gather_reads, gathered, Gathers};
ghost use Rattle.script_setup.specs.InnerTurns.{Takes};

use byte_list::ByteList;
use refusal::Refusal;
use script_commands::{Command, Read, Reader, Setup, reader_at};

// The drawings and the limit. Each drawing has room for one byte more than a tree may have nodes, so that one that is cut off here has a fault in
// any case.
#[derive(Clone, Copy)]
pub struct Drawing {
    pub source: ByteList<33>,
    pub target: ByteList<65>,
    pub limit: Option<u32>,
}

// How the setup ends: with the script; with a refusal and its command's offset; or with an 04 in turn, and its offset. As with `Read`, an Option in a
// Result would be no plainer: `Ok(None)`, `Err((refusal, at))` and `Ok(Some(at))` do not say which is which.
#[derive(Clone, Copy)]
pub enum Ending {
    End,
    Refused(Refusal, usize),
    Compile(usize),
}

#[derive(Clone, Copy)]
pub struct Gathered {
    pub drawing: Drawing,
    pub ending: Ending,
}

impl Drawing {
    // Takes one read: adds what it gives, or answers how the setup ends with it.
    fn take(&mut self, read: Read) -> Option<Ending>
        ensures { Takes self.old read self.new result }
    {
        match read {
            Read::Next(Command::Setup(Setup::Source(children)), _) => {
                self.source.add(children);
                None
            }
            Read::Next(Command::Setup(Setup::Target(children)), _) => {
                self.target.add(children);
                None
            }
            Read::Next(Command::Setup(Setup::Limit(limit)), _) if self.limit.is_none() => {
                self.limit = Some(limit);
                None
            }
            Read::Next(Command::Compile, at) if self.limit.is_some() => Some(Ending::Compile(at)),
            Read::Next(_, at) => Some(Ending::Refused(Refusal::OutOfTurn, at)),
            Read::Refused(refusal, at) => Some(Ending::Refused(refusal, at)),
            Read::End => Some(Ending::End),
        }
    }
}

// Gathers the setup from the reader's next command on. If it ends with an 04 in turn, the reader is then past this 04.
pub fn gather<'s, 'a>(reader: &'s mut Reader<'a>) -> Gathered
    ensures gathers { Gathers (gather_reads (reads reader.old.script.now reader.old.at) [] [] None) result }
    ensures script { reader.new.script ≡ reader.old.script }
    ensures left { reads reader.old.script.now reader.new.at ≡ (gather_reads (reads reader.old.script.now reader.old.at) [] [] None).left }
{
    let mut drawing = Drawing {
        source: ByteList::new(),
        target: ByteList::new(),
        limit: None,
    };
    loop {
        if let Some(ending) = drawing.take(reader.next()) {
            return Gathered { drawing, ending };
        }
    }
}

// The setup of a whole script, for a caller that needs nothing after it.
#[tactic(auto, unfolding(crate::specs::Gathering::gathered))]
pub fn gathered_of(script: &[u8]) -> Gathered
    ensures { Gathers (gathered script.now) result }
{
    let mut reader = reader_at(script, 0);
    gather(&mut reader)
}

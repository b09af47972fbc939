// Disciplines of the nodes of a drawing (paper 02, 2.1): the discipline of a node gives the entries of its queue their ranks. Here are the rules that
// a park names and what weighted nodes keep. They are plain numbers, so that C and Rust can use them as they are; specs/ has their meaning.
#![tactic(auto)]

ghost use Rattle.std.specs.Prelude.{◌≡◌};
ghost use Rattle.discipline_model.specs.Figure.{number, acts_by, named, discipline_of};

use queue_state::Rank;
use refusal::Refusal;

#[derive(Clone, Copy, PartialEq, Eq)]
pub enum Discipline {
    // Gives rank 0.
    Arrival,
    // Gives the packet's class.
    Strict,
    // Gives the start of Figure 1 of document 002.
    Weighted,
}

// The discipline that a number names; a number that names none is refused by 24.
impl TryFrom<u8> for Discipline {
    type Error = Refusal;

    ghost try_from_gives = { λ number outcome. outcome ≡ named number };

    fn try_from(number: u8) -> Result<Discipline, Refusal> {
        match number {
            0 => Ok(Discipline::Arrival),
            1 => Ok(Discipline::Strict),
            2 => Ok(Discipline::Weighted),
            _ => Err(Refusal::Rules),
        }
    }
}

// The number of a discipline.
impl From<Discipline> for u8 {
    ghost from_gives = { λ discipline n. n ≡ number discipline };

    fn from(discipline: Discipline) -> u8 {
        match discipline {
            Discipline::Arrival => 0,
            Discipline::Strict => 1,
            Discipline::Weighted => 2,
        }
    }
}

// The number of a node's discipline, as C writes it (`Discipline`), and its weight as a child of its parent.
#[repr(C)]
#[derive(Clone, Copy)]
pub struct Rule {
    pub discipline: u8,
    pub weight: u8,
}

// All by node of the drawing: the rules, the virtual time of each node, and the last finish of each node as a child of its parent. They are three
// arrays, as C has them.
#[repr(C)]
#[derive(Clone, Copy)]
pub struct Disciplines {
    pub rules: [Rule; 64],
    pub virtual_time: [Rank; 64],
    pub finish: [Rank; 64],
}

// The number of the discipline by which a node with `children` children acts: that of arrival for a node with one child, which is passed over (2.2),
// else the node's own number, which names a discipline or none. A `Discipline` has no value for none, so the answer is the number.
pub fn acting(children: u8, discipline: u8) -> u8
    ensures { result ≡ acts_by children discipline }
{
    if children == 1 {
        return Discipline::Arrival.into();
    }
    discipline
}

// The discipline by which a node acts: arrival if its number names none.
pub fn acts_as(children: u8, number: u8) -> Discipline
    ensures { result ≡ discipline_of (acts_by children number) }
{
    Discipline::try_from(acting(children, number)).unwrap_or(Discipline::Arrival)
}

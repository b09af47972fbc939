// A state of a queue tree as plain numbers. An exported function cannot take or return a struct that holds an enum, so `State` itself cannot be
// passed to or from a program in C or Rust.
//
// The entries are converted by a loop over an index: by `array::map` a call takes a megabyte of stack, and C programs give it 832 KB.
#![tactic(auto)]

use queue_state::{Entry, Frame, Item, Packet, Rank, State};

// An entry: the child `child` if `tag` is 0, else the packet `packet`.
#[repr(C)]
#[derive(Clone, Copy)]
pub struct PlainEntry {
    pub rank: Rank,
    pub tag: u8,
    pub child: u8,
    pub packet: Packet,
}

// The fields are those of a state.
#[repr(C)]
#[derive(Clone, Copy)]
pub struct PlainState {
    pub frame: Frame,
    pub lengths: [u16; 64],
    pub entries: [PlainEntry; 2304],
    pub refused: u32,
}

impl From<PlainEntry> for Entry {
    ghost use Rattle.std.specs.Prelude.{◌≡◌};
    ghost use Rattle.exports_plain_state.specs.Plain.{entry_of};

    ghost from_gives = { λ plain entry. entry ≡ entry_of plain };

    fn from(plain: PlainEntry) -> Entry {
        Entry {
            rank: plain.rank,
            item: if plain.tag == 0 {
                Item::Child(plain.child)
            } else {
                Item::Packet(plain.packet)
            },
        }
    }
}

impl From<Entry> for PlainEntry {
    ghost use Rattle.std.specs.Prelude.{◌≡◌};
    ghost use Rattle.exports_plain_state.specs.Plain.{plain_entry};

    ghost from_gives = { λ entry plain. plain ≡ plain_entry entry };

    fn from(entry: Entry) -> PlainEntry {
        match entry.item {
            Item::Child(child) => PlainEntry {
                rank: entry.rank,
                tag: 0,
                child,
                packet: 0,
            },
            Item::Packet(packet) => PlainEntry {
                rank: entry.rank,
                tag: 1,
                child: 0,
                packet,
            },
        }
    }
}

// The state that plain numbers stand for.
impl From<PlainState> for State {
    ghost use Rattle.std.specs.Prelude.{◌≡◌};
    ghost use Rattle.exports_plain_state.specs.Plain.{state_of};

    ghost from_gives = { λ plain state. state ≡ state_of plain };

    fn from(plain: PlainState) -> State {
        // A variable: the borrow checker does not cover a field that is an array and is made part of a literal straight.
        let lengths = plain.lengths;
        let mut entries = [Entry {
            rank: 0,
            item: Item::Child(0),
        }; 2304];
        for i in 0..2304 {
            entries[i] = plain.entries[i].into();
        }
        State {
            frame: plain.frame,
            lengths,
            entries,
            refused: plain.refused,
        }
    }
}

// A state as plain numbers.
impl From<State> for PlainState {
    ghost use Rattle.std.specs.Prelude.{◌≡◌};
    ghost use Rattle.exports_plain_state.specs.Plain.{plain_of};

    ghost from_gives = { λ state plain. plain ≡ plain_of state };

    fn from(state: State) -> PlainState {
        // A variable: the borrow checker does not cover a field that is an array and is made part of a literal straight.
        let lengths = state.lengths;
        let mut entries = [PlainEntry {
            rank: 0,
            tag: 0,
            child: 0,
            packet: 0,
        }; 2304];
        for i in 0..2304 {
            entries[i] = state.entries[i].into();
        }
        PlainState {
            frame: state.frame,
            lengths,
            entries,
            refused: state.refused,
        }
    }
}

// Calls of the unit, and what they answer.
use crate::refusal::Refusal;
use entry::TableLevel;
use entry::access::{AccessKind, Mode};

// An access or a validation, its numbers decoded.
#[derive(Clone, Copy, PartialEq, Eq, Debug)]
pub struct Request {
    pub mode: Mode,
    pub kind: AccessKind,
    pub address: u32,
}

// The name of a table entry: the space and the page that lead to it, and the level of its table.
#[derive(Clone, Copy, PartialEq, Eq, Debug)]
pub struct EntryName {
    // 0 or 1: a number, as in a `Tag`.
    pub space: u8,
    pub level: TableLevel,
    pub page: u32,
}

// What an edit is asked to do: the name of an entry in numbers, and its new value. Any number is accepted.
#[derive(Clone, Copy, PartialEq, Eq, Debug)]
pub struct EditOperands {
    pub space: u8,
    pub level: u8,
    pub page: u32,
    pub value: u32,
}

// One call. Its operands are numbers, a mode, a kind and a level too, since calls are told numbers; any is accepted. A bus
// transfer's two addresses stand in two cases alone; as a struct they would be one more name in each pattern.
#[derive(Clone, Copy, PartialEq, Eq, Debug)]
pub enum Call {
    Reset,
    Load {
        code: u8,
        value: u32,
    },
    Store {
        code: u8,
    },
    Access {
        mode: u8,
        kind: u8,
        address: u32,
    },
    Validate {
        kind: u8,
        address: u32,
    },
    BusRead {
        physical: u32,
        address: u32,
    },
    BusWrite {
        physical: u32,
        address: u32,
        mask: u8,
        value: u32,
    },
    Edit(EditOperands),
    // The flush of a token, known by the address that it carries.
    Flush {
        address: u32,
    },
}

// One command of a list: a call, or an edit whose token is flushed at once.
#[derive(Clone, Copy, PartialEq, Eq, Debug)]
pub enum Command {
    One(Call),
    EditThenFlush(EditOperands),
}

// What a call that is not refused answers.
#[derive(Clone, Copy, PartialEq, Eq, Debug)]
pub enum Reply {
    Done,
    Value(u32),
    Translated { physical: u32, inhibit: bool },
    Flag(bool),
    // The edit is done; its token carries this address.
    Edited(u32),
    // The token was open, and is spent.
    Flushed,
    // No token of that address was open.
    NotOpen,
}

// What a call answers: a reply, or why it was refused.
pub type Answer = Result<Reply, Refusal>;

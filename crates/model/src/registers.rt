// The registers of the unit.

#[derive(Clone, Copy, PartialEq, Eq, Debug)]
pub struct Registers {
    // BAR: the address of the breakpoint.
    pub bar: u32,
    // BMR: which of its bits count.
    pub bmr: u32,
    // BDR: the address that last met the breakpoint.
    pub bdr: u32,
    // BEAR: the address that was served when the memory last refused.
    pub bear: u32,
    // MCR: whether addresses are translated, whether users have a space of their own and whether their access level is
    // overridden, and which accesses can break.
    pub mcr: u32,
    // MSR: how the last translation abort came about, who accessed and how at the last abort, and what else happened since
    // these bits were last cleared.
    pub msr: u32,
    // TEAR: the address of the last translation abort.
    pub tear: u32,
    // PTB0 and PTB1: where the first table of space 0 and of space 1 lies.
    pub ptb0: u32,
    pub ptb1: u32,
}

// The registers that a load or a store can name.
#[derive(Clone, Copy, PartialEq, Eq, Debug)]
pub enum Register {
    Bar,
    Bmr,
    Bdr,
    Bear,
    Mcr,
    Msr,
    Tear,
    Ptb0,
    Ptb1,
    // IVAR0 and IVAR1: a load drops the translation of an address; nothing is held.
    Ivar0,
    Ivar1,
}

// Lists of writes to any memory.
ghost use Rattle.std.specs.Prelude.{◌≡◌};
ghost use Rattle.physical.specs.Writes.{LastWriteStands, OneWrite, Reasons, accepted, accepted_count, after_write, after_writes};

use crate::Memory;

// A value for the double-word at an address.
#[derive(Clone, Copy, PartialEq, Eq, Debug)]
pub struct Write {
    pub address: u32,
    pub value: u32,
}

// Makes one write, and answers whether it was accepted. `keeps` and `lends` stand here and below again, since they relate
// two states.
fn write_one<M: Memory>(memory: &mut M, write: &Write) -> bool
    ensures accepted { result ≡ accepted (M.ReadableStore.values memory.old) (M.Memory.writable memory.old) write.now }
    ensures leaves { M.ReadableStore.values memory.new ≡ after_write (M.ReadableStore.values memory.old) (M.Memory.writable memory.old) write.now }
    ensures keeps { M.Memory.writable memory.new ≡ M.Memory.writable memory.old }
    ensures lends { M.Memory.loans memory.new ≡ M.Memory.loans memory.old }
{
    memory.write(write.address, write.value).is_ok()
}

// Makes each write of the list in turn, past those that are refused, and answers how many were accepted.
pub fn write_all<M: Memory>(memory: &mut M, writes: &[Write]) -> usize
    ensures count { result ≡ accepted_count (M.ReadableStore.values memory.old) (M.Memory.writable memory.old) writes.now }
    ensures leaves { M.ReadableStore.values memory.new ≡ after_writes (M.ReadableStore.values memory.old) (M.Memory.writable memory.old) writes.now }
    ensures keeps { M.Memory.writable memory.new ≡ M.Memory.writable memory.old }
    ensures lends { M.Memory.loans memory.new ≡ M.Memory.loans memory.old }
    ensures stands { LastWriteStands (M.ReadableStore.values memory.old) (M.Memory.writable memory.old) writes.now (M.ReadableStore.values memory.new) }
    ensures single { OneWrite }
    ensures reasons { Reasons }
{
    let mut count = 0;
    for write in writes {
        count += usize::from(write_one(memory, write));
    }
    count
}

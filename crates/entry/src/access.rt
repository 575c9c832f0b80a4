// Who accesses, what for, and what that asks of an entry.
ghost use Rattle.std.specs.Prelude.{◌≡◌};
ghost use Rattle.entry.specs.Access.{access_level, effective_protection, permits as permitted};

// The processor's mode.
#[derive(Clone, Copy, PartialEq, Eq, Debug)]
pub enum Mode {
    Supervisor,
    User,
}

// What an access is for.
#[derive(Clone, Copy, PartialEq, Eq, Debug)]
pub enum AccessKind {
    Read,
    Write,
    // The read of an operand that is written back.
    ReadModifyWrite,
}

// The level of an access, 0 to 3. With the override set, a user's accesses count as the supervisor's. Levels are numbers
// here and below: `permits` and `effective_protection` take any, and a field of `EntryFields` can be too wide, which
// putting together refuses.
pub fn access_level(mode: Mode, overridden: bool, kind: AccessKind) -> u8
    ensures { result ≡ access_level mode overridden kind }
{
    let user = match mode {
        Mode::User if !overridden => 2,
        Mode::User | Mode::Supervisor => 0,
    };
    match kind {
        AccessKind::Read => user,
        AccessKind::Write | AccessKind::ReadModifyWrite => user + 1,
    }
}

// Whether an access of that level passes an entry of that protection level.
pub fn permits(protection: u8, level: u8) -> bool
    ensures { result ≡ permitted protection level }
{
    level <= protection
}

// The protection level that counts where two entries lie on the way.
pub fn effective_protection(first: u8, second: u8) -> u8
    ensures { result ≡ effective_protection first second }
{
    first.min(second)
}

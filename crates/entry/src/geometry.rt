// The parts of a virtual address, and the addresses that a walk forms.
ghost use Rattle.std.specs.Prelude.{◌≡◌};
ghost use Rattle.entry.specs.NS32382.{ns32382};

// How many bytes a page, a frame and a table have.
pub const PAGE_SIZE: u32 = 4096;

// How many entries a table has.
const TABLE_ENTRIES: u32 = 1024;

// How many frames there are.
const FRAME_COUNT: u32 = 1_048_576;

// Bits 12 to 31.
pub fn page_number(address: u32) -> u32
    ensures { result ≡ ns32382.page address }
{
    address / PAGE_SIZE
}

// Bits 0 to 11.
pub fn offset(address: u32) -> u32
    ensures { result ≡ ns32382.offset address }
{
    address % PAGE_SIZE
}

// Which entry of the first table belongs to a page: bits 22 to 31 of its addresses.
pub fn first_index(page: u32) -> u32
    ensures { result ≡ ns32382.first_index page }
{
    page / TABLE_ENTRIES % TABLE_ENTRIES
}

// Which entry of the second table belongs to a page: bits 12 to 21 of its addresses.
pub fn second_index(page: u32) -> u32
    ensures { result ≡ ns32382.second_index page }
{
    page % TABLE_ENTRIES
}

// What a base register takes of a value: a table begins at a multiple of 4,096.
pub fn table_base(value: u32) -> u32
    ensures { result ≡ ns32382.base value }
{
    value - value % PAGE_SIZE
}

// Where the first entry of a page lies.
pub fn first_entry_address(base: u32, page: u32) -> u32
    ensures { result ≡ ns32382.first_entry base page }
{
    table_base(base) + 4 * first_index(page)
}

// Where the second entry of a page lies, in the table that the frame holds.
pub fn second_entry_address(frame: u32, page: u32) -> u32
    ensures { result ≡ ns32382.second_entry frame page }
{
    frame_address(frame) + 4 * second_index(page)
}

// The byte at an offset of the frame.
pub fn physical_address(frame: u32, offset: u32) -> u32
    ensures { result ≡ ns32382.physical frame offset }
{
    frame_address(frame) + offset % PAGE_SIZE
}

// Where a frame begins.
fn frame_address(frame: u32) -> u32
    ensures { result ≡ ns32382.physical frame 0 }
{
    frame % FRAME_COUNT * PAGE_SIZE
}

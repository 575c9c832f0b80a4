// Translations, as a finished walk leaves them to be kept.

// What a kept translation is found by.
#[derive(Clone, Copy, PartialEq, Eq, Debug)]
pub struct Tag {
    // 0 or 1: a number, since a kept translation holds no enum, so that a slot can be lent to C.
    pub space: u8,
    pub page: u32,
}

#[derive(Clone, Copy, PartialEq, Eq, Debug)]
pub struct Translation {
    pub tag: Tag,
    // The number of the frame that holds the page.
    pub frame: u32,
    // The smaller protection level of the two entries: a number, as `permits` takes it.
    pub protection: u8,
    // Whether the page is not to be cached.
    pub inhibit: bool,
    // Whether the second entry is marked modified, as the walk left it.
    pub modified: bool,
    // The addresses of the two entries that it was read from.
    pub first: u32,
    pub second: u32,
}

// A kept translation that was found, and the slot that holds it.
#[derive(Clone, Copy, PartialEq, Eq, Debug)]
pub struct Hit {
    pub slot: usize,
    pub translation: Translation,
}

// What is kept of one page, and how its level and its parent stand in words.
ghost use Rattle.std.specs.Prelude.{◌≡◌, ◌<◌, IfSome};
ghost use Rattle.cold_pages.specs.Inside.{byte_of, kept_level, parent_of, word_of};

/// What is kept of a page: the number and the log of its last record; its level, none of a free page; its fences, and how many pairs it has;
/// and the node that names it, where that one is kept too. The low fence is the key from which on that node names it.
#[derive(Clone, Copy, Debug, PartialEq, Eq)]
pub struct Kept {
    pub gsn: u64,
    pub last: u8,
    pub level: Option<u8>,
    pub low: u64,
    pub high: u64,
    pub count: u8,
    pub parent: Option<u32>,
}

// The byte of no level.
pub(crate) const FREE: u8 = 0xff;

// The word of no page.
pub(crate) const NOBODY: u32 = 0xffff_ffff;

// The level as a byte.
pub(crate) fn to_byte(level: Option<u8>) -> u8
    ensures { result ≡ byte_of level }
{
    match level {
        Some(level) => level,
        None => FREE,
    }
}

// The level that a byte says.
pub(crate) fn from_byte(byte: u8) -> Option<u8>
    ensures answer { result ≡ kept_level byte }
    ensures bound { IfSome result (λ level. level < 255) }
{
    if byte == FREE {
        return None;
    }
    Some(byte)
}

// The parent as a word.
pub(crate) fn to_word(parent: Option<u32>) -> u32
    ensures { result ≡ word_of parent }
{
    match parent {
        Some(page) => page,
        None => NOBODY,
    }
}

// The parent that a word says.
pub(crate) fn from_word(word: u32) -> Option<u32>
    ensures answer { result ≡ parent_of word }
    ensures bound { IfSome result (λ page. page < 4294967295) }
{
    if word == NOBODY {
        return None;
    }
    Some(word)
}

// The entries of a TIFF directory. A directory reader holds the image bytes and moves from entry to entry; what it does is done by functions on a
// slice and a number. Any image and any place get their answer: what lies past the end counts as 0.
#![tactic(auto)]

ghost use Rattle.std.specs.Prelude.{◌≡◌, ◌+◌, ◌<◌, ◌≤◌, ◌^◌, get_or};
ghost use Rattle.tiff_directory.specs.Entries.{short_at, long_at, EntryRead};

// One entry: its tag, its type, its count, and its four value bytes as a number, which is the value's offset where the value is longer.
#[derive(Clone, Copy)]
pub struct Entry {
    pub tag: u64,
    pub kind: u64,
    pub count: u64,
    pub value: u64,
}

// The image, and where the entry stands that is read next.
// Stays: no `Iterator`, since document 01 names this form: a struct of a slice and a position, and thin functions over those on a slice and a number.
#[derive(Clone, Copy)]
pub struct DirectoryReader<'a> {
    pub image: &'a [u8],
    pub at: usize,
}

// The byte so far ahead of a place.
fn byte_ahead(image: &[u8], at: usize, ahead: usize) -> u8
    ensures { result ≡ get_or image.now (at + ahead) 0 }
{
    if image.len() <= at {
        return 0;
    }
    if image.len() - at <= ahead {
        return 0;
    }
    image[at + ahead]
}

// Two bytes, low byte first.
fn short_ahead(image: &[u8], at: usize, ahead: usize) -> u64
    requires { ahead < 16 }
    ensures { (result ≡ short_at image.now (at + ahead)) × (result ≤ 0xFFFF) }
{
    u64::from(u16::from_le_bytes([
        byte_ahead(image, at, ahead),
        byte_ahead(image, at, ahead + 1),
    ]))
}

// Four bytes, low byte first.
fn long_ahead(image: &[u8], at: usize, ahead: usize) -> u64
    requires { ahead < 12 }
    ensures { (result ≡ long_at image.now (at + ahead)) × (result ≤ 0xFFFF_FFFF) }
{
    u64::from(u32::from_le_bytes([
        byte_ahead(image, at, ahead),
        byte_ahead(image, at, ahead + 1),
        byte_ahead(image, at, ahead + 2),
        byte_ahead(image, at, ahead + 3),
    ]))
}

pub fn short_at(image: &[u8], at: usize) -> u64
    ensures { (result ≡ short_at image.now at) × (result ≤ 0xFFFF) }
{
    short_ahead(image, at, 0)
}

pub fn long_at(image: &[u8], at: usize) -> u64
    ensures { (result ≡ long_at image.now at) × (result ≤ 0xFFFF_FFFF) }
{
    long_ahead(image, at, 0)
}

// The entry at a place.
fn entry_at(image: &[u8], at: usize) -> Entry
    ensures { EntryRead image.now at result }
{
    let tag = short_ahead(image, at, 0);
    let kind = short_ahead(image, at, 2);
    let count = long_ahead(image, at, 4);
    let value = long_ahead(image, at, 8);
    Entry {
        tag,
        kind,
        count,
        value,
    }
}

pub fn open_at<'a>(image: &'a [u8], at: usize) -> DirectoryReader<'a>
    ensures { (result.image ≡ image.entry) × (result.at ≡ at) }
{
    DirectoryReader { image, at }
}

// The entry where the reader stands.
pub fn read_entry<'a>(reader: DirectoryReader<'a>) -> Entry
    ensures { EntryRead reader.entry.image.now reader.entry.at result }
{
    entry_at(reader.image, reader.at)
}

// The reader at the next entry, twelve bytes on.
pub fn moved_on<'a>(reader: DirectoryReader<'a>) -> DirectoryReader<'a>
    requires { reader.at + 12 < 2 ^ 64 }
    ensures { (result.image ≡ reader.entry.image) × (result.at ≡ reader.entry.at + 12) }
{
    DirectoryReader {
        image: reader.image,
        at: reader.at + 12,
    }
}

// For callers with a slice and a number: the entry at a place, and the one behind it.
pub fn entry_here(image: &[u8], at: usize) -> Entry
    ensures { EntryRead image.now at result }
{
    read_entry(open_at(image, at))
}

pub fn entry_behind(image: &[u8], at: usize) -> Entry
    requires { at + 12 < 2 ^ 64 }
    ensures { EntryRead image.now (at + 12) result }
{
    read_entry(moved_on(open_at(image, at)))
}

// Records in a file: the four-byte length before each, and parts of a slice.
#![tactic(auto)]

ghost use Rattle.std.specs.Prelude.{◌≡◌, ◌+◌, ◌≤◌, length, get_or, drop};
ghost use Rattle.frame.specs.Frames.{part, length_in, frame_at};

// Where a record's body starts in the file, and how long it is.
#[derive(Clone, Copy)]
pub struct Extent {
    pub start: usize,
    pub size: usize,
}

// What stands at a length field's offset: nothing where fewer than four bytes are left, or fewer than the length says.
pub type Frame = Option<Extent>;

// A place in a file where a length field is to stand.
#[derive(Clone, Copy)]
pub struct Cursor {
    pub offset: usize,
}

// The bytes from a start on, as many as the size says, of a slice that reaches so far.
pub fn part_within(s: &[u8], start: usize, size: usize) -> &[u8]
    requires { start + size ≤ length s.now }
    ensures { result.now ≡ part start size s.now }
{
    let end = start + size;
    &s[start..end]
}

// The same of any slice, as far as there are any.
pub fn part_of(s: &[u8], start: usize, size: usize) -> &[u8]
    ensures { result.now ≡ part start size s.now }
{
    if s.len() < start {
        return &s[0..0];
    }
    if s.len() - start < size {
        return &s[start..];
    }
    part_within(s, start, size)
}

// The number in the first four bytes, high byte first.
fn length_in(s: &[u8]) -> usize
    requires { 4 ≤ length s.now }
    ensures { (result ≡ length_in s.now) × (result ≤ 0xFFFF_FFFF) }
{
    u32::from_be_bytes([s[0], s[1], s[2], s[3]]) as usize
}

impl Cursor {
    pub fn at(offset: usize) -> Self
        ensures { result.offset ≡ offset }
    {
        Cursor { offset }
    }

    // Any file and any offset, however large, get their answer.
    pub fn frame(self, file: &[u8]) -> Frame
        ensures { result ≡ frame_at file.now self.offset }
    {
        let offset = self.offset;
        if file.len() < 4 {
            return None;
        }
        if file.len() - 4 < offset {
            return None;
        }
        let length = length_in(&file[offset..]);
        let start = offset + 4;
        if file.len() - start < length {
            return None;
        }
        Some(Extent {
            start,
            size: length,
        })
    }
}

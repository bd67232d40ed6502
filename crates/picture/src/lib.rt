// The picture call: a check's own picture from its own file.
#![tactic(auto)]

ghost use Rattle.std.specs.Prelude.{◌≡◌, ℕ, ◌+◌, ◌≤◌, length};
ghost use Rattle.ascii_copy.specs.AsciiCopy.{ascii_copy, Begins};
ghost use Rattle.picture.specs.Picture.{unfound_of, number_of, field_of, start_of, size_of, bytes_of, in_body, picture_at};

use frame::{Cursor, Extent};
use judge::Flaw;
use layout::{ImageViewData, Kind};
use text::CharacterSet;

// Why the picture call finds none.
#[derive(Clone, Copy)]
pub enum Unfound {
    Size,
    Cut,
    Length,
    // Any type but 52.
    AnotherType,
    // The number of the field at fault.
    Field(usize),
}

// What the picture call finds at an offset of a file: the Image Data part, where it starts in the file and how long it is, or why there is none.
pub type Found = Result<Extent, Unfound>;

impl From<Flaw> for Unfound {
    ghost from_gives = { λ flaw unfound. unfound ≡ unfound_of flaw };

    fn from(flaw: Flaw) -> Self {
        match flaw {
            Flaw::Length => Unfound::Length,
            Flaw::UnknownType => Unfound::AnotherType,
            Flaw::Field(n) => Unfound::Field(n),
        }
    }
}

impl Unfound {
    // Document 01's number for the answer.
    pub fn number(self) -> u64
        ensures { result ≡ number_of (Err self) }
    {
        match self {
            Unfound::Size => 1,
            Unfound::Cut => 3,
            Unfound::Length => 4,
            Unfound::AnotherType => 5,
            Unfound::Field(_) => 7,
        }
    }

    // The field at fault, 0 for any other answer.
    pub fn field(self) -> usize
        ensures { result ≡ field_of (Err self) }
    {
        match self {
            Unfound::Size | Unfound::Cut | Unfound::Length | Unfound::AnotherType => 0,
            Unfound::Field(n) => n,
        }
    }
}

// What document 01 says of each answer, found or not.
pub trait FoundExt {
    ghost number_told: { Self → ℕ };

    ghost field_told: { Self → ℕ };

    ghost start_told: { Self → ℕ };

    ghost size_told: { Self → ℕ };

    // Document 01's number for the answer.
    fn number(self) -> u64
        ensures { result ≡ number_told self };

    // The field at fault, 0 for any other answer.
    fn field(self) -> usize
        ensures { result ≡ field_told self };

    // Where the part starts in the file, 0 where there is none.
    fn start(self) -> usize
        ensures { result ≡ start_told self };

    // How long it is.
    fn size(self) -> usize
        ensures { result ≡ size_told self };
}

impl FoundExt for Found {
    ghost number_told = { number_of };

    ghost field_told = { field_of };

    ghost start_told = { start_of };

    ghost size_told = { size_of };

    fn number(self) -> u64
        ensures { result ≡ number_of self }
    {
        match self {
            Ok(_) => 0,
            Err(unfound) => unfound.number(),
        }
    }

    fn field(self) -> usize
        ensures { result ≡ field_of self }
    {
        match self {
            Ok(_) => 0,
            Err(unfound) => unfound.field(),
        }
    }

    fn start(self) -> usize
        ensures { result ≡ start_of self }
    {
        match self {
            Ok(part) => part.start,
            Err(_) => 0,
        }
    }

    fn size(self) -> usize
        ensures { result ≡ size_of self }
    {
        match self {
            Ok(part) => part.size,
            Err(_) => 0,
        }
    }
}

// The picture of a record whose body starts at a place of the file.
fn in_body(set: CharacterSet, start: usize, body: &[u8]) -> Found
    requires { start + length body.now ≤ 268_435_456 }
    ensures { result ≡ in_body set start body.now }
{
    if body.len() < 2 {
        return Err(Unfound::Length);
    }
    if judge::type_of(set, body) != ImageViewData::TYPE {
        return Err(Unfound::AnotherType);
    }
    judge::judge_image(set, body)?;
    Ok(Extent {
        start: start + judge::image_start(set, body),
        size: judge::image_size(set, body),
    })
}

// What stands at an offset. Any file and any offset get their answer.
fn found_at(file: &[u8], offset: usize) -> Found
    ensures { result ≡ picture_at file.now offset }
{
    if file.len() < 1 {
        return Err(Unfound::Size);
    }
    if 268_435_456 < file.len() {
        return Err(Unfound::Size);
    }
    let set = text::set_of(file);
    let Extent { start, size } = Cursor::at(offset).frame(file).ok_or(Unfound::Cut)?;
    in_body(set, start, frame::part_of(file, start, size))
}

// The companion call: what the picture call finds. At every offset where a record begins as the lengths frame the file, it is what is found in
// the file's ASCII copy (request 5).
pub fn find_picture(file: &[u8], offset: usize) -> Found
    ensures found { result ≡ picture_at file.now offset }
    ensures copy { Begins file.now offset → result ≡ picture_at (ascii_copy file.now) offset }
{
    found_at(file, offset)
}

// The picture call: the Image Data part of the 52 whose length field stands at an offset, or an empty part. Image Data is Binary and never
// translated: where a record begins, the part is that of the file's ASCII copy (request 5).
pub fn picture(file: &[u8], offset: usize) -> &[u8]
    ensures bytes { result.now ≡ bytes_of file.now (picture_at file.now offset) }
    ensures copy { Begins file.now offset → result.now ≡ bytes_of (ascii_copy file.now) (picture_at (ascii_copy file.now) offset) }
{
    match found_at(file, offset) {
        Ok(part) => frame::part_of(file, part.start, part.size),
        Err(_) => &[],
    }
}

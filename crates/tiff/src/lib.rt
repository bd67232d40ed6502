// The tags of one image, declared as TIFF, against X9.100-181 (request 13). It is a call of its own: letters are read whatever their pictures hold. No
// byte of the picture itself is looked at, so the time grows with the directory alone.
#![tactic(auto)]

ghost use Rattle.std.specs.Prelude.{ℕ, cond, ◌≡◌, ◌+◌, ◌*◌, ◌≤◌, ◌<◌, min, ltb, length, false, MatchOption};
ghost use Rattle.frame.specs.Unless.{unless};
ghost use Rattle.tiff_directory.specs.Entries.{entries_from};
ghost use Rattle.tiff.specs.Image.{is_marked, type_size, value_inside, values_inside, first_with, is_number, number_in, strip_inside, directory_inside, IsFirst, disordered, lowest};
ghost use Rattle.tiff.specs.Required.{is_measure, is_code, is_resolution, is_like, required_tags};
ghost use Rattle.tiff.specs.Judged.{number_of, tag_of, tags_of};

use tiff_directory::Entry;

// What is wrong with an image's tags.
#[derive(Clone, Copy)]
pub enum TagFault {
    // Something lies outside the image.
    Cut,
    // The lowest tag that is not above the one before it.
    WrongOrder(u64),
    // The lowest required tag that is wrong or absent; 0 for the header.
    WrongValue(u64),
}

impl TagFault {
    pub fn number(self) -> u64
        ensures { result ≡ number_of (Err self) }
    {
        match self {
            TagFault::Cut => 3,
            TagFault::WrongOrder(_) => 18,
            TagFault::WrongValue(_) => 19,
        }
    }

    pub fn tag(self) -> u64
        ensures { result ≡ tag_of (Err self) }
    {
        match self {
            TagFault::Cut => 0,
            TagFault::WrongOrder(tag) | TagFault::WrongValue(tag) => tag,
        }
    }
}

// An image's tags: as they should be, or what is wrong.
pub type Tags = Result<(), TagFault>;

// What an answer says, right tags too: its number and its tag, each 0 of right ones.
pub trait TagsExt {
    ghost number_told: { Self → ℕ };

    ghost tag_told: { Self → ℕ };

    fn number(self) -> u64
        ensures { result ≡ number_told self };

    fn tag(self) -> u64
        ensures { result ≡ tag_told self };
}

impl TagsExt for Tags {
    ghost number_told = { number_of };

    ghost tag_told = { tag_of };

    fn number(self) -> u64
        ensures { result ≡ number_of self }
    {
        match self {
            Ok(()) => 0,
            Err(fault) => fault.number(),
        }
    }

    fn tag(self) -> u64
        ensures { result ≡ tag_of self }
    {
        match self {
            Ok(()) => 0,
            Err(fault) => fault.tag(),
        }
    }
}

// The mark 49 49 and the number 42.
fn is_marked(image: &[u8]) -> bool
    requires { 8 ≤ length image.now }
    ensures { result ≡ is_marked image.now }
{
    (image[0] == 0x49) & (image[1] == 0x49) & (tiff_directory::short_at(image, 2) == 42)
}

// The bytes of a number of each type of TIFF 6.0.
const TYPE_SIZES: [u64; 13] = [0, 1, 1, 2, 4, 8, 1, 1, 2, 4, 8, 4, 8];

fn type_size(kind: u64) -> u64
    ensures { (result ≡ type_size kind) × (result ≤ 8) }
{
    TYPE_SIZES.get(kind as usize).copied().unwrap_or(0)
}

// Whether an entry's value, where it is longer than four bytes, lies within an image of so many bytes. No product and no sum is cut to 32 bits.
fn value_inside(image: &[u8], e: Entry) -> bool
    requires { (e.count ≤ 0xFFFF_FFFF) × (e.value ≤ 0xFFFF_FFFF) }
    ensures { result ≡ value_inside image.now e }
{
    let size = e.count * type_size(e.kind);
    (size <= 4) | (e.value + size <= image.len() as u64)
}

// One number, SHORT or LONG.
fn is_number(e: Entry) -> bool
    ensures { result ≡ is_number e }
{
    ((e.kind == 3) | (e.kind == 4)) & (e.count == 1)
}

fn number_in(e: Entry) -> u64
    ensures { (result ≡ number_in e) × (result ≤ e.value) }
{
    if e.kind == 3 {
        return e.value % 0x1_0000;
    }
    e.value
}

// One more pair of neighbours: the lower of a tag so far and the second of the two, where that is not above the first.
fn lowest_with(low: u64, before: u64, tag: u64) -> u64
    ensures { result ≡ cond (ltb before tag) low (min low tag) }
{
    if before < tag { low } else { low.min(tag) }
}

fn is_measure(e: Entry) -> bool
    ensures { result ≡ is_measure e }
{
    is_number(e) & (number_in(e) != 0)
}

fn is_code(code: u64, e: Entry) -> bool
    ensures { result ≡ is_code code e }
{
    (e.kind == 3) & (e.count == 1) & (e.value % 0x1_0000 == code)
}

fn is_resolution(image: &[u8], e: Entry) -> bool
    requires { e.value ≤ 0xFFFF_FFFF }
    ensures { result ≡ is_resolution image.now e }
{
    let at = e.value as usize;
    let numerator = tiff_directory::long_at(image, at);
    let denominator = tiff_directory::long_at(image, at + 4);
    (e.kind == 5)
        & (e.count == 1)
        & (denominator != 0)
        & ((numerator == 200 * denominator) | (numerator == 240 * denominator))
}

// The same ratio, at another offset.
fn is_like(image: &[u8], x: Entry, y: Entry) -> bool
    requires { (x.value ≤ 0xFFFF_FFFF) × (y.value ≤ 0xFFFF_FFFF) }
    ensures { result ≡ is_like image.now x y }
{
    let across = x.value as usize;
    let down = y.value as usize;
    let product = tiff_directory::long_at(image, across) * tiff_directory::long_at(image, down + 4);
    let other = tiff_directory::long_at(image, down) * tiff_directory::long_at(image, across + 4);
    (product == other) & (x.value != y.value)
}

// That a required tag is as it should be.
fn required(tag: u64, holds: bool) -> Tags
    ensures { result ≡ unless holds (Err (TagFault.WrongValue tag)) (Ok tt) }
{
    if holds {
        Ok(())
    } else {
        Err(TagFault::WrongValue(tag))
    }
}

// A directory that lies within its image: where its first entry stands, and how many there are. Behind them stand the four bytes of the next offset.
#[derive(Clone, Copy)]
struct Directory<'a> {
    image: &'a [u8],
    first: usize,
    count: u64,
    ghost inside: { first + 12 * count + 4 ≤ length image.now },
}

impl<'a> Directory<'a> {
    // The first directory of an image, where it lies within.
    fn within(image: &'a [u8]) -> Option<Directory<'a>>
        ensures { MatchOption result (directory_inside image.entry.now ≡ false) (λ d. IsFirst image.entry.now d.image.now d.first d.count) }
    {
        let start = tiff_directory::long_at(image, 4) as usize;
        let count = tiff_directory::short_at(image, start);
        if (image.len() as u64) < start as u64 + 2 + 12 * count + 4 {
            return None;
        }
        Some(Directory {
            image,
            first: start + 2,
            count,
        })
    }

    fn values_inside(self) -> bool
        ensures { result ≡ values_inside self.entry.image.now (entries_from self.entry.image.now self.entry.count self.entry.first) }
    {
        let mut at = self.first;
        for _ in 0..self.count {
            let e = tiff_directory::entry_here(self.image, at);
            if !value_inside(self.image, e) {
                return false;
            }
            at += 12;
        }
        true
    }

    // The first entry with a tag, or one of no type.
    fn first_with(self, tag: u64) -> Entry
        ensures { (result ≡ first_with tag (entries_from self.entry.image.now self.entry.count self.entry.first)) × (result.count ≤ 0xFFFF_FFFF) × (result.value ≤ 0xFFFF_FFFF) }
    {
        let mut at = self.first;
        for _ in 0..self.count {
            let e = tiff_directory::entry_here(self.image, at);
            if e.tag == tag {
                return e;
            }
            at += 12;
        }
        Entry {
            tag: 0,
            kind: 0,
            count: 0,
            value: 0,
        }
    }

    fn strip_inside(self) -> bool
        ensures { result ≡ strip_inside self.entry.image.now (entries_from self.entry.image.now self.entry.count self.entry.first) }
    {
        let offset = self.first_with(273);
        let size = self.first_with(279);
        if !(is_number(offset) & is_number(size)) {
            return true;
        }
        number_in(offset) + number_in(size) <= self.image.len() as u64
    }

    // The lowest tag that is not above the one before it, or 65,536.
    // Stays: a number and no Option, since `lowest` of specs/Image.antt, which `tags_of` names, is 65,536 where there is none.
    fn lowest_disordered(self) -> u64
        ensures { result ≡ lowest (disordered (entries_from self.entry.image.now self.entry.count self.entry.first)) }
    {
        let mut low: u64 = 0x1_0000;
        let mut at = self.first;
        for _ in 1..self.count {
            let before = tiff_directory::entry_here(self.image, at);
            let e = tiff_directory::entry_behind(self.image, at);
            low = lowest_with(low, before.tag, e.tag);
            at += 12;
        }
        low
    }

    // Table 1, in the order of the tags.
    fn required_tags(self) -> Tags
        ensures { result ≡ required_tags self.entry.image.now (entries_from self.entry.image.now self.entry.count self.entry.first) }
    {
        required(256, is_measure(self.first_with(256)))?;
        let length = self.first_with(257);
        required(257, is_measure(length))?;
        required(259, is_code(4, self.first_with(259)))?;
        required(262, is_code(0, self.first_with(262)))?;
        required(273, is_number(self.first_with(273)))?;
        let rows = self.first_with(278);
        required(
            278,
            is_number(rows) & (number_in(rows) == number_in(length)),
        )?;
        required(279, is_number(self.first_with(279)))?;
        let across = self.first_with(282);
        required(282, is_resolution(self.image, across))?;
        let down = self.first_with(283);
        required(
            283,
            is_resolution(self.image, down) & is_like(self.image, across, down),
        )
    }
}

// The call on one image: any bytes get their answer.
pub fn judge_tags(image: &[u8]) -> Tags
    ensures { result ≡ tags_of image.now }
{
    if image.len() < 8 {
        return Err(TagFault::Cut);
    }
    if !is_marked(image) {
        return Err(TagFault::WrongValue(0));
    }
    let Some(directory) = Directory::within(image) else {
        return Err(TagFault::Cut);
    };
    if !directory.values_inside() {
        return Err(TagFault::Cut);
    }
    if !directory.strip_inside() {
        return Err(TagFault::Cut);
    }
    let low = directory.lowest_disordered();
    if low < 0x1_0000 {
        return Err(TagFault::WrongOrder(low));
    }
    directory.required_tags()
}

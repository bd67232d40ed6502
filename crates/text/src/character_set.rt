// The character set of a file (request 5): ASCII, or EBCDIC by code page 037.
ghost use Rattle.std.specs.Prelude.{◌≡◌};
ghost use Rattle.text.specs.CharacterSet.{set_of};

use std::fmt;

#[derive(Clone, Copy, Debug, PartialEq, Eq)]
pub enum CharacterSet {
    Ascii,
    Ebcdic,
}

impl fmt::Display for CharacterSet {
    fn fmt<W: fmt::Write>(&self, f: &mut fmt::Formatter<W>) -> fmt::Result {
        f.write_str(match self {
            CharacterSet::Ascii => "ASCII",
            CharacterSet::Ebcdic => "EBCDIC",
        })
    }
}

// Decided by bytes 5 and 6 of the file, the first two characters after the first length, whatever that length says.
#[tactic(auto, unfolding(crate::specs::CharacterSet::set_of))]
pub fn set_of(file: &[u8]) -> CharacterSet
    ensures { result ≡ set_of file.now }
{
    match file.get(4..6) {
        Some([0xF0, 0xF1]) => CharacterSet::Ebcdic,
        _ => CharacterSet::Ascii,
    }
}

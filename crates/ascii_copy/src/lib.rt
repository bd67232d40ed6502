// The ASCII copy of a file (request 5), and that a record gets of it what it gets itself.
#![tactic(auto)]

ghost use Rattle.std.specs.Prelude.{◌≡◌, ◌≤◌, ◌<◌};
ghost use Rattle.text.specs.declared.character_set.CharacterSet.TheVariants.{Ebcdic};
ghost use Rattle.text.specs.Capitals.{capital};
ghost use Rattle.ascii_copy.specs.CodePage037.{counterpart};

// Below 80 code page 037 has the blank and special characters. Those among the letters stand apart: a match on numbers that lie close
// together is compiled without a jump for each.
fn counterpart_below_80(byte: u8) -> u8
    requires { byte < 0x80 }
    ensures { result ≡ counterpart byte }
{
    match byte {
        0x40 => b' ',
        0x4B => b'.',
        0x4C => b'<',
        0x4D => b'(',
        0x4E => b'+',
        0x4F => b'|',
        0x50 => b'&',
        0x5A => b'!',
        0x5B => b'$',
        0x5C => b'*',
        0x5D => b')',
        0x5E => b';',
        0x60 => b'-',
        0x61 => b'/',
        0x6B => b',',
        0x6C => b'%',
        0x6D => b'_',
        0x6E => b'>',
        0x6F => b'?',
        0x79 => b'`',
        0x7A => b':',
        0x7B => b'#',
        0x7C => b'@',
        0x7D => b'\'',
        0x7E => b'=',
        0x7F => b'"',
        _ => 0,
    }
}

// From 80 on, what is neither a letter nor a digit.
fn counterpart_among_letters(byte: u8) -> u8
    requires { (0x80 ≤ byte) × (capital Ebcdic byte ≡ 0) }
    ensures { result ≡ counterpart byte }
{
    match byte {
        0xA1 => b'~',
        0xB0 => b'^',
        0xBA => b'[',
        0xBB => b']',
        0xC0 => b'{',
        0xD0 => b'}',
        0xE0 => b'\\',
        _ => 0,
    }
}

fn counterpart_of_letter(byte: u8) -> u8
    requires { (0x80 ≤ byte) × (byte < 0xF0) }
    ensures { result ≡ counterpart byte }
{
    match byte {
        0x81..=0x89 => byte - 0x81 + b'a',
        0x91..=0x99 => byte - 0x91 + b'j',
        0xA2..=0xA9 => byte - 0xA2 + b's',
        0xC1..=0xC9 => byte - 0xC1 + b'A',
        0xD1..=0xD9 => byte - 0xD1 + b'J',
        0xE2..=0xE9 => byte - 0xE2 + b'S',
        _ => counterpart_among_letters(byte),
    }
}

// The ASCII code of the character that a byte of code page 037 stands for, 0 where it stands for none of clause 5. Digits and blanks, of
// which most fields are, are told by two tests.
pub fn counterpart_of(byte: u8) -> u8
    ensures { result ≡ counterpart byte }
{
    if byte < 0x80 {
        return counterpart_below_80(byte);
    }
    if byte < 0xF0 {
        return counterpart_of_letter(byte);
    }
    if byte <= 0xF9 {
        return byte - 0xF0 + b'0';
    }
    0
}

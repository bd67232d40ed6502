// Bytes set down in a lent buffer: as they are, as their characters in ASCII, or one byte many times.
#![tactic(auto)]

ghost use Rattle.std.specs.Prelude.{◌≡◌, ◌+◌, ◌≤◌, length};
ghost use Rattle.std.proofs.lemmas.List.Edits.{sets};
ghost use Rattle.frame.specs.Frames.{part};
ghost use Rattle.ascii_copy.specs.AsciiCopy.{translated};
ghost use Rattle.copying.specs.Times.{times};

// Bytes as they are, from a place of one slice to a place of another.
pub fn copy_bytes(text: &[u8], from: usize, size: usize, out: &mut [u8], at: usize)
    requires { (from + size ≤ length text.now) × (at + size ≤ length out.old) }
    ensures { out.new ≡ sets out.old at (part from size text.now) }
{
    for (i, byte) in text[from..from + size].iter().enumerate() {
        out[at + i] = *byte;
    }
}

// The characters of code page 037 as those of ASCII.
pub fn translate_bytes(text: &[u8], from: usize, size: usize, out: &mut [u8], at: usize)
    requires { (from + size ≤ length text.now) × (at + size ≤ length out.old) }
    ensures { out.new ≡ sets out.old at (translated (part from size text.now)) }
{
    for (i, byte) in text[from..from + size].iter().enumerate() {
        out[at + i] = ascii_copy::counterpart_of(*byte);
    }
}

pub fn put_times(out: &mut [u8], at: usize, size: usize, byte: u8)
    requires { at + size ≤ length out.old }
    ensures { out.new ≡ sets out.old at (times size byte) }
{
    out[at..at + size].fill(byte);
}

// Numbers as digits, for the fields that are worked out.
#![tactic(auto)]

ghost use Rattle.std.specs.Prelude.{◌≡◌, ◌+◌, ◌≤◌, length};
ghost use Rattle.std.proofs.lemmas.List.Edits.{sets};
ghost use Rattle.decimal.specs.Digits.{digits, fits};

// The last `size` digits of a number, from a place on.
pub fn put_digits(out: &mut [u8], at: usize, size: usize, value: u64)
    requires { at + size ≤ length out.old }
    ensures { out.new ≡ sets out.old at (digits size value) }
{
    let mut left = value;
    for i in (0..size).rev() {
        out[at + i] = b'0' + (left % 10) as u8;
        left /= 10;
    }
}

// Whether so many digits hold a number.
pub fn fits_in(size: usize, value: u64) -> bool
    ensures { result ≡ fits size value }
{
    let mut left = value;
    for _ in 0..size {
        left /= 10;
    }
    left == 0
}

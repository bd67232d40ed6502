// The net position of an owner: credit cents minus debit cents, an i64, in a table as two's complement.
#![tactic(auto)]

ghost use Rattle.std.specs.Prelude.{true, ◌≡◌, pos, ◌+ℤ◌, ◌-ℤ◌};
ghost use Rattle.std.specs.Int.Signed.{mag};
ghost use Rattle.net.specs.Net.{net_of, bits_of, signed, is_net, within};

// How far a number is from zero, or from -1 where it is below zero: so that each i64 has one.
fn magnitude(net: i64) -> u64
    ensures { result ≡ mag net }
{
    if net < 0 {
        return (-1 - net) as u64;
    }
    net as u64
}

// What 64 bits of a table say.
pub fn signed_of(bits: u64) -> i64
    ensures { result ≡ signed bits }
{
    bits.cast_signed()
}

// The bits for a table.
pub fn bits_of(net: i64) -> u64
    ensures { result ≡ bits_of net }
{
    net.cast_unsigned()
}

// Whether the bits say credit minus debit.
pub fn is_net(bits: u64, credit: u64, debit: u64) -> bool
    ensures { result ≡ is_net bits (net_of credit debit) }
{
    match credit.checked_signed_diff(debit) {
        Some(net) => bits == bits_of(net),
        None => false,
    }
}

// Whether a net position that rises by so much stays within the bound.
fn rises_within(net: i64, more: u64) -> bool
    ensures { result ≡ within (net +ℤ pos more) }
{
    let size = magnitude(net);
    if net < 0 {
        if more <= size {
            return size - more < 1_000_000_000_000_000_000;
        }
        return more - size - 1 <= 1_000_000_000_000_000_000;
    }
    if 1_000_000_000_000_000_000 < size {
        return false;
    }
    more <= 1_000_000_000_000_000_000 - size
}

// Whether one that falls by so much does.
fn falls_within(net: i64, less: u64) -> bool
    ensures { result ≡ within (net -ℤ pos less) }
{
    let size = magnitude(net);
    if net < 0 {
        if 1_000_000_000_000_000_000 <= size {
            return false;
        }
        return less < 1_000_000_000_000_000_000 - size;
    }
    if less <= size {
        return size - less <= 1_000_000_000_000_000_000;
    }
    less - size <= 1_000_000_000_000_000_000
}

// Whether it stays within with so much credit and debit more.
pub fn stays_within(net: i64, credit: u64, debit: u64) -> bool
    ensures { result ≡ within (net +ℤ net_of credit debit) }
{
    if debit <= credit {
        return rises_within(net, credit - debit);
    }
    falls_within(net, debit - credit)
}

// Credit minus debit, where it is within the bound.
pub fn net_of(credit: u64, debit: u64) -> i64
    requires { within (net_of credit debit) ≡ true }
    ensures { result ≡ net_of credit debit }
{
    credit.checked_signed_diff(debit).unwrap()
}

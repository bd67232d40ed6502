// Cents, items, views and records: each a measure of its own, so that no sum can blend them.
#![tactic(auto)]

ghost use Rattle.std.specs.Prelude.{cond, ◌≡◌, ◌+◌, ◌<◌};
ghost use Rattle.measure.specs.Measures.{cents, items, views, no_sums, together, capped, capped_sums, Small};

use std::ops::Add;

#[derive(Clone, Copy)]
pub struct Cents(pub u64);

#[derive(Clone, Copy)]
pub struct Items(pub u64);

#[derive(Clone, Copy)]
pub struct Views(pub u64);

#[derive(Clone, Copy)]
pub struct Records(pub u64);

// What a bundle, a cash letter and the file each add up.
#[derive(Clone, Copy)]
pub struct Sums {
    pub debits: Items,
    pub debit: Cents,
    pub credits: Items,
    pub credit: Cents,
    pub views: Views,
}

// The first number that no control field can state: they have 16 digits at most.
const UNSTATABLE: u64 = 10_000_000_000_000_000;

impl Cents {
    // A sum of cents stops there, since the amounts of all records of a file may pass 64 bits.
    // Stays: a method and no `Add`, since a `+` that stops at a number would read as the plain sum.
    pub fn plus(self, more: Cents) -> Cents
        requires { (self.0 < 0x4000_0000_0000_0000) × (more.0 < 0x4000_0000_0000_0000) }
        ensures { result ≡ cents (capped (self.0 + more.0)) }
    {
        let sum = self.0 + more.0;
        Cents(sum.min(UNSTATABLE))
    }
}

impl Add for Items {
    type Output = Items;

    ghost can_add = { λ n more. n.0 + more.0 < 0x1_0000_0000_0000_0000 };

    ghost add_gives = { λ n more sum. sum ≡ items (n.0 + more.0) };

    fn add(self, more: Items) -> Items {
        Items(self.0 + more.0)
    }
}

impl Add for Views {
    type Output = Views;

    ghost can_add = { λ n more. n.0 + more.0 < 0x1_0000_0000_0000_0000 };

    ghost add_gives = { λ n more sum. sum ≡ views (n.0 + more.0) };

    fn add(self, more: Views) -> Views {
        Views(self.0 + more.0)
    }
}

impl Sums {
    pub fn none() -> Self
        ensures { result ≡ no_sums }
    {
        Sums {
            debits: Items(0),
            debit: Cents(0),
            credits: Items(0),
            credit: Cents(0),
            views: Views(0),
        }
    }

    // These sums with what one record adds, or none where the record begins the level anew.
    pub fn since(self, begins: bool, added: Sums) -> Sums
        requires { Small self × Small added }
        ensures { result ≡ cond begins no_sums (capped_sums (together added self)) }
    {
        if begins {
            return Self::none();
        }
        Sums {
            debits: added.debits + self.debits,
            debit: added.debit.plus(self.debit),
            credits: added.credits + self.credits,
            credit: added.credit.plus(self.credit),
            views: added.views + self.views,
        }
    }
}

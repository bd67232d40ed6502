// The six figures of a cash letter, and the running totals that add them up. The totals are updated where they stand, by `add` and `take`, thin
// operations over the updates by value, `with` and `without`.
#![tactic(auto)]

ghost use Rattle.std.specs.Prelude.{true, ◌≡◌};
ghost use Rattle.figures.specs.Figures.{no_figures, plus, minus, same, covers, most, fits};

use measure::{Cents, Items, Sums, Views};

#[derive(Clone, Copy)]
pub struct Figures {
    pub bundles: u64,
    pub sums: Sums,
}

impl Figures {
    pub fn none() -> Self
        ensures { result ≡ no_figures }
    {
        Figures {
            bundles: 0,
            sums: Sums::none(),
        }
    }

    // The most that 64 bits hold of each.
    fn most() -> Self
        ensures { result ≡ most }
    {
        let sums = Sums {
            debits: Items(u64::MAX),
            debit: Cents(u64::MAX),
            credits: Items(u64::MAX),
            credit: Cents(u64::MAX),
            views: Views(u64::MAX),
        };
        Figures {
            bundles: u64::MAX,
            sums,
        }
    }

    // Whether 64 bits hold each of these figures with its like added.
    pub fn has_room_for(self, more: Figures) -> bool
        ensures { result ≡ fits (plus self more) }
    {
        Self::most().without(self).holds(more)
    }

    // Like added to like.
    pub fn with(self, more: Figures) -> Figures
        requires { fits (plus self more) ≡ true }
        ensures { result ≡ plus self more }
    {
        let a = self.sums;
        let b = more.sums;
        let bundles = self.bundles + more.bundles;
        let debits = Items(a.debits.0 + b.debits.0);
        let debit = Cents(a.debit.0 + b.debit.0);
        let credits = Items(a.credits.0 + b.credits.0);
        let credit = Cents(a.credit.0 + b.credit.0);
        let views = Views(a.views.0 + b.views.0);
        let sums = Sums {
            debits,
            debit,
            credits,
            credit,
            views,
        };
        Figures { bundles, sums }
    }

    // Whether each figure has its like in it.
    pub fn holds(self, less: Figures) -> bool
        ensures { result ≡ covers self less }
    {
        let a = self.sums;
        let b = less.sums;
        (less.bundles <= self.bundles)
            & (b.debits.0 <= a.debits.0)
            & (b.credits.0 <= a.credits.0)
            & (b.views.0 <= a.views.0)
            & (b.debit.0 <= a.debit.0)
            & (b.credit.0 <= a.credit.0)
    }

    // Like taken from like.
    pub fn without(self, less: Figures) -> Figures
        requires { covers self less ≡ true }
        ensures { result ≡ minus self less }
    {
        let a = self.sums;
        let b = less.sums;
        let bundles = self.bundles - less.bundles;
        let debits = Items(a.debits.0 - b.debits.0);
        let debit = Cents(a.debit.0 - b.debit.0);
        let credits = Items(a.credits.0 - b.credits.0);
        let credit = Cents(a.credit.0 - b.credit.0);
        let views = Views(a.views.0 - b.views.0);
        let sums = Sums {
            debits,
            debit,
            credits,
            credit,
            views,
        };
        Figures { bundles, sums }
    }

    pub fn are_none(self) -> bool
        ensures { result ≡ same self no_figures }
    {
        Self::none().holds(self)
    }
}

// Running totals are updated where they stand.
pub fn add(totals: &mut Figures, more: Figures)
    requires { fits (plus totals.old more) ≡ true }
    ensures { totals.new ≡ plus totals.old more }
{
    let before = *totals;
    *totals = before.with(more);
}

// For callers that hold the totals by value.
// Stays: docs/DECISIONS.md names `raised`, and `lowered` below; what they require differs, and so does what they end at.
pub fn raised(totals: Figures, more: Figures) -> Figures
    requires { fits (plus totals more) ≡ true }
    ensures { result ≡ plus totals more }
{
    let mut running = totals;
    add(&mut running, more);
    running
}

// The mirror image, for figures that leave the totals again.
pub fn take(totals: &mut Figures, less: Figures)
    requires { covers totals.old less ≡ true }
    ensures { totals.new ≡ minus totals.old less }
{
    let before = *totals;
    *totals = before.without(less);
}

pub fn lowered(totals: Figures, less: Figures) -> Figures
    requires { covers totals less ≡ true }
    ensures { result ≡ minus totals less }
{
    let mut running = totals;
    take(&mut running, less);
    running
}

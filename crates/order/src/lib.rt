// Which record may follow.
#![tactic(auto)]

ghost use Rattle.std.specs.Prelude.{◌≡◌};
ghost use Rattle.order.specs.MayFollow.{is_carried, follows, is_check_or_return, is_item, is_addendum, may_follow};

// Stays: types are numbers here, since `may_follow` and `is_carried` of specs/MayFollow.antt answer for every number, of a type that is carried or not.
pub fn is_check_or_return(kind: u64) -> bool
    ensures { result ≡ is_check_or_return kind }
{
    matches!(kind, 25 | 31)
}

pub fn is_item(kind: u64) -> bool
    ensures { result ≡ is_item kind }
{
    is_check_or_return(kind) | (kind == 61)
}

pub fn is_addendum(kind: u64) -> bool
    ensures { result ≡ is_addendum kind }
{
    matches!(kind, 26..=28 | 32..=35)
}

// The record types that are carried.
#[tactic(auto, unfolding(crate::specs::MayFollow::is_carried))]
pub fn is_carried(kind: u64) -> bool
    ensures { result ≡ is_carried kind }
{
    matches!(
        kind,
        1 | 10 | 20 | 25..=28 | 31..=35 | 50 | 52 | 54 | 61 | 70 | 90 | 99
    )
}

// The tables of document 01 and request 2: whether a bundle is open, the last type, where 0 is the start, and those that may come after it.
#[tactic(auto, unfolding(crate::specs::MayFollow::follows))]
fn follows_last(inside: bool, last: u64, next: u64) -> bool
    ensures { result ≡ follows inside last next }
{
    matches!(
        (inside, last, next),
        (false, 0, 1)
            | (false, 1, 10)
            | (false, 10, 20 | 61 | 90)
            | (false, 50, 52)
            | (false, 52, 50 | 54 | 61 | 20 | 90)
            | (false, 54, 50 | 61 | 20 | 90)
            | (false, 61, 50 | 61 | 20 | 90)
            | (false, 70, 20 | 61 | 90)
            | (false, 90, 10 | 99)
            | (true, 20, 25 | 31 | 61)
            | (true, 25, 26 | 27 | 28 | 50 | 25 | 61 | 70)
            | (true, 26, 26 | 27 | 28 | 50 | 25 | 61 | 70)
            | (true, 27, 28 | 50 | 25 | 61 | 70)
            | (true, 28, 28 | 50 | 25 | 61 | 70)
            | (true, 31, 32 | 33)
            | (true, 32, 32 | 33)
            | (true, 33, 34 | 35 | 50 | 31 | 61 | 70)
            | (true, 34, 35 | 50 | 31 | 61 | 70)
            | (true, 35, 35 | 50 | 31 | 61 | 70)
            | (true, 50, 52)
            | (true, 52, 50 | 54 | 25 | 31 | 61 | 70)
            | (true, 54, 50 | 25 | 31 | 61 | 70)
            | (true, 61, 50 | 61 | 25 | 31 | 70)
    )
}

// Whether a type may come next, with a bundle open or not, after the last one and with checks or returns of a type in the open bundle (0: none yet).
pub fn may_follow(inside: bool, last: u64, present: u64, next: u64) -> bool
    ensures { result ≡ may_follow inside last present next }
{
    let one_item_type = !is_check_or_return(next) | ((present == 0) | (present == next));
    follows_last(inside, last, next) & one_item_type
}

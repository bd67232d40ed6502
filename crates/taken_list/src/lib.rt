// The list of file numbers taken, in lent memory: from entry on it alone says whether an owner has entered a file number (request 10).
#![tactic(auto)]

ghost use Rattle.std.specs.Prelude.{true, ◌≡◌, ◌≤◌, leb, get_or};
ghost use Rattle.book_model.specs.PlainList.{is_taken};
ghost use Rattle.book_model.specs.Table.{places_claimed, places_there, free_places, taken_from, taken_by, is_list, with_taken};

// How many places are claimed: 0 where the list has no number at all.
fn places_claimed(list: &[u64]) -> u64
    ensures { result ≡ places_claimed list.now }
{
    list.first().copied().unwrap_or(0)
}

// How many whole places stand behind the first number.
fn places_there(list: &[u64]) -> u64
    ensures { result ≡ places_there list.now }
{
    (list.len().saturating_sub(1) / 2) as u64
}

pub fn is_list(list: &[u64]) -> bool
    ensures { result ≡ is_list list.now }
{
    places_claimed(list) <= places_there(list)
}

// Stays: that the list is one is asked by a clause, here and in two functions below: docs/DECISIONS.md, 20, names the crate for it, and a type for it would
// be needed twice, over a list that is read and one that is written.
// Whether there is a place for a file number more.
pub fn has_place(list: &[u64]) -> bool
    requires { is_list list.now ≡ true }
    ensures { result ≡ leb 1 (free_places list.now) }
{
    1 <= places_there(list) - places_claimed(list)
}

// Whether a file number stands in one of an owner's places among so many.
fn is_among(list: &[u64], owner: u64, claimed: u64, number: u64) -> bool
    requires { claimed ≤ places_there list.now }
    ensures { result ≡ is_taken number (taken_from owner list.now claimed 1) }
{
    for place in 0..claimed as usize {
        let at = 1 + 2 * place;
        if (list[at] == owner) & (list[at + 1] == number) {
            return true;
        }
    }
    false
}

pub fn is_taken(list: &[u64], owner: u64, number: u64) -> bool
    requires { is_list list.now ≡ true }
    ensures { result ≡ is_taken number (taken_by owner list.now) }
{
    is_among(list, owner, places_claimed(list), number)
}

// An owner's file number, set down in the place behind those claimed.
pub fn put_taken(list: &mut [u64], owner: u64, number: u64)
    requires { (is_list list.old ≡ true) × (leb 1 (free_places list.old) ≡ true) }
    ensures { list.new ≡ with_taken owner list.old number }
{
    let claimed = list[0];
    let at = 1 + 2 * (claimed as usize);
    list[0] = claimed + 1;
    list[at] = owner;
    list[at + 1] = number;
}

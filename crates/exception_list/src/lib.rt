// A lent list of exceptional cases (request A.4): its check, and the lookup of a weight in one that is good.
//
// The definitions are those of specs/List.antt: what a list is refused by, and in what order; specs/Search.antt says what the lookup comes to
// in any list. proofs/ has the laws by which the two walk over the slice.
#![tactic(auto)]

ghost use Rattle.std.specs.Prelude.{ℕ, ◌≡◌, ◌≤◌, ◌-◌, length};
ghost use Rattle.exceptions.specs.Lookup.{find, nth, entries_from};
ghost use Rattle.exception_list.specs.List.{is_good, may_follow, refusal_of, number_of, refused};
ghost use Rattle.exception_list.specs.Search.{searched};

use exceptions::Entry;
use reply::Refusal;

// Why a list is refused.
#[derive(Clone, Copy, Debug, PartialEq, Eq)]
pub enum ListError {
    // More than 256 entries.
    TooLong,
    // An entry not finite, an x that is zero, or out of order.
    BadEntry,
}

impl Refusal for ListError {
    ghost number = { number_of };

    fn number(self) -> u8 {
        match self {
            ListError::TooLong => 12,
            ListError::BadEntry => 13,
        }
    }
}

// The number of entries up to which a list is not too long.
const LONGEST: usize = 256;

#[tactic(auto, using(crate::proofs::Finite::is_finite, crate::proofs::Finite::differs), unfolding(crate::specs::List::is_good))]
fn is_good(e: Entry) -> bool
    ensures { result ≡ is_good e }
{
    e.x.is_finite() && e.hi.is_finite() && e.lo.is_finite() && e.x != 0.0
}

// Whether e is good, and above an entry whose x is last.
#[tactic(auto, unfolding(crate::specs::List::may_follow))]
fn may_follow(last: f64, e: Entry) -> bool
    ensures { result ≡ may_follow last e }
{
    last < e.x && is_good(e)
}

// Whether a list is good. One that is too long is not looked at.
pub fn check(list: &[Entry]) -> Result<(), ListError>
    ensures { refused result ≡ refusal_of list.now }
{
    if LONGEST < list.len() {
        return Err(ListError::TooLong);
    }
    let mut last = f64::NEG_INFINITY;
    for e in list {
        if !may_follow(last, *e) {
            return Err(ListError::BadEntry);
        }
        last = e.x;
    }
    Ok(())
}

// The reply of the entry whose x equals the given one, in a good list; in any other, what the search by halves comes upon.
pub fn lookup(list: &[Entry], x: f64) -> Option<f64>
    ensures good { refusal_of list.now ≡ 0 → result ≡ find list.now x }
    ensures any { result ≡ searched (length list.now) list.now 0 (length list.now) x }
{
    lookup_entry(list, 0, list.len(), x)
}

// The reply for x from the entries first to past - 1 of the list.
fn lookup_entry(list: &[Entry], first: usize, past: usize, x: f64) -> Option<f64>
    requires { past ≤ length list.now }
    ensures good { refusal_of list.now ≡ 0 → result ≡ find (entries_from (nth list.now) first (past - first)) x }
    ensures any { (k : ℕ) → past - first ≤ k → result ≡ searched k list.now first past x }
{
    if first >= past {
        return None;
    }
    let middle = first + (past - first) / 2;
    let e = list[middle];
    if x == e.x {
        return Some(e.hi + e.lo);
    }
    if x < e.x {
        return lookup_entry(list, first, middle, x);
    }
    lookup_entry(list, middle + 1, past, x)
}

// The exceptional cases of exp2m1, hard to round with double-double arithmetic, and their lookup.
//
// exception promises the reply of the entry of a stretch whose x equals the one asked for, or None where there is no such entry
// (specs/Lookup.antt). The entries are those of specs/Table.antt; each stretch of them ascends strictly by x (Ascending). The definitions
// of a lookup, and the laws of a search by halves, are about any list of entries: exception_list uses them for a lent one.
#![tactic(auto)]

mod table;

ghost use Rattle.std.specs.Prelude.{◌≡◌, ◌-◌};
ghost use Rattle.exceptions.specs.Table.{exceptions};
ghost use Rattle.exceptions.specs.Lookup.{start, end, entry_at, entries_from, entries, find, Finds, Part};

use table::EXCEPTIONS;

// An exceptional case x, and its reply hi + lo.
#[repr(C)]
#[derive(Clone, Copy)]
pub struct Entry {
    pub x: f64,
    pub hi: f64,
    pub lo: f64,
}

// The stretches of the table: of step 5, and of step 8 with |x| <= 1/8 and with |x| > 1/8.
#[derive(Clone, Copy)]
pub enum Stretch {
    First,
    Tiny,
    Wide,
}

// The reply for x from the entries first to past - 1 of the table, which are sorted by input value.
fn lookup_exception(table: &[f64; 624], first: usize, past: usize, x: f64) -> Option<f64>
    requires { (table.now ≡ exceptions) × Part first past }
    ensures { result ≡ find (entries_from entry_at first (past - first)) x }
{
    if first >= past {
        return None;
    }
    // Invariant: if x is an exceptional case, its entry is one of these
    let middle = first + (past - first) / 2;
    let at = middle * 3;
    let input = table[at];
    if x == input {
        let hi = table[at + 1];
        let lo = table[at + 2];
        return Some(hi + lo);
    }
    if x < input {
        return lookup_exception(table, first, middle, x);
    }
    lookup_exception(table, middle + 1, past, x)
}

impl Stretch {
    // The entries of a stretch: the first one, and the one past the last.
    fn bounds(self) -> (usize, usize)
        ensures { result ≡ (start self, end self) }
    {
        match self {
            Stretch::First => (0, 56),
            Stretch::Tiny => (56, 115),
            Stretch::Wide => (115, 208),
        }
    }
}

// The reply of the entry of the stretch whose x equals the given one.
pub fn exception(stretch: Stretch, x: f64) -> Option<f64>
    ensures value { result ≡ find (entries stretch) x }
    ensures exactly { Finds (entries stretch) x result }
{
    let (first, past) = stretch.bounds();
    // A constant array is made anew wherever it is named: once here, and lent to every step of the search.
    lookup_exception(&EXCEPTIONS, first, past, x)
}

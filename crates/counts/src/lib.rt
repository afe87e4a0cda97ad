// The counts of a report, as they are shown: each stops at 2^64 - 1.
//
// The contracts are equations with the definitions of specs/Counts.antt, for every value of Counts.
#![tactic(auto)]

ghost use Rattle.std.specs.Prelude.{◌≡◌, ◌++◌, ◌+◌, ◌≤◌, length, drop};
ghost use Rattle.counts.specs.Counts.{is_refused, none_counted, stopped, shown, is_sum, report_of, added, shown_next};

// The bytes of the three numbers.
pub const REPORT_BYTES: usize = 24;

// Frames accepted, frames refused, and their total.
#[repr(C)]
#[derive(Clone, Copy, Debug, PartialEq, Eq, Default)]
pub struct Counts {
    pub accepted: u64,
    pub refused: u64,
    pub total: u64,
}

#[tactic(auto, unfolding(crate::specs::Counts::stopped))]
pub fn none() -> Counts
    ensures { result ≡ shown none_counted }
{
    Counts::default()
}

// Whether a number is a refusal that counts.
fn is_refused(number: u8) -> bool
    ensures { result ≡ is_refused number }
{
    matches!(number, 1 | 2 | 3 | 4 | 5 | 11 | 14 | 15)
}

#[tactic(auto, unfolding(crate::specs::Counts::stopped))]
fn sum(m: u64, n: u64) -> u64
    ensures { result ≡ stopped (m + n) }
{
    m.saturating_add(n)
}

// So many accepted and refused frames more.
pub fn add(counts: Counts, accepted: u64, refused: u64) -> Counts
    ensures { result ≡ added accepted refused counts }
{
    Counts {
        accepted: sum(counts.accepted, accepted),
        refused: sum(counts.refused, refused),
        total: sum(sum(counts.total, accepted), refused),
    }
}

// One answer more, by its number: 0 of an accepted frame, or the refusal's.
pub fn counted(counts: Counts, number: u8) -> Counts
    ensures { result ≡ shown_next number counts }
{
    add(
        counts,
        u64::from(number == 0),
        u64::from(is_refused(number)),
    )
}

// Whether the total is the sum of the other two, stopped.
#[tactic(auto, unfolding(crate::specs::Counts::is_sum))]
pub fn is_sum(counts: Counts) -> bool
    ensures { result ≡ is_sum counts }
{
    counts.total == sum(counts.accepted, counts.refused)
}

// Writes the three numbers at the front, 8 bytes each.
pub fn write_report(counts: Counts, out: &mut [u8])
    requires { 24 ≤ length out.old }
    ensures { out.new ≡ report_of counts ++ drop 24 out.old }
{
    words::write_u64(out, counts.accepted);
    words::write_u64(&mut out[8..], counts.refused);
    words::write_u64(&mut out[16..], counts.total);
}

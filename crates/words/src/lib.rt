// Whole numbers as big-endian bytes: read at a place of a slice, and written at a slice's front. The contracts are equations with
// the definitions of specs/Bytes.antt.
#![tactic(auto)]

ghost use Rattle.std.specs.Prelude.{◌≡◌, ◌++◌, ◌+◌, ◌*◌, ◌≤◌, ◌<◌, length, drop};
ghost use Rattle.words.specs.Bytes.{number_at, word_bytes};

// Two bytes from a place on.
pub fn read_u16(bytes: &[u8], at: usize) -> u16
    requires { at + 2 ≤ length bytes.now }
    ensures { result ≡ number_at 2 bytes.now at }
{
    u16::from_be_bytes([bytes[at], bytes[at + 1]])
}

// Four bytes from a place on.
pub fn read_u32(bytes: &[u8], at: usize) -> u32
    requires { at + 4 ≤ length bytes.now }
    ensures { result ≡ number_at 4 bytes.now at }
{
    u32::from_be_bytes([bytes[at], bytes[at + 1], bytes[at + 2], bytes[at + 3]])
}

// Eight bytes from a place on.
pub fn read_u64(bytes: &[u8], at: usize) -> u64
    requires { at + 8 ≤ length bytes.now }
    ensures { result ≡ number_at 8 bytes.now at }
{
    // The bytes one by one: first_chunk would test the length once more for each word.
    let word = [
        bytes[at],
        bytes[at + 1],
        bytes[at + 2],
        bytes[at + 3],
        bytes[at + 4],
        bytes[at + 5],
        bytes[at + 6],
        bytes[at + 7],
    ];
    u64::from_be_bytes(word)
}

// Writes the eight bytes of x at the front.
pub fn write_u64(out: &mut [u8], x: u64)
    requires { 8 ≤ length out.old }
    ensures { out.new ≡ word_bytes x ++ drop 8 out.old }
{
    out[..8].copy_from_slice(&x.to_be_bytes());
}

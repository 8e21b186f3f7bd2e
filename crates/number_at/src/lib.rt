// Numbers in lent memory, little end first, read where they are known to lie within.
#![tactic(auto)]

ghost use Rattle.std.specs.Prelude.{◌≡◌, ◌+◌, ◌<◌, ◌≤◌, length};
ghost use Rattle.layout.specs.Layout.{byte_at, le2_at, le4_at, le8_at};
ghost use Rattle.grammar.specs.Bytes.{byte_values, two_byte_values};

/// The byte at a place within.
pub fn byte(s: &[u8], i: usize) -> u8
    requires { i < length s.now }
    ensures { result ≡ byte_at s.now i }
{
    s[i]
}

/// A byte as a number.
pub fn wide(b: u8) -> usize
    ensures { (result ≡ b) × (result < byte_values) }
{
    b as usize
}

/// A number of two bytes.
pub fn two(s: &[u8], at: usize) -> u16
    requires { (at + 2 ≤ length s.now) × (at < two_byte_values) }
    ensures { result ≡ le2_at s.now at }
{
    u16::from_le_bytes([s[at], s[at + 1]])
}

/// A number of four bytes.
pub fn four(s: &[u8], at: usize) -> u32
    requires { (at + 4 ≤ length s.now) × (at < two_byte_values + 4) }
    ensures { result ≡ le4_at s.now at }
{
    u32::from_le_bytes([s[at], s[at + 1], s[at + 2], s[at + 3]])
}

/// A number of eight bytes.
pub fn eight(s: &[u8], at: usize) -> usize
    requires { (at + 8 ≤ length s.now) × (at < two_byte_values) }
    ensures { result ≡ le8_at s.now at }
{
    u64::from_le_bytes([
        s[at],
        s[at + 1],
        s[at + 2],
        s[at + 3],
        s[at + 4],
        s[at + 5],
        s[at + 6],
        s[at + 7],
    ]) as usize
}

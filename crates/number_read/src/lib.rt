// Numbers in lent memory, little end first, read: a byte past the end counts as 0.
#![tactic(auto)]

ghost use Rattle.std.specs.Prelude.{◌≡◌};
ghost use Rattle.layout.specs.Layout.{le2_at, le4_at, le8_at};

use layout::byte_at;

/// A number of two bytes.
pub fn number2(s: &[u8], at: u16) -> usize
    ensures { result ≡ le2_at s.now at }
{
    let b = |k: usize| byte_at(s, at as usize + k);
    u16::from_le_bytes([b(0), b(1)]) as usize
}

/// A number of four bytes.
pub fn number4(s: &[u8], at: u16) -> usize
    ensures { result ≡ le4_at s.now at }
{
    let b = |k: usize| byte_at(s, at as usize + k);
    u32::from_le_bytes([b(0), b(1), b(2), b(3)]) as usize
}

/// A number of eight bytes.
pub fn number8(s: &[u8], at: u16) -> usize
    ensures { result ≡ le8_at s.now at }
{
    let b = |k: usize| byte_at(s, at as usize + k);
    u64::from_le_bytes([b(0), b(1), b(2), b(3), b(4), b(5), b(6), b(7)]) as usize
}

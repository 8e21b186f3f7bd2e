// Numbers as bytes, little end first, as they are written to lent memory.
#![tactic(auto)]

ghost use Rattle.std.specs.Prelude.{◌≡◌};
ghost use Rattle.layout.specs.Layout.{le2, le4, le8};

/// A number modulo 2 ^ 16 in two bytes.
pub fn bytes2(x: usize) -> [u8; 2]
    ensures { result ≡ le2 x }
{
    let b = x.to_le_bytes();
    [b[0], b[1]]
}

/// A number modulo 2 ^ 32 in four bytes.
pub fn bytes4(x: usize) -> [u8; 4]
    ensures { result ≡ le4 x }
{
    let b = x.to_le_bytes();
    [b[0], b[1], b[2], b[3]]
}

/// A number in eight bytes.
pub fn bytes8(x: usize) -> [u8; 8]
    ensures { result ≡ le8 x }
{
    x.to_le_bytes()
}

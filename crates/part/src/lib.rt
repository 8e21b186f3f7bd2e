// A part of a lent store, where it lies, and a length that goes no further than it may.
#![tactic(auto)]

ghost use Rattle.std.specs.Prelude.{◌≡◌, min, length};
ghost use Rattle.grammar.specs.Transfers.{part_of};

/// The `len` bytes from `start` on, or nothing where they run past the end.
pub fn part(s: &[u8], start: usize, len: usize) -> &[u8]
    ensures { result.now ≡ part_of s.now start len }
{
    if start <= s.len() && len <= s.len() - start {
        &s[start..start + len]
    } else {
        &s[..0]
    }
}

// n, or most where n is more.
pub fn at_most(most: usize, n: usize) -> usize
    ensures { result ≡ min most n }
{
    most.min(n)
}

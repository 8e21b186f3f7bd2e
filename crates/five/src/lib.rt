// Up to five numbers: places of a block, or signs.
#![tactic(auto)]

ghost use Rattle.std.specs.Prelude.{◌≡◌, [], ◌∷◌, ◌++◌, ◌≤◌, ◌<◌, length};
ghost use Rattle.phase.specs.Phase.{block_limit};
ghost use Rattle.session_memory.specs.State.{held, five_of, no_five};
ghost use Rattle.five.specs.Filled.{Filled};

use session_memory::Five;

// The most numbers of a block, as a length.
const BLOCK_LIMIT: usize = phase::BLOCK_LIMIT as usize;

/// No numbers.
pub fn none() -> Five
    ensures { result ≡ no_five }
{
    Five {
        count: 0,
        items: [0u8; BLOCK_LIMIT],
    }
}

/// How many numbers are held.
pub fn count_of(f: Five) -> usize
    ensures { (result ≡ length (held f)) × (result ≤ block_limit) }
{
    f.count.min(phase::BLOCK_LIMIT) as usize
}

/// The numbers held.
pub fn in_use(f: &Five) -> &[u8]
    ensures { result.now ≡ held f.now }
{
    &f.items[..count_of(*f)]
}

/// These numbers and one more.
pub fn add(f: Five, x: u8) -> Five
    requires { Filled f × (f.count < block_limit) }
    ensures { result ≡ five_of (held f ++ (x ∷ [])) }
{
    let mut g = f;
    g.items[f.count as usize] = x;
    g.count += 1;
    g
}

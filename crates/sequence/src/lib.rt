// Sequence numbers: which of two is newer, across the wrap at 4096.
#![tactic(auto)]

ghost use Rattle.std.specs.Prelude.{◌≡◌};
ghost use Rattle.sequence.specs.Distance.{newer_of};

// Whether n is newer than m. The 16-bit difference wraps and its remainder by 4096 decides: 1..2047 is ahead, 0 is
// equal, and 2048..4095 is behind or 2048 apart.
pub fn newer(n: u16, m: u16) -> bool
    ensures { result ≡ newer_of n m }
{
    let d = n.wrapping_sub(m) % 4096;
    0 < d && d < 2048
}

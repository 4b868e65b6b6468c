// Octets copied to the front of a lent part.
#![tactic(auto)]

ghost use Rattle.std.specs.Prelude.{◌≡◌, ◌≤◌, ◌++◌, length, take, drop};

// Copies the octets of `from` to the front of `to`; the rest of `to` is as it was. Stays a function: at each use the slice of `to` would have to
// be cut to the length by hand, which is no plainer.
pub fn copy(from: &[u8], to: &mut [u8])
    requires { length from.now ≤ length to.old }
    ensures { to.new ≡ take (length from.now) from.now ++ drop (length from.now) to.old }
{
    to[..from.len()].copy_from_slice(from);
}

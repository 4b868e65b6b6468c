// Octets as text.
#![tactic(auto)]

use std::fmt;

// Octets in hex with small letters, two digits for each, and `-` where there is none.
#[derive(Clone, Copy)]
pub struct Hex<'a>(pub &'a [u8]);

impl fmt::Display for Hex<'_> {
    ghost use Rattle.std.specs.Prelude.{Some};
    ghost use Rattle.cases.specs.Text.{hex_text};

    ghost output = { λ h. Some (hex_text h.0.now) };

    fn fmt<W: fmt::Write>(&self, f: &mut fmt::Formatter<W>) -> fmt::Result {
        if self.0.is_empty() {
            return write!(f, "-");
        }
        for &octet in self.0 {
            write!(f, "{octet:02x}")?;
        }
        Ok(())
    }
}

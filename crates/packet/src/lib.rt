// Packets of the Inter-Access Point Protocol: their commands and fields. Where each field stands is in specs/Layout.antt.
#![tactic(auto)]

ghost use Rattle.std.specs.Prelude.{◌≡◌};
ghost use Rattle.packet.specs.Fields.{octet_of, Names};

use answers::Refusal;

// The commands. Each is its Command octet.
#[derive(Clone, Copy, Debug, PartialEq, Eq)]
pub enum Command {
    AddNotify,
    MoveNotify,
    MoveResponse,
}

// The Command octet.
impl From<Command> for u8 {
    ghost from_gives = { λ c n. n ≡ octet_of c };

    fn from(c: Command) -> u8 {
        c as u8
    }
}

// The command of a Command octet, or 3.
impl TryFrom<u8> for Command {
    type Error = Refusal;

    ghost try_from_gives = { Names };

    fn try_from(octet: u8) -> Result<Command, Refusal> {
        match octet {
            0 => Ok(Command::AddNotify),
            1 => Ok(Command::MoveNotify),
            2 => Ok(Command::MoveResponse),
            _ => Err(Refusal::UnknownCommand),
        }
    }
}

// A packet but for its context block. Only a MOVE-response has a status: 0 is SUCCESSFUL, 1 is STALE_MOVE.
#[derive(Clone, Copy, Debug, PartialEq, Eq)]
pub struct Packet {
    pub command: Command,
    pub identifier: u16,
    // Stays a number: the writer refuses one above 1 with 8, and an enum of the two would ask more of its caller.
    pub status: u8,
    pub station: [u8; 6],
    pub sequence: u16,
}

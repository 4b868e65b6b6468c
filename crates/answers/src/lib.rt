// What a call answers, and document 01's number for it.
#![tactic(auto)]

ghost use Rattle.std.specs.Prelude.{◌≡◌};
ghost use Rattle.answers.specs.Numbers.{refusal_number, number_of};

// Document 01, "Refusals by origin": why a call is refused. Each refusal is its number there.
#[derive(Clone, Copy, Debug, PartialEq, Eq)]
pub enum Refusal {
    // Whoever sends a packet.
    PacketTooShort = 1,
    WrongVersion,
    UnknownCommand,
    PacketCut,
    WrongLength,
    WrongAddressLength,
    SequenceOutOfRange,
    UnknownStatus,
    WrongContext,
    // Whoever lends a buffer.
    BufferTooShort,
    // Whoever gives an event.
    UnknownAccessPoint,
    UnknownPacket,
    GroupAddress,
    // Whoever sets up or lends a record.
    InvalidRecord,
    // Whoever gives a join.
    NotNewer,
    TableFull,
    MovesFull,
    // Whoever writes a script.
    UnreadableLine,
}

// What a call answers: it is accepted, or the refusal that decides.
pub type Answer = Result<(), Refusal>;

// Document 01's number of a refusal.
impl From<Refusal> for u8 {
    ghost from_gives = { λ r n. n ≡ refusal_number r };

    fn from(r: Refusal) -> u8 {
        r as u8
    }
}

// Document 01's number of an answer: 0, or the refusal's. Stays a function: the library's Result has no From into a number, and a crate
// can give it none.
pub fn number(a: Answer) -> u8
    ensures { result ≡ number_of a }
{
    match a {
        Ok(()) => 0,
        Err(r) => u8::from(r),
    }
}

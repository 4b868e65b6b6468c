// The writer of packets: fills the front of a lent buffer, leaves the rest, and returns the length.
#![tactic(auto)]

ghost use Rattle.std.specs.Prelude.{◌≡◌, []};
ghost use Rattle.packet.specs.Fields.{octet_of, fields_of};
ghost use Rattle.writer.specs.Write.{front_of, writing_of, write_to};

use answers::Refusal;
use packet::{Command, Packet};

// The first 18 octets of a MOVE; the first 16 are those of an ADD-notify.
#[tactic(auto, using(crate::proofs::Writing::of_front))]
fn front(p: Packet, size: u16, context: u16) -> [u8; 18]
    ensures { result ≡ front_of (octet_of p.command) p.status p.identifier size p.station p.sequence context }
{
    let identifier = p.identifier.to_be_bytes();
    let size = size.to_be_bytes();
    let station = p.station;
    let sequence = p.sequence.to_be_bytes();
    let context = context.to_be_bytes();
    [
        0,
        u8::from(p.command),
        identifier[0],
        identifier[1],
        size[0],
        size[1],
        6,
        p.status,
        station[0],
        station[1],
        station[2],
        station[3],
        station[4],
        station[5],
        sequence[0],
        sequence[1],
        context[0],
        context[1],
    ]
}

// An ADD-notify: it has neither status nor context.
#[tactic(auto, using(lists::proofs::Tables::tests), unfolding(crate::specs::Write::write_to, crate::specs::Write::writer_tests))]
fn write_add(p: Packet, buffer: &mut [u8]) -> Result<usize, Refusal>
    ensures { writing_of result buffer.new ≡ write_to (record { command = 0; identifier = p.identifier; status = 0; station = p.station; sequence = p.sequence; context = [] }) buffer.old }
{
    if 4095 < p.sequence {
        return Err(Refusal::SequenceOutOfRange);
    }
    if buffer.len() < 16 {
        return Err(Refusal::BufferTooShort);
    }
    let add = Packet {
        command: Command::AddNotify,
        status: 0,
        ..p
    };
    octets::copy(&front(add, 16, 0)[..16], buffer);
    Ok(16)
}

// A MOVE, with the status and the context given.
#[tactic(auto, using(lists::proofs::Tables::tests), unfolding(crate::specs::Write::write_to, crate::specs::Write::writer_tests))]
fn write_move(p: Packet, context: &[u8], buffer: &mut [u8]) -> Result<usize, Refusal>
    requires { octet_of p.command ≡ 0 → ⊥ }
    ensures { writing_of result buffer.new ≡ write_to (record { command = octet_of p.command; identifier = p.identifier; status = p.status; station = p.station; sequence = p.sequence; context = context.now }) buffer.old }
{
    if 4095 < p.sequence {
        return Err(Refusal::SequenceOutOfRange);
    }
    if 1 < p.status {
        return Err(Refusal::UnknownStatus);
    }
    let n = context.len();
    if 64 < n {
        return Err(Refusal::WrongContext);
    }
    if buffer.len() < 18 + n {
        return Err(Refusal::BufferTooShort);
    }
    octets::copy(&front(p, (18 + n) as u16, n as u16), buffer);
    octets::copy(context, &mut buffer[18..]);
    Ok(18 + n)
}

// Writes a packet at the front of the buffer, and answers how many octets that are. A MOVE has the context block given; an ADD-notify has none.
pub fn write(p: Packet, context: &[u8], buffer: &mut [u8]) -> Result<usize, Refusal>
    ensures { writing_of result buffer.new ≡ write_to (fields_of p context.now) buffer.old }
{
    match p.command {
        Command::AddNotify => write_add(p, buffer),
        Command::MoveNotify => write_move(Packet { status: 0, ..p }, context, buffer),
        Command::MoveResponse => write_move(p, context, buffer),
    }
}

// The reader of packets: the header first, then the data, the part that begins at octet 6, which is lent to the reader of each
// command's data.
#![tactic(auto)]

ghost use Rattle.std.specs.Prelude.{◌≡◌, ◌+◌, ◌≤◌, ◌<◌, [], ◌∷◌, length, take, drop, IfOk};
ghost use Rattle.lists.specs.Table.{first_of, accepts};
ghost use Rattle.answers.specs.Numbers.{number_of};
ghost use Rattle.packet.specs.Octets.{be16};
ghost use Rattle.packet.specs.Fields.{octet_of};
ghost use Rattle.packet.specs.Layout.{command_in, sequence_in, context_length_in};
ghost use Rattle.reader.specs.Refusals.{head_tests, front_tests, context_off};
ghost use Rattle.reader.specs.Read.{read_as, read_data, command_of, read_of, context_of};

use answers::Refusal;
use packet::Command;

// What an accepted packet says. The context block is the part of the packet from octet `start` on, of `len` octets. Stays two numbers, and
// no slice: document 01 asks for both in the promise, and C is given them.
#[derive(Clone, Copy, Debug, PartialEq, Eq)]
pub struct Received {
    pub command: Command,
    pub identifier: u16,
    // Stays a number, as it is in Packet and goes out to C.
    pub status: u8,
    pub station: [u8; 6],
    pub sequence: u16,
    pub start: usize,
    pub len: usize,
}

// The number in the two octets at i.
#[tactic(auto, unfolding(packet::specs::Octets::be16))]
fn number_at(s: &[u8], i: usize) -> u16
    requires { i + 1 < length s.now }
    ensures { result ≡ be16 s.now i }
{
    u16::from_be_bytes([s[i], s[i + 1]])
}

// The six octets at i.
fn station_at(s: &[u8], i: usize) -> [u8; 6]
    requires { i + 6 ≤ length s.now }
    ensures { result ≡ take 6 (drop i s.now) }
{
    [s[i], s[i + 1], s[i + 2], s[i + 3], s[i + 4], s[i + 5]]
}

// The header's command, or the header's refusal, 1 to 5.
#[tactic(auto, using(lists::proofs::Tables::tests), unfolding(crate::specs::Refusals::head_tests))]
fn header(packet: &[u8]) -> Result<Command, Refusal>
    ensures refusal { number_of result ≡ first_of (head_tests packet.now) }
    ensures command { IfOk result (λ c. octet_of c ≡ command_in packet.now) }
{
    if packet.len() < 6 {
        return Err(Refusal::PacketTooShort);
    }
    if packet[0] != 0 {
        return Err(Refusal::WrongVersion);
    }
    let command = Command::try_from(packet[1])?;
    let size = number_at(packet, 4) as usize;
    if packet.len() < size {
        return Err(Refusal::PacketCut);
    }
    if command == Command::AddNotify {
        if size != 16 {
            return Err(Refusal::WrongLength);
        }
    } else if size < 18 {
        return Err(Refusal::WrongLength);
    }
    Ok(command)
}

// What every command's data begins with: 6, 7, or the sequence number.
#[tactic(auto, using(lists::proofs::Tables::tests))]
fn sequence_of(data: &[u8]) -> Result<u16, Refusal>
    requires { 10 ≤ length «data».now }
    ensures refusal { number_of result ≡ first_of (front_tests «data».now) }
    ensures sequence { IfOk result (λ n. n ≡ sequence_in «data».now) }
{
    if data[0] != 6 {
        return Err(Refusal::WrongAddressLength);
    }
    let sequence = number_at(data, 8);
    if 4095 < sequence {
        return Err(Refusal::SequenceOutOfRange);
    }
    Ok(sequence)
}

// What a MOVE's data goes on with, in a packet of `size` octets: 9, or the length of the context block.
#[tactic(auto, using(lists::proofs::Tables::tests))]
fn context_length_of(size: usize, data: &[u8]) -> Result<usize, Refusal>
    requires { 12 ≤ length «data».now }
    ensures refusal { number_of result ≡ first_of ((context_off size «data».now, 9) ∷ []) }
    ensures length_value { IfOk result (λ n. n ≡ context_length_in «data».now) }
{
    let len = number_at(data, 10) as usize;
    if 64 < len || size != 18 + len {
        return Err(Refusal::WrongContext);
    }
    Ok(len)
}

// The data of an ADD-notify: its Reserved octet is ignored.
#[tactic(auto, using(std::proofs::lemmas::Grind::common_steps, crate::proofs::Steps::of_data))]
fn read_add(identifier: u16, data: &[u8]) -> Result<Received, Refusal>
    requires { 10 ≤ length «data».now }
    ensures { read_as result ≡ read_data 0 identifier 16 «data».now }
{
    let sequence = sequence_of(data)?;
    Ok(Received {
        command: Command::AddNotify,
        identifier,
        status: 0,
        station: station_at(data, 2),
        sequence,
        start: 0,
        len: 0,
    })
}

// The data of a MOVE-notify, in a packet of `size` octets: its Reserved octet is ignored.
#[tactic(auto, using(std::proofs::lemmas::Grind::common_steps, crate::proofs::Steps::of_data))]
fn read_notify(identifier: u16, size: usize, data: &[u8]) -> Result<Received, Refusal>
    requires { 12 ≤ length «data».now }
    ensures { read_as result ≡ read_data 1 identifier size «data».now }
{
    let sequence = sequence_of(data)?;
    let len = context_length_of(size, data)?;
    Ok(Received {
        command: Command::MoveNotify,
        identifier,
        status: 0,
        station: station_at(data, 2),
        sequence,
        start: 18,
        len,
    })
}

// The data of a MOVE-response, in a packet of `size` octets: its second octet is the Status.
#[tactic(auto, using(std::proofs::lemmas::Grind::common_steps, crate::proofs::Steps::of_data))]
fn read_response(identifier: u16, size: usize, data: &[u8]) -> Result<Received, Refusal>
    requires { 12 ≤ length «data».now }
    ensures { read_as result ≡ read_data 2 identifier size «data».now }
{
    let sequence = sequence_of(data)?;
    let status = data[1];
    if 1 < status {
        return Err(Refusal::UnknownStatus);
    }
    let len = context_length_of(size, data)?;
    Ok(Received {
        command: Command::MoveResponse,
        identifier,
        status,
        station: station_at(data, 2),
        sequence,
        start: 18,
        len,
    })
}

// The command of a Command octet that is at most 2; any other counts as a MOVE-response.
#[tactic(auto, using(crate::proofs::Steps::command_named))]
pub fn command_of(octet: u8) -> Command
    ensures { result ≡ command_of octet }
{
    Command::try_from(octet).unwrap_or(Command::MoveResponse)
}

// Reads a packet: the header, then the data, the part that begins at octet 6, by its command's reader.
#[tactic(auto, using(std::proofs::lemmas::Grind::common_steps, crate::proofs::Steps::of_read))]
#[inline(always)]
pub fn read(packet: &[u8]) -> Result<Received, Refusal>
    ensures { read_as result ≡ read_of packet.now }
{
    let command = header(packet)?;
    let identifier = number_at(packet, 2);
    let size = number_at(packet, 4) as usize;
    let data = &packet[6..];
    match command {
        Command::AddNotify => read_add(identifier, data),
        Command::MoveNotify => read_notify(identifier, size, data),
        Command::MoveResponse => read_response(identifier, size, data),
    }
}

// Whether the reader accepts a packet, for the test of 14, which asks no more.
#[tactic(auto, using(crate::proofs::Steps::of_reading))]
pub fn accepted(packet: &[u8]) -> bool
    ensures { result ≡ accepts (read_of packet.now).answer }
{
    read(packet).is_ok()
}

// The context block of a packet, as that part of it and no copy; empty where the packet is refused or is an ADD-notify.
#[tactic(auto, using(std::proofs::lemmas::Grind::common_steps, crate::proofs::Steps::of_context), unfolding(crate::specs::Read::context_of))]
pub fn context(packet: &[u8]) -> &[u8]
    ensures octets { result.now ≡ context_of packet.now }
    ensures start { (result.ref_ptr.0 ≡ packet.entry.ref_ptr.0) × (result.ref_ptr.1 ≡ (read_of packet.now).start + packet.entry.ref_ptr.1) }
    ensures len { length result.now ≡ (read_of packet.now).len }
{
    match read(packet) {
        Ok(r) => &packet[r.start..r.start + r.len],
        Err(_) => &packet[..0],
    }
}

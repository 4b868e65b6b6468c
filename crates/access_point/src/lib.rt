// One access point's record as a whole: whether 14 applies to it, a tick, and the call for outside bytes.
#![tactic(auto)]

ghost use Rattle.std.specs.Prelude.{◌≡◌, ◌≤◌, length};
ghost use Rattle.packet.specs.Fields.{fields_of};
ghost use Rattle.reader.specs.Read.{reading_of};
ghost use Rattle.writer.specs.Write.{writing_of, write_to};
ghost use Rattle.machine.specs.Packets.{packet_of};
ghost use Rattle.machine.specs.Valid.{valid_setup};
ghost use Rattle.record.specs.Valid.{valid_record, valid_lone_record, Usable};
ghost use Rattle.receiving.specs.Receive.{IsShort};
ghost use Rattle.access_point.specs.Tick.{ticking_of, tick_done};
ghost use Rattle.access_point.specs.Outside.{reply_fields, taken_at, outside_of, Unchanged, answer_done, outside_done};

use answers::Refusal;
use packet::{Command, Packet};
use reader::Received;
use receiving::Reply;
use structs::{AccessPoint, LoneAccessPoint, Moves};

// What a tick leaves: the record, the moves whose notice is sent again, and how many were given up.
#[derive(Clone, Copy)]
pub struct Ticking {
    pub point: AccessPoint,
    pub due: Moves,
    pub given_up: u8,
}

// What accepted outside bytes lead to: the record afterwards, and the length of the answer written. The length stays a number: a slice would
// keep the buffer lent.
#[derive(Clone, Copy)]
pub struct Answered {
    pub lone: LoneAccessPoint,
    pub len: usize,
}

// Whether 14 does not apply to the record where it stands, where the AP count is ap_count.
#[tactic(auto, using(record::proofs::ValidLaws::in_two))]
fn valid_at(a: &AccessPoint, ap_count: u8) -> bool
    requires { (length a.now.associations.items ≡ 16) × (length a.now.moves.items ≡ 8) }
    ensures { result ≡ valid_record ap_count a.now }
{
    associations::valid(&a.associations) && moves::valid(&a.moves, ap_count)
}

// Whether 14 does not apply to the record, where the AP count is ap_count.
pub fn valid(a: AccessPoint, ap_count: u8) -> bool
    ensures { result ≡ valid_record ap_count a }
{
    valid_at(&a, ap_count)
}

// Whether AP count, T and R are within document 01's limits: 14 does not apply to a set-up with them. Stay three numbers, here and in each
// set-up: C gives 16 bits for each, and Setup's are narrower.
#[tactic(auto, using(lists::proofs::Tables::tests), unfolding(machine::specs::Valid::valid_setup, machine::specs::Network::setup_tests))]
pub fn valid_setup(ap_count: u16, timeout: u16, resend_limit: u16) -> bool
    ensures { result ≡ valid_setup ap_count timeout resend_limit }
{
    matches!(ap_count, 1..=8) && timeout != 0 && resend_limit <= 7
}

// The same as `valid` of an AP alone where its record stands, with its own number, AP count, T and R.
#[tactic(auto, using(lists::proofs::Tables::tests), unfolding(record::specs::Valid::valid_lone_record))]
pub fn valid_lone_at(l: &LoneAccessPoint) -> bool
    requires { (length l.now.point.associations.items ≡ 16) × (length l.now.point.moves.items ≡ 8) }
    ensures { result ≡ valid_lone_record l.now }
{
    valid_setup(l.ap_count as u16, l.timeout, l.resend_limit as u16)
        && l.number < l.ap_count
        && valid_at(&l.point, l.ap_count)
}

// The same at a record that is handed over.
pub fn valid_lone(l: LoneAccessPoint) -> bool
    ensures { result ≡ valid_lone_record l }
{
    valid_lone_at(&l)
}

// What a tick sends again, and how many moves it gives up.
#[derive(Clone, Copy)]
pub struct Lapsed {
    pub due: Moves,
    pub given_up: u8,
}

// A tick of a record that is changed where it stands: each open move loses one; at 0 it is sent again or given up. The associations stay.
pub fn tick_in(a: &mut AccessPoint, timeout: u16) -> Lapsed
    requires usable { Usable a.old }
    requires rows { a.old.associations.count ≤ length a.old.associations.items }
    requires moves { a.old.moves.count ≤ length a.old.moves.items }
    ensures { ticking_of a.new result ≡ tick_done timeout a.old }
{
    let t = moves::tick(&a.moves, timeout);
    a.moves = t.kept;
    a.resent = a.resent.wrapping_add(t.due.count as u32);
    a.given_up = a.given_up.wrapping_add(t.given_up as u32);
    Lapsed {
        due: t.due,
        given_up: t.given_up,
    }
}

// The same of a record that is handed over.
pub fn tick(a: AccessPoint, timeout: u16) -> Ticking
    requires { Usable a }
    ensures { result ≡ tick_done timeout a }
{
    let mut point = a;
    let t = tick_in(&mut point, timeout);
    Ticking {
        point,
        due: t.due,
        given_up: t.given_up,
    }
}

// The answer to a packet, and its context: a MOVE-response with the packet's identifier, station and sequence number.
#[tactic(auto, unfolding(machine::specs::Packets::fields_as))]
pub fn response(r: Received, reply: &Reply) -> (Packet, &[u8])
    requires { IsShort reply.now }
    ensures { fields_of result.0 result.1.now ≡ reply_fields r reply.now }
{
    let station = r.station;
    let successful = Packet {
        command: Command::MoveResponse,
        identifier: r.identifier,
        status: 0,
        station,
        sequence: r.sequence,
    };
    match reply {
        Reply::Successful { len, context } => (successful, &context[..*len]),
        Reply::StaleMove => (
            Packet {
                status: 1,
                ..successful
            },
            &[],
        ),
    }
}

// Writes the answer to a packet.
pub fn write_reply(r: Received, reply: Reply, buffer: &mut [u8]) -> Result<usize, Refusal>
    requires { IsShort reply }
    ensures { writing_of result buffer.new ≡ write_to (reply_fields r reply) buffer.old }
{
    let (p, context) = response(r, &reply);
    writer::write(p, context, buffer)
}

// An accepted packet from the AP `from`, with its context block: the record acts where it stands, and its answer is written; 10 for a
// buffer too short.
fn answer_packet(
    l: &mut LoneAccessPoint,
    from: u8,
    r: Received,
    context: &[u8],
    buffer: &mut [u8],
) -> Result<usize, Refusal>
    requires slots { (length l.old.point.associations.items ≡ 16) × (length l.old.point.moves.items ≡ 8) }
    requires point_usable { Usable l.old.point }
    requires packet_limits { (length context.now ≤ 64) × (r.sequence ≤ 4095) }
    ensures taken_value { taken_at l.new result buffer.new ≡ answer_done l.old from (packet_of (reading_of r) context.now) buffer.old }
    ensures refused_value { Unchanged result l.new l.old }
{
    let x = excerpt::of(&l.point, r.station);
    let h = receiving::receive(x, from, r, context);
    let len = match h.reply {
        Some(reply) => write_reply(r, reply, buffer)?,
        None => 0,
    };
    excerpt::store(&mut l.point, &h.after);
    Ok(len)
}

// Outside bytes at an AP alone, from the AP `from`: 14, then 11, the reader's 1 to 9, and 10 for a buffer too short for the answer.
// The record is changed where it stands, and the answer, whose length is given, is written at the front of the lent buffer; refused,
// record and buffer are as they came.
pub fn outside_at(
    l: &mut LoneAccessPoint,
    from: u16,
    packet: &[u8],
    buffer: &mut [u8],
) -> Result<usize, Refusal>
    ensures taken_value { taken_at l.new result buffer.new ≡ outside_done l.old from packet.now buffer.old }
    ensures refused_value { Unchanged result l.new l.old }
{
    if !valid_lone(*l) {
        return Err(Refusal::InvalidRecord);
    }
    if l.ap_count as u16 <= from || from == l.number as u16 {
        return Err(Refusal::UnknownAccessPoint);
    }
    let r = reader::read(packet)?;
    let end = r.start + r.len;
    answer_packet(l, from as u8, r, &packet[r.start..end], buffer)
}

// The same at a record that is handed over.
pub fn outside(
    l: LoneAccessPoint,
    from: u16,
    packet: &[u8],
    buffer: &mut [u8],
) -> Result<Answered, Refusal>
    ensures { outside_of l result buffer.new ≡ outside_done l from packet.now buffer.old }
{
    let mut lone = l;
    let len = outside_at(&mut lone, from, packet, buffer)?;
    Ok(Answered { lone, len })
}

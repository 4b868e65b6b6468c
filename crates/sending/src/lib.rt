// What an access point sends: its packets written for the way, in order of sending.
#![tactic(auto)]

ghost use Rattle.std.specs.Prelude.{◌≡◌, true, [], ◌∷◌, map, ◌≤◌};
ghost use Rattle.lists.specs.Places.{every};
ghost use Rattle.packet.specs.Fields.{fields_of};
ghost use Rattle.machine.specs.Moves.{notices_of};
ghost use Rattle.machine.specs.Packets.{carried};
ghost use Rattle.machine.specs.AccessPoint.{add_notifies, answer_to};
ghost use Rattle.moves.specs.Asked.{asked};
ghost use Rattle.record.specs.Lens.{named};
ghost use Rattle.structs.specs.Lists.{get_moves};
ghost use Rattle.receiving.specs.Receive.{IsShort, message_in};
ghost use Rattle.in_flight.specs.Post.{outbox_of};
ghost use Rattle.sending.specs.Sends.{IsWithin, sent_as, add_packet, notify_to, sequence_within};

use packet::{Command, Packet};
use reader::Received;
use receiving::Reply;
use structs::{InFlight, Moves, Outbox};

// One packet sent.
#[tactic(auto, using(crate::proofs::Outboxes::outbox_one))]
pub fn one(p: InFlight) -> Outbox
    ensures { result ≡ outbox_of (p ∷ []) }
{
    let mut out = Outbox::none();
    out.push(p);
    out
}

// A packet on its way from one AP to another, with its context block: what is written stands at the front of 82 octets.
fn send(from: u8, to: u8, p: Packet, context: &[u8]) -> InFlight
    requires { IsWithin (fields_of p context.now) }
    ensures { result ≡ sent_as from to (fields_of p context.now) }
{
    let mut octets = [0; 82];
    let len = writer::write(p, context, &mut octets).unwrap();
    InFlight {
        from,
        to,
        len,
        octets,
    }
}

// A MOVE-notify from one AP to another, with no context.
#[tactic(auto, unfolding(machine::specs::Packets::carried, machine::specs::Packets::written, machine::specs::Packets::fields_as))]
pub fn move_notify(from: u8, to: u8, identifier: u16, station: [u8; 6], sequence: u16) -> InFlight
    requires { sequence ≤ 4095 }
    ensures { result ≡ carried from (notify_to to identifier station sequence) }
{
    let notify = Packet {
        command: Command::MoveNotify,
        identifier,
        status: 0,
        station,
        sequence,
    };
    send(from, to, notify, &[])
}

// The answer to the packet r, back to its sender.
#[tactic(auto, using(crate::proofs::Carried::reply_within))]
pub fn response(from: u8, to: u8, r: Received, reply: Reply) -> InFlight
    requires { IsShort reply × (r.sequence ≤ 4095) }
    ensures { result ≡ carried from (answer_to to (asked r.identifier r.station r.sequence) (message_in reply)) }
{
    let (p, context) = access_point::response(r, &reply);
    send(from, to, p, context)
}

// The announcement of a station that joined AP `own` of ap_count: one ADD-notify to every other AP, in rising number. All copies have the
// same octets. Stays a loop over the APs' numbers: they go into the packets, and no list has them.
pub fn announce(own: u8, ap_count: u8, identifier: u16, station: [u8; 6], sequence: u16) -> Outbox
    requires { (sequence ≤ 4095) × (ap_count ≤ 8) }
    ensures { result ≡ outbox_of (map (carried own) (add_notifies own (add_packet identifier station sequence) 0 ap_count)) }
{
    let add = Packet {
        command: Command::AddNotify,
        identifier,
        status: 0,
        station,
        sequence,
    };
    let p = send(own, 0, add, &[]);
    let mut out = Outbox::none();
    for to in 0..ap_count {
        if to != own {
            out.push(InFlight { to, ..p });
        }
    }
    out
}

// The notices of the moves that are due, sent again in order.
pub fn resend(own: u8, due: Moves) -> Outbox
    requires { (due.count ≤ 8) × (every sequence_within (get_moves due) ≡ true) }
    ensures { result ≡ outbox_of (map (carried own) (notices_of (map named (get_moves due)))) }
{
    let mut out = Outbox::none();
    for m in due.used() {
        let p = move_notify(own, m.old, m.identifier, m.station, m.sequence);
        out.push(p);
    }
    out
}

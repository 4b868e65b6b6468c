// One access point alone, its record by value: set-up, the events that it gives itself, and outside bytes. The packets that it sends are
// written one after the other at the front of a lent buffer.
#![tactic(auto)]

ghost use Rattle.std.specs.Prelude.{Ok, ◌≡◌, ◌≤◌, ◌<◌, ◌^◌, length};
ghost use Rattle.std.specs.List.{sum_by};
ghost use Rattle.answers.specs.Numbers.{number_of};
ghost use Rattle.actions.specs.Done.{done_of};
ghost use Rattle.alone.specs.Told.{told_of, reply_with, answered, front_of, set_up_alone, old_named, join_alone, leave_alone, tick_alone, outside_alone, who_alone};
ghost use Rattle.alone.specs.Front.{len_of, outbox_octets, outbox_receivers, Packed, Sends, posted_of, posted_into, tell};

use actions::{Action, Joining};
use answers::{Answer, Refusal};
use structs::{InFlight, LoneAccessPoint, Outbox, Request, Setup};

// What a call answers: document 01's number, how many packets were written and how many moves given up, whether the station has a
// row, the receivers of the packets in order, and the length written. What a call has no use for is 0. Stays numbers, since C is given it.
#[repr(C)]
#[derive(Clone, Copy)]
pub struct Reply {
    pub answer: u8,
    pub sent: u8,
    pub given_up: u8,
    pub held: u8,
    pub to: [u8; 8],
    pub len: usize,
}

// The record after a call, and its reply. Stays a struct of its own, as lent's Outcome: the fields' names say more than type arguments would.
#[derive(Clone, Copy)]
pub struct Outcome {
    pub lone: LoneAccessPoint,
    pub reply: Reply,
}

// A reply with nothing but its answer.
fn reply_with(answer: Answer) -> Reply
    ensures { result ≡ reply_with (number_of answer) }
{
    Reply {
        answer: answers::number(answer),
        sent: 0,
        given_up: 0,
        held: 0,
        to: [0; 8],
        len: 0,
    }
}

// The record, and a reply with nothing but its answer.
fn answered(lone: LoneAccessPoint, answer: Answer) -> Outcome
    ensures { result ≡ answered (number_of answer) lone }
{
    Outcome {
        lone,
        reply: reply_with(answer),
    }
}

// AP `number` of ap_count, empty, with T and R: 14, or the new record.
#[tactic(auto, using(lists::proofs::Tables::tests), unfolding(crate::specs::Told::set_up_alone))]
pub fn set_up(
    lone: LoneAccessPoint,
    number: u16,
    ap_count: u16,
    timeout: u16,
    resend_limit: u16,
) -> Outcome
    ensures { result ≡ set_up_alone lone number ap_count timeout resend_limit }
{
    if !access_point::valid_setup(ap_count, timeout, resend_limit) {
        return answered(lone, Err(Refusal::InvalidRecord));
    }
    if ap_count <= number {
        return answered(lone, Err(Refusal::InvalidRecord));
    }
    let new = LoneAccessPoint {
        point: network::new_point(),
        number: number as u8,
        ap_count: ap_count as u8,
        timeout,
        resend_limit: resend_limit as u8,
    };
    answered(new, Ok(()))
}

// The packets' lengths, added up.
fn total(packets: &[InFlight]) -> usize
    requires { sum_by len_of packets.now < 2 ^ 64 }
    ensures { result ≡ sum_by len_of packets.now }
{
    packets.iter().map(|p| p.len).sum()
}

// How many octets the packets have together.
fn length_of(sent: &Outbox) -> usize
    requires { Packed sent.now }
    ensures { result ≡ length (outbox_octets sent.now) }
{
    total(sent.used())
}

// The packets' receivers, in order.
fn receivers(sent: &Outbox) -> [u8; 8]
    requires { Packed sent.now }
    ensures { result ≡ outbox_receivers sent.now }
{
    let mut to = [0; 8];
    for (i, p) in sent.used().iter().enumerate() {
        to[i] = p.to;
    }
    to
}

// Writes the packets one after the other at the front of the buffer, which is long enough.
fn write_all(buffer: &mut [u8], sent: &Outbox)
    requires packed { Packed sent.now }
    requires sent_in_bounds { length (outbox_octets sent.now) ≤ length buffer.old }
    ensures { buffer.new ≡ front_of (outbox_octets sent.now) buffer.old }
{
    let mut at = 0;
    for p in sent.used() {
        octets::copy(&p.octets[..p.len], &mut buffer[at..]);
        at += p.len;
    }
}

// What the AP sent, told: its packets are written, or it is 10, and then the buffer is as it came. Stays the reply that C is given, with its
// number: a Result of it would be made a reply again by each caller.
fn post(buffer: &mut [u8], sent: &Outbox, given_up: u8) -> Reply
    requires { Packed sent.now }
    ensures { posted_of result buffer.new ≡ posted_into 0 sent.now given_up buffer.old }
{
    let len = length_of(sent);
    if buffer.len() < len {
        return reply_with(Err(Refusal::BufferTooShort));
    }
    write_all(buffer, sent);
    Reply {
        answer: 0,
        sent: sent.count as u8,
        given_up,
        held: 0,
        to: receivers(sent),
        len,
    }
}

// What the AP did, told: its packets are written. Where the reply refuses, the record is as it came.
fn told(mut lone: LoneAccessPoint, buffer: &mut [u8], t: Action) -> Outcome
    requires { Sends t.sent }
    ensures { told_of result buffer.new ≡ tell lone (done_of lone.point (Ok t)) (posted_into 0 t.sent t.given_up buffer.old) }
{
    let told = post(buffer, &t.sent, t.given_up);
    if told.answer == 0 {
        lone.point = t.point;
    }
    Outcome { lone, reply: told }
}

// The old AP that a join names: 4294967295 is none, and a number above 65535 is no AP's.
#[tactic(auto, using(lists::proofs::Tables::tests), unfolding(crate::specs::Told::old_named))]
pub fn old_named(old: u32) -> Option<u16>
    ensures { result ≡ old_named old }
{
    if old == u32::MAX {
        return None;
    }
    Some(u16::try_from(old).unwrap_or(u16::MAX))
}

// What an accepted join sends, told: its packets are written, or it is 10.
fn post_joined(buffer: &mut [u8], j: Joining) -> Reply
    requires { Sends j.sent }
    ensures { posted_of result buffer.new ≡ posted_into 0 j.sent 0 buffer.old }
{
    post(buffer, &j.sent, 0)
}

// A station joins: 14, 13, 7, 9, 15, 16, 17, then 10 for a buffer too short for the packets.
pub fn join(
    mut lone: LoneAccessPoint,
    buffer: &mut [u8],
    station: &[u8; 6],
    sequence: u16,
    old: u32,
    context: &[u8],
) -> Outcome
    ensures { told_of result buffer.new ≡ join_alone lone station.now sequence (old_named old) context.now buffer.old }
{
    if !access_point::valid_lone_at(&lone) {
        return answered(lone, Err(Refusal::InvalidRecord));
    }
    let setup = Setup {
        ap_count: lone.ap_count,
        timeout: lone.timeout,
        resend_limit: lone.resend_limit,
    };
    let request = Request {
        station: *station,
        sequence,
        old: old_named(old),
    };
    let x = excerpt::of(&lone.point, *station);
    match actions::join_excerpt(x, lone.number as u16, setup, request, context) {
        Err(r) => answered(lone, Err(r)),
        Ok(j) => {
            let reply = post_joined(buffer, j);
            if reply.answer == 0 {
                excerpt::store(&mut lone.point, &j.after);
            }
            Outcome { lone, reply }
        }
    }
}

// A station leaves: 14, 13, then its association is removed.
pub fn leave(mut lone: LoneAccessPoint, station: &[u8; 6]) -> Outcome
    ensures { result ≡ leave_alone lone station.now }
{
    if !access_point::valid_lone_at(&lone) {
        return answered(lone, Err(Refusal::InvalidRecord));
    }
    if actions::is_group(*station) {
        return answered(lone, Err(Refusal::GroupAddress));
    }
    let y = receiving::leave(excerpt::of(&lone.point, *station));
    excerpt::store(&mut lone.point, &y);
    answered(lone, Ok(()))
}

// A tick: 14, then 10 for a buffer too short for the notices that are sent again.
pub fn tick(lone: LoneAccessPoint, buffer: &mut [u8]) -> Outcome
    ensures { told_of result buffer.new ≡ tick_alone lone buffer.old }
{
    if !access_point::valid_lone_at(&lone) {
        return answered(lone, Err(Refusal::InvalidRecord));
    }
    let number = lone.number as u16;
    match actions::tick(lone.point, number, lone.ap_count, lone.timeout) {
        Ok(t) => told(lone, buffer, t),
        Err(r) => answered(lone, Err(r)),
    }
}

// Outside bytes from the AP `from`: 14, 11, the reader's 1 to 9, then 10 for a buffer too short for the answer, which goes to `from`.
pub fn outside(mut lone: LoneAccessPoint, buffer: &mut [u8], from: u16, packet: &[u8]) -> Outcome
    ensures { told_of result buffer.new ≡ outside_alone lone from packet.now buffer.old }
{
    let mut reply = reply_with(Ok(()));
    match access_point::outside_at(&mut lone, from, packet, buffer) {
        Ok(len) => {
            if 0 < len {
                reply.sent = 1;
                reply.to[0] = from as u8;
                reply.len = len;
            }
        }
        Err(refusal) => reply = reply_with(Err(refusal)),
    }
    Outcome { lone, reply }
}

// Whether the AP has a row of the station: 14, 13.
pub fn who(lone: LoneAccessPoint, station: &[u8; 6]) -> Outcome
    ensures { result ≡ who_alone lone station.now }
{
    if !access_point::valid_lone_at(&lone) {
        return answered(lone, Err(Refusal::InvalidRecord));
    }
    let group = actions::is_group(*station);
    if group {
        return answered(lone, Err(Refusal::GroupAddress));
    }
    let t = &lone.point.associations;
    let mut reply = reply_with(Ok(()));
    if associations::find(t, *station) < t.count {
        reply.held = 1;
    }
    Outcome { lone, reply }
}

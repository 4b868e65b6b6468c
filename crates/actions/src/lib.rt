// What an access point does at an event: its answer, its record afterwards, and its packets, written and in order of sending.
#![tactic(auto)]

ghost use Rattle.std.specs.Prelude.{◌≡◌, true, [], map, ◌≤◌, ◌<◌, IfOk};
ghost use Rattle.machine.specs.Stations.{is_group};
ghost use Rattle.lists.specs.Places.{every};
ghost use Rattle.machine.specs.Packets.{carried, readable, octets_in};
ghost use Rattle.structs.specs.Lists.{get_moves};
ghost use Rattle.record.specs.Valid.{Usable};
ghost use Rattle.sending.specs.Sends.{sequence_within};
ghost use Rattle.in_flight.specs.Post.{outbox_of};
ghost use Rattle.excerpt.specs.Excerpts.{put_back, Allowed, Seen};
ghost use Rattle.joining.specs.Join.{sends_by};
ghost use Rattle.structs.specs.declared.AccessPoint.{AccessPoint};
ghost use Rattle.actions.specs.Done.{Spans, Left, Unsent, quietly, done_of, done_in, joining_of, join_of, leave_of, tick_of, receive_of, lose_of};

use answers::Refusal;
use excerpt::Excerpt;
use joining::Notice;
use structs::{AccessPoint, InFlight, Outbox, Request, Setup};

// What an accepted event does: the record afterwards, the packets sent, and how many moves were given up.
#[derive(Clone, Copy)]
pub struct Action {
    pub point: AccessPoint,
    pub sent: Outbox,
    pub given_up: u8,
}

// The record a afterwards, and nothing else.
#[tactic(auto, using(sending::proofs::Outboxes::outbox_none))]
pub fn quietly(a: AccessPoint) -> Action
    ensures { result ≡ quietly a }
{
    Action {
        point: a,
        sent: Outbox::none(),
        given_up: 0,
    }
}

// Whether the station's first octet is odd.
#[tactic(auto, using(crate::proofs::Laws::first_octet))]
pub fn is_group(station: [u8; 6]) -> bool
    ensures { result ≡ is_group station }
{
    station[0] % 2 == 1
}

// What a join at AP `own` of ap_count sends.
fn notice_sent(own: u8, ap_count: u8, station: [u8; 6], sequence: u16, notice: Notice) -> Outbox
    requires { (sequence ≤ 4095) × (ap_count ≤ 8) }
    ensures { result ≡ outbox_of (map (carried own) (sends_by own ap_count station sequence notice)) }
{
    match notice {
        Notice::Silent => Outbox::none(),
        Notice::Announce(identifier) => {
            sending::announce(own, ap_count, identifier, station, sequence)
        }
        Notice::Notify(identifier, old) => {
            sending::one(sending::move_notify(own, old, identifier, station, sequence))
        }
    }
}

// What an accepted join does, on an excerpt of the AP's record for the station.
#[derive(Clone, Copy)]
pub struct Joining {
    pub after: Excerpt,
    pub sent: Outbox,
}

// A station joins AP `at` of a floor: 11, 13, 7, 9, then the AP's own 15, 16, 17. Put back into the record that x is of, it is the machine's.
pub fn join_excerpt(
    x: Excerpt,
    at: u16,
    setup: Setup,
    request: Request,
    context: &[u8],
) -> Result<Joining, Refusal>
    requires { setup.ap_count ≤ 8 }
    ensures result_value { (a : AccessPoint) → Seen request.station a x → joining_of a result ≡ join_of at setup.ap_count setup.timeout setup.resend_limit request.station request.sequence request.old context.now a }
    ensures allowed { (a : AccessPoint) → Seen request.station a x → IfOk result (λ j. Allowed j.after.edit j.after.at a.associations.count) }
{
    if setup.ap_count as u16 <= at {
        return Err(Refusal::UnknownAccessPoint);
    }
    if is_group(request.station) {
        return Err(Refusal::GroupAddress);
    }
    if 4095 < request.sequence {
        return Err(Refusal::SequenceOutOfRange);
    }
    if 64 < context.len() {
        return Err(Refusal::WrongContext);
    }
    let own = at as u8;
    let j = joining::join(x, own, setup, request, context)?;
    Ok(Joining {
        after: j.after,
        sent: notice_sent(
            own,
            setup.ap_count,
            request.station,
            request.sequence,
            j.notice,
        ),
    })
}

// The same at the AP's whole record, which is changed where it stands. What is sent goes into `sent`, which holds nothing before.
pub fn join_in(
    a: &mut AccessPoint,
    sent: &mut Outbox,
    at: u16,
    setup: Setup,
    request: Request,
    context: &[u8],
) -> Result<u8, Refusal>
    requires usable { Usable a.old × Spans a.old }
    requires sent_value { sent.old ≡ outbox_of [] }
    requires ap_count_bound { setup.ap_count ≤ 8 }
    ensures done { done_in a.old a.new sent.new result ≡ join_of at setup.ap_count setup.timeout setup.resend_limit request.station request.sequence request.old context.now a.old }
    ensures refused { Left result a.new a.old }
    ensures unsent { Unsent result sent.new sent.old }
{
    let x = excerpt::of(a, request.station);
    let j = join_excerpt(x, at, setup, request, context)?;
    excerpt::store(a, &j.after);
    *sent = j.sent;
    Ok(0)
}

// A join of a record that is handed over.
#[tactic(auto, using(sending::proofs::Outboxes::outbox_none))]
pub fn join(
    a: AccessPoint,
    at: u16,
    setup: Setup,
    request: Request,
    context: &[u8],
) -> Result<Action, Refusal>
    requires usable { Usable a }
    requires ap_count_bound { setup.ap_count ≤ 8 }
    ensures { done_of a result ≡ join_of at setup.ap_count setup.timeout setup.resend_limit request.station request.sequence request.old context.now a }
{
    let mut point = a;
    let mut sent = Outbox::none();
    let given_up = join_in(&mut point, &mut sent, at, setup, request, context)?;
    Ok(Action {
        point,
        sent,
        given_up,
    })
}

// A station leaves AP `at` of ap_count: 11, 13, then its association is removed. Nothing is sent.
pub fn leave_in(a: &mut AccessPoint, at: u16, ap_count: u8, station: [u8; 6]) -> Result<u8, Refusal>
    requires { Usable a.old × Spans a.old }
    ensures done { done_in a.old a.new (outbox_of []) result ≡ leave_of at ap_count station a.old }
    ensures refused { Left result a.new a.old }
{
    if ap_count as u16 <= at {
        return Err(Refusal::UnknownAccessPoint);
    }
    if is_group(station) {
        return Err(Refusal::GroupAddress);
    }
    let left = receiving::leave(excerpt::of(a, station));
    excerpt::store(a, &left);
    Ok(0)
}

// A leave of a record that is handed over.
#[tactic(auto, using(sending::proofs::Outboxes::outbox_none))]
pub fn leave(a: AccessPoint, at: u16, ap_count: u8, station: [u8; 6]) -> Result<Action, Refusal>
    requires { Usable a }
    ensures { done_of a result ≡ leave_of at ap_count station a }
{
    let mut point = a;
    let given_up = leave_in(&mut point, at, ap_count, station)?;
    Ok(Action {
        point,
        sent: Outbox::none(),
        given_up,
    })
}

// A tick at AP `at` of ap_count: 11, then the notices of the moves that are due are sent again. Takes AP count and T, and no Setup: it has no
// use for R.
pub fn tick_in(
    a: &mut AccessPoint,
    sent: &mut Outbox,
    at: u16,
    ap_count: u8,
    timeout: u16,
) -> Result<u8, Refusal>
    requires usable { Usable a.old × Spans a.old }
    requires sent_value { sent.old ≡ outbox_of [] }
    requires moves_value { every sequence_within (get_moves a.old.moves) ≡ true }
    ensures done { done_in a.old a.new sent.new result ≡ tick_of at ap_count timeout a.old }
    ensures refused { Left result a.new a.old }
    ensures unsent { Unsent result sent.new sent.old }
{
    if ap_count as u16 <= at {
        return Err(Refusal::UnknownAccessPoint);
    }
    let t = access_point::tick_in(a, timeout);
    *sent = sending::resend(at as u8, t.due);
    Ok(t.given_up)
}

// A tick of a record that is handed over.
#[tactic(auto, using(sending::proofs::Outboxes::outbox_none))]
pub fn tick(a: AccessPoint, at: u16, ap_count: u8, timeout: u16) -> Result<Action, Refusal>
    requires usable { Usable a }
    requires moves_value { every sequence_within (get_moves a.moves) ≡ true }
    ensures { done_of a result ≡ tick_of at ap_count timeout a }
{
    let mut point = a;
    let mut sent = Outbox::none();
    let given_up = tick_in(&mut point, &mut sent, at, ap_count, timeout)?;
    Ok(Action {
        point,
        sent,
        given_up,
    })
}

// Packet p, number `at` of `count` in flight, is handed to its receiver, whose record is a: 12, then the receiver acts.
pub fn receive_in(
    a: &mut AccessPoint,
    sent: &mut Outbox,
    p: &InFlight,
    at: u16,
    count: usize,
) -> Result<u8, Refusal>
    requires usable { Usable a.old × Spans a.old }
    requires sent_value { sent.old ≡ outbox_of [] }
    requires len_bound { at < count → (p.now.len ≤ 82) × (readable (octets_in p.now) ≡ true) }
    ensures done { done_in a.old a.new sent.new result ≡ receive_of at count p.now a.old }
    ensures refused { Left result a.new a.old }
    ensures unsent { Unsent result sent.new sent.old }
{
    if count <= at as usize {
        return Err(Refusal::UnknownPacket);
    }
    let octets = &p.octets[..p.len];
    let r = reader::read(octets).unwrap();
    let end = r.start + r.len;
    let x = excerpt::of(a, r.station);
    let h = receiving::receive(x, p.from, r, &octets[r.start..end]);
    excerpt::store(a, &h.after);
    if let Some(reply) = h.reply {
        *sent = sending::one(sending::response(p.to, p.from, r, reply));
    }
    Ok(0)
}

// A packet received at a record that is handed over.
#[tactic(auto, using(sending::proofs::Outboxes::outbox_none))]
pub fn receive(a: AccessPoint, p: InFlight, at: u16, count: usize) -> Result<Action, Refusal>
    requires usable { Usable a }
    requires len_bound { at < count → (p.len ≤ 82) × (readable (octets_in p) ≡ true) }
    ensures { done_of a result ≡ receive_of at count p a }
{
    let mut point = a;
    let mut sent = Outbox::none();
    let given_up = receive_in(&mut point, &mut sent, &p, at, count)?;
    Ok(Action {
        point,
        sent,
        given_up,
    })
}

// Packet `at` of `count` in flight is lost: 12. No AP acts, and nothing is sent.
pub fn lose_in(at: u16, count: usize) -> Result<u8, Refusal>
    ensures { (a : AccessPoint) → done_in a a (outbox_of []) result ≡ lose_of at count a }
{
    if (at as usize) < count {
        return Ok(0);
    }
    Err(Refusal::UnknownPacket)
}

// The same, with a record that stays.
#[tactic(auto, using(sending::proofs::Outboxes::outbox_none))]
pub fn lose(a: AccessPoint, at: u16, count: usize) -> Result<Action, Refusal>
    ensures { done_of a result ≡ lose_of at count a }
{
    let given_up = lose_in(at, count)?;
    Ok(Action {
        point: a,
        sent: Outbox::none(),
        given_up,
    })
}

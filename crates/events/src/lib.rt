// The floor's events, taken apart. Whoever holds a network asks here which packet and which access point an event is about, what that does,
// and what is then in flight, and stores the two: nothing else of the network changes, and nothing else is copied.
#![tactic(auto)]

ghost use Rattle.std.specs.Prelude.{ℕ, ◌≡◌, true, cond, List, [], None, map, ◌+◌, ◌*◌, ◌≤◌, ◌<◌, ltb, length};
ghost use Rattle.lists.specs.Places.{every, All};
ghost use Rattle.machine.specs.Packets.{readable, octets_in};
ghost use Rattle.machine.specs.Events as machine;
ghost use Rattle.machine.specs.Events.{held_by, holds};
ghost use Rattle.record.specs.Lens.{get_point};
ghost use Rattle.structs.specs.Lists.{get_moves};
ghost use Rattle.record.specs.Valid.{Usable};
ghost use Rattle.sending.specs.Sends.{sequence_within};
ghost use Rattle.in_flight.specs.Post.{outbox_of};
ghost use Rattle.actions.specs.Done.{Spans, Left, Unsent, done_of, done_in};
ghost use Rattle.events.specs.Event.{is_who, event_from};
ghost use Rattle.events.specs.Apart.{packet_for, point_for, taken_for, action_for, settled_by};

use actions::Action;
use answers::Refusal;
use structs::{AccessPoint, Event, InFlight, InFlights, Kind, Outbox, Request, Setup};

// The packet that the event is about, of `count` in flight; 0 where it is about none.
pub fn packet_of(kind: Kind, at: u16, count: usize) -> usize
    ensures { result ≡ packet_for kind at count }
{
    match kind {
        Kind::Deliver | Kind::Repeat | Kind::Lose if (at as usize) < count => at as usize,
        _ => 0,
    }
}

// The AP that acts, of ap_count; 0 where none does. The packet goes to the AP `to`.
pub fn point_of(kind: Kind, at: u16, ap_count: u8, count: usize, to: u8) -> u8
    ensures { result ≡ point_for kind at ap_count count to }
{
    match kind {
        Kind::Join | Kind::Leave | Kind::Tick if at < ap_count as u16 => at as u8,
        Kind::Deliver | Kind::Repeat if (at as usize) < count => to,
        _ => 0,
    }
}

// Whether the event takes its packet out.
pub fn takes(kind: Kind, at: u16, count: usize) -> bool
    ensures { result ≡ taken_for kind at count }
{
    matches!(kind, Kind::Deliver | Kind::Lose) && (at as usize) < count
}

// Whether the event is a who, at which no AP acts. Stays a function: contracts name it.
pub fn is_who(kind: Kind) -> bool
    ensures { result ≡ is_who kind }
{
    kind == Kind::Who
}

// What the AP that acts does, its record a changed where it stands: the packet is p. What is sent goes into `sent`, which holds nothing before.
pub fn act(
    a: &mut AccessPoint,
    sent: &mut Outbox,
    e: Event,
    context: &[u8],
    setup: Setup,
    count: usize,
    p: &InFlight,
) -> Result<u8, Refusal>
    requires usable { Usable a.old × Spans a.old }
    requires sent_value { sent.old ≡ outbox_of [] }
    requires moves_value { (every sequence_within (get_moves a.old.moves) ≡ true) × (setup.ap_count ≤ 8) }
    requires len_bound { e.at < count → (p.now.len ≤ 82) × (readable (octets_in p.now) ≡ true) }
    ensures done { done_in a.old a.new sent.new result ≡ action_for e.kind e.at e.station e.sequence e.old context.now setup.ap_count setup.timeout setup.resend_limit count a.old p.now }
    ensures refused { Left result a.new a.old }
    ensures unsent { Unsent result sent.new sent.old }
{
    let Event {
        kind,
        at,
        station,
        sequence,
        old,
    } = e;
    match kind {
        Kind::Join => {
            let request = Request {
                station,
                sequence,
                old,
            };
            actions::join_in(a, sent, at, setup, request, context)
        }
        Kind::Leave => actions::leave_in(a, at, setup.ap_count, station),
        Kind::Deliver | Kind::Repeat => actions::receive_in(a, sent, p, at, count),
        Kind::Lose => actions::lose_in(at, count),
        Kind::Tick => actions::tick_in(a, sent, at, setup.ap_count, setup.timeout),
        Kind::Who => Ok(0),
    }
}

// The same with a record that is handed over.
#[tactic(auto, using(sending::proofs::Outboxes::outbox_none))]
pub fn action(
    e: Event,
    context: &[u8],
    setup: Setup,
    count: usize,
    a: AccessPoint,
    p: InFlight,
) -> Result<Action, Refusal>
    requires usable { Usable a }
    requires moves_value { (every sequence_within (get_moves a.moves) ≡ true) × (setup.ap_count ≤ 8) }
    requires len_bound { e.at < count → (p.len ≤ 82) × (readable (octets_in p) ≡ true) }
    ensures { done_of a result ≡ action_for e.kind e.at e.station e.sequence e.old context.now setup.ap_count setup.timeout setup.resend_limit count a p }
{
    let mut point = a;
    let mut sent = Outbox::none();
    let given_up = act(&mut point, &mut sent, e, context, setup, count, &p)?;
    Ok(Action {
        point,
        sent,
        given_up,
    })
}

// Changes the packets in flight: packet k is taken out or not, and then what was sent is put in flight. `taken` stays a bool
// beside k: a repeated packet has a place too, and is not taken out.
pub fn settle(t: &mut InFlights, taken: bool, k: usize, sent: &Outbox)
    requires { (t.old.count ≤ 64) × (length t.old.items ≡ 64) × (sent.now.count ≤ 8) × (taken ≡ true → k < t.old.count) }
    ensures { t.new ≡ settled_by taken k sent.now t.old }
{
    if taken {
        t.remove(k);
    }
    in_flight::post(t, sent);
}

// HELD from an AP on: `held` is that of the APs after it, whose bits move up, and its own is the lowest.
pub fn held_from(a: &AccessPoint, station: [u8; 6], held: u8) -> u8
    requires usable { Usable a.now }
    requires held_bound { held < 128 }
    ensures { result ≡ cond (holds station (get_point a.now)) 1 0 + 2 * held }
{
    let t = &a.associations;
    held * 2 + u8::from(associations::find(t, station) < t.used().len())
}

// HELD: bit i is set if AP i has a row of the station. Stays a loop over places: with `iter().rev()` its proof did not close.
pub fn holders(points: &[AccessPoint], station: [u8; 6]) -> u8
    requires { (length points.now ≤ 8) × All Usable points.now }
    ensures { result ≡ held_by station (map get_point points.now) }
{
    let mut held: u8 = 0;
    for i in (0..points.len()).rev() {
        held = held_from(&points[i], station, held);
    }
    held
}

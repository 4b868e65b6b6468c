// The floor: a network's record, lent. Each call tests the whole record first (14) and is then document 01's event; refused, the record is as
// it came. `old` is the number of the old AP, or 4294967295 for none.
// The record has 18 KB. All events go through one function, into which everything below it is inlined: called by value from each export, an
// event would copy the record twice more.
ghost use Rattle.std.specs.Prelude.{◌≡◌};
ghost use Rattle.machine.specs.Events as machine;
ghost use Rattle.network.specs.Events.{event_of};
ghost use Rattle.alone.specs.Told.{old_named};
ghost use Rattle.lent.specs.Told.{lent_of, set_up_over, asked_of};

use lent::{Asked, Line};
use structs::Network;

// A floor of ap_count APs, all empty, with T and R, in the place of the record: 14.
#[unsafe(no_mangle)]
pub extern "C" fn skel_set_up(
    net: &mut Network,
    ap_count: u16,
    timeout: u16,
    resend_limit: u16,
) -> Line
    ensures { lent_of result net.new ≡ set_up_over net.old ap_count timeout resend_limit }
{
    let o = lent::set_up(*net, ap_count, timeout, resend_limit);
    *net = o.network;
    o.line
}

// What is asked, done at the record.
fn event_at(net: &mut Network, q: Asked) -> Line
    ensures { lent_of result net.new ≡ event_of net.old (asked_of q) }
{
    let o = lent::event(*net, q);
    *net = o.network;
    o.line
}

// A station joins AP `at`, coming from the AP `old`: 14, 11, 13, 7, 9, 15, 16, 17.
#[unsafe(no_mangle)]
pub extern "C" fn skel_join(
    net: &mut Network,
    at: u16,
    station: &[u8; 6],
    sequence: u16,
    old: u32,
    context: &[u8],
) -> Line
    ensures { lent_of result net.new ≡ event_of net.old (machine.join at station.now sequence (old_named old) context.now) }
{
    let q = lent::join(at, station, sequence, old, context);
    event_at(net, q)
}

// A station leaves AP `at`: 14, 11, 13.
#[unsafe(no_mangle)]
pub extern "C" fn skel_leave(net: &mut Network, at: u16, station: &[u8; 6]) -> Line
    ensures { lent_of result net.new ≡ event_of net.old (machine.leave at station.now) }
{
    let q = lent::leave(at, station);
    event_at(net, q)
}

// A packet in flight is taken out and handed to its receiver: 14, 12.
#[unsafe(no_mangle)]
pub extern "C" fn skel_deliver(net: &mut Network, packet: u16) -> Line
    ensures { lent_of result net.new ≡ event_of net.old (machine.deliver packet) }
{
    let q = lent::deliver(packet);
    event_at(net, q)
}

// A packet in flight is handed to its receiver and stays: 14, 12.
#[unsafe(no_mangle)]
pub extern "C" fn skel_repeat(net: &mut Network, packet: u16) -> Line
    ensures { lent_of result net.new ≡ event_of net.old (machine.repeat packet) }
{
    let q = lent::repeat(packet);
    event_at(net, q)
}

// A packet in flight is taken out: 14, 12.
#[unsafe(no_mangle)]
pub extern "C" fn skel_lose(net: &mut Network, packet: u16) -> Line
    ensures { lent_of result net.new ≡ event_of net.old (machine.lose packet) }
{
    let q = lent::lose(packet);
    event_at(net, q)
}

// One tick at AP `at`: 14, 11.
#[unsafe(no_mangle)]
pub extern "C" fn skel_tick(net: &mut Network, at: u16) -> Line
    ensures { lent_of result net.new ≡ event_of net.old (machine.tick at) }
{
    let q = lent::tick(at);
    event_at(net, q)
}

// Which APs have a row of the station, HELD and TABLES: 14, 13.
#[unsafe(no_mangle)]
pub extern "C" fn skel_who(net: &mut Network, station: &[u8; 6]) -> Line
    ensures { lent_of result net.new ≡ event_of net.old (machine.who station.now) }
{
    let q = lent::who(station);
    event_at(net, q)
}

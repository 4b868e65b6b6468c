// One access point alone, its record lent: what a firmware links. Each call tests the record first (14). The packets that the AP sends are
// written in order at the front of the lent buffer; the reply has their number, their receivers and their length. Refused, record and
// buffer are as they came. `old` is the number of the old AP, or 4294967295 for none.
ghost use Rattle.std.specs.Prelude.{◌≡◌};
ghost use Rattle.alone.specs.Told.{told_of, old_named, set_up_alone, join_alone, leave_alone, tick_alone, outside_alone, who_alone};
ghost use Rattle.skelmarith.specs.Point.{alone_of};

use alone::Reply;
use structs::LoneAccessPoint;

// AP `number` of ap_count, empty, with T and R, in the place of the record: 14.
#[unsafe(no_mangle)]
pub extern "C" fn skel_ap_set_up(
    ap: &mut LoneAccessPoint,
    number: u16,
    ap_count: u16,
    timeout: u16,
    resend_limit: u16,
) -> Reply
    ensures { alone_of result ap.new ≡ set_up_alone ap.old number ap_count timeout resend_limit }
{
    let o = alone::set_up(*ap, number, ap_count, timeout, resend_limit);
    *ap = o.lone;
    o.reply
}

// A station joins, coming from the AP `old`: 14, 13, 7, 9, 15, 16, 17, then 10.
#[unsafe(no_mangle)]
pub extern "C" fn skel_ap_join(
    ap: &mut LoneAccessPoint,
    buffer: &mut [u8],
    station: &[u8; 6],
    sequence: u16,
    old: u32,
    context: &[u8],
) -> Reply
    ensures { told_of (alone_of result ap.new) buffer.new ≡ join_alone ap.old station.now sequence (old_named old) context.now buffer.old }
{
    let o = alone::join(*ap, buffer, station, sequence, old, context);
    *ap = o.lone;
    o.reply
}

// A station leaves: 14, 13.
#[unsafe(no_mangle)]
pub extern "C" fn skel_ap_leave(ap: &mut LoneAccessPoint, station: &[u8; 6]) -> Reply
    ensures { alone_of result ap.new ≡ leave_alone ap.old station.now }
{
    let o = alone::leave(*ap, station);
    *ap = o.lone;
    o.reply
}

// One tick: 14, then 10.
#[unsafe(no_mangle)]
pub extern "C" fn skel_ap_tick(ap: &mut LoneAccessPoint, buffer: &mut [u8]) -> Reply
    ensures { told_of (alone_of result ap.new) buffer.new ≡ tick_alone ap.old buffer.old }
{
    let o = alone::tick(*ap, buffer);
    *ap = o.lone;
    o.reply
}

// Outside bytes from the AP `from`: 14, 11, 1 to 9, then 10.
#[unsafe(no_mangle)]
pub extern "C" fn skel_ap_outside(
    ap: &mut LoneAccessPoint,
    buffer: &mut [u8],
    from: u16,
    packet: &[u8],
) -> Reply
    ensures { told_of (alone_of result ap.new) buffer.new ≡ outside_alone ap.old from packet.now buffer.old }
{
    let o = alone::outside(*ap, buffer, from, packet);
    *ap = o.lone;
    o.reply
}

// Whether the AP has a row of the station: 14, 13.
#[unsafe(no_mangle)]
pub extern "C" fn skel_ap_who(ap: &mut LoneAccessPoint, station: &[u8; 6]) -> Reply
    ensures { alone_of result ap.new ≡ who_alone ap.old station.now }
{
    let o = alone::who(*ap, station);
    *ap = o.lone;
    o.reply
}

// The packets in flight between access points. Document 01: the air, "up to 64 packets in order of sending".
#![tactic(auto)]

ghost use Rattle.std.specs.Prelude.{◌≡◌, ◌&&◌, ◌≤◌, leb, length};
ghost use Rattle.std.specs.List.{list_all};
ghost use Rattle.lists.specs.Places.{every};
ghost use Rattle.machine.specs.Valid.{valid_in_flight};
ghost use Rattle.structs.specs.Lists.{get_in_flight, put_in_flight, get_outbox};
ghost use Rattle.in_flight.specs.Post.{posted};

use structs::{InFlight, InFlights, Outbox};

// The packets of `sent` put in flight, in order. One that finds 64 in flight is lost.
pub fn post(t: &mut InFlights, sent: &Outbox)
    requires { (t.old.count ≤ 64) × (length t.old.items ≡ 64) × (sent.now.count ≤ 8) }
    ensures { t.new ≡ put_in_flight t.old (posted (get_outbox sent.now) (get_in_flight t.old)) }
{
    for p in sent.used() {
        if t.count < 64 {
            t.push(*p);
        }
    }
}

// Whether sender, receiver and size of a packet are within document 01's limits on a floor of ap_count APs, and the reader accepts it.
#[tactic(auto, unfolding(machine::specs::Valid::valid_in_flight, machine::specs::Packets::readable, machine::specs::Packets::octets_in))]
fn valid_packet(p: &InFlight, ap_count: u8) -> bool
    ensures { result ≡ valid_in_flight ap_count p.now }
{
    p.from < ap_count && p.to < ap_count && p.len <= 82 && reader::accepted(&p.octets[..p.len])
}

// Whether every one of these packets is within document 01's limits.
fn all_valid(packets: &[InFlight], ap_count: u8) -> bool
    ensures { result ≡ list_all (valid_in_flight ap_count) packets.now }
{
    packets.iter().all(|p| valid_packet(p, ap_count))
}

// Whether 14 does not apply to the packets in flight: the used length and every packet.
pub fn valid(t: &InFlights, ap_count: u8) -> bool
    ensures { result ≡ leb t.now.count 64 && every (valid_in_flight ap_count) (get_in_flight t.now) }
{
    t.count <= 64 && all_valid(t.used(), ap_count)
}

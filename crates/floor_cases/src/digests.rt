// A digest of a record: every field and every octet in the order of the structs, unused slots and unused APs included.
use structs::{AccessPoint, Association, InFlight, LoneAccessPoint, Move, Network};

// The digest h with one more value. 4294967291 is a prime.
fn fold(h: u64, x: u64) -> u64 {
    ((h % 4294967291) * 1000003 + x % 4294967291) % 4294967291
}

fn of_values(h: u64, values: &[u64]) -> u64 {
    values.iter().fold(h, |h, x| fold(h, *x))
}

fn of_octets(h: u64, octets: &[u8]) -> u64 {
    octets.iter().fold(h, |h, x| fold(h, *x as u64))
}

fn of_row(h: u64, x: &Association) -> u64 {
    let station = of_octets(h, &x.station);
    let numbers = of_values(station, &[x.sequence as u64, x.context_len as u64]);
    of_octets(numbers, &x.context)
}

fn of_move(h: u64, x: &Move) -> u64 {
    let numbers = [
        x.sequence as u64,
        x.old as u64,
        x.identifier as u64,
        x.ticks_left as u64,
        x.resends_left as u64,
    ];
    of_values(of_octets(h, &x.station), &numbers)
}

fn of_point(h: u64, a: &AccessPoint) -> u64 {
    let rows = a.associations.items.iter().fold(h, of_row);
    let row_count = fold(rows, a.associations.count as u64);
    let moves = a.moves.items.iter().fold(row_count, of_move);
    let numbers = [
        a.moves.count as u64,
        a.next_identifier as u64,
        a.opened as u64,
        a.resent as u64,
        a.answered as u64,
        a.given_up as u64,
    ];
    of_values(moves, &numbers)
}

fn of_packet(h: u64, p: &InFlight) -> u64 {
    let numbers = of_values(h, &[p.from as u64, p.to as u64, p.len as u64]);
    of_octets(numbers, &p.octets)
}

pub fn of_network(n: &Network) -> u64 {
    let setup = [n.ap_count as u64, n.timeout as u64, n.resend_limit as u64];
    let points = n.points.iter().fold(of_values(1, &setup), of_point);
    let packets = n.in_flight.items.iter().fold(points, of_packet);
    fold(packets, n.in_flight.count as u64)
}

pub fn of_lone(l: &LoneAccessPoint) -> u64 {
    let setup = [
        l.number as u64,
        l.ap_count as u64,
        l.timeout as u64,
        l.resend_limit as u64,
    ];
    of_values(of_point(1, &l.point), &setup)
}

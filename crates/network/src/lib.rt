// The record of a network, a struct of `structs`: a new one, and what is proved of the record and the machine's network.
#![tactic(auto)]

ghost use Rattle.std.specs.Prelude.{◌≡◌};
ghost use Rattle.network.specs.Lens.{new_point, new_network};

use structs::{AccessPoint, Associations, InFlights, Moves, Network};

// An access point's record, empty: every slot is blank.
#[tactic(auto, unfolding(crate::specs::Lens::new_point))]
pub fn new_point() -> AccessPoint
    ensures { result ≡ new_point }
{
    AccessPoint {
        associations: Associations::none(),
        moves: Moves::none(),
        next_identifier: 0,
        opened: 0,
        resent: 0,
        answered: 0,
        given_up: 0,
    }
}

// A floor of ap_count APs, all empty, with T and R, whatever they are. Stay three numbers, as in each set-up: a Setup is one that was accepted,
// and these may be 0.
#[tactic(auto, unfolding(crate::specs::Lens::new_network))]
pub fn new_network(ap_count: u8, timeout: u16, resend_limit: u8) -> Network
    ensures { result ≡ new_network ap_count timeout resend_limit }
{
    let a = new_point();
    Network {
        ap_count,
        timeout,
        resend_limit,
        points: [a; 8],
        in_flight: InFlights::none(),
    }
}

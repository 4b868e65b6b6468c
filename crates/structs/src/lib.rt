// The plain structs that records are made of and that several layers share: rows, moves and packets in the air, the lists of them, one access
// point's record, the floor's, what an event sends, and the events. The machine's lists hold the first three.
#![tactic(auto)]

ghost use Rattle.std.specs.Prelude.{◌≡◌, ◌≤◌, ◌<◌, ◌++◌, [], ◌∷◌, None, length, replicate};
ghost use Rattle.lists.specs.Places.{without};
ghost use Rattle.lists.specs.Search.{placed};
ghost use Rattle.structs.specs.Blanks.{no_association, no_move, no_in_flight};
ghost use Rattle.structs.specs.Lists.{no_associations, get_associations, put_associations, no_moves, get_moves, put_moves, no_in_flights, get_in_flight, put_in_flight, no_outbox, get_outbox, put_outbox};
ghost use Rattle.structs.specs.declared.Kind.TheVariants.{Join, Leave, Deliver, Repeat, Lose, Tick, Who};

use slots::Blank;

// Lengths stay beside their arrays here: C lends these records.

// Document 01: a row of an AP's table.
#[repr(C)]
#[derive(Clone, Copy, Debug, PartialEq, Eq)]
pub struct Association {
    pub station: [u8; 6],
    pub sequence: u16,
    // How many octets of context are used.
    pub context_len: usize,
    pub context: [u8; 64],
}

// Document 01: an open move.
#[repr(C)]
#[derive(Clone, Copy, Debug, PartialEq, Eq)]
pub struct Move {
    pub station: [u8; 6],
    pub sequence: u16,
    // The old AP.
    pub old: u8,
    pub identifier: u16,
    pub ticks_left: u16,
    pub resends_left: u8,
}

// Document 01: a packet in the air, as octets, with sender and receiver. The longest packet has 82 octets.
#[repr(C)]
#[derive(Clone, Copy, Debug, PartialEq, Eq)]
pub struct InFlight {
    pub from: u8,
    pub to: u8,
    // How many octets are used.
    pub len: usize,
    pub octets: [u8; 82],
}

// Blank slots stay written out: Default has no arrays of 64 or 82 octets.
impl Blank for Association {
    ghost blank = { no_association };

    #[tactic(auto, unfolding(crate::specs::Blanks::no_association))]
    fn blank() -> Association {
        Association {
            station: [0; 6],
            sequence: 0,
            context_len: 0,
            context: [0; 64],
        }
    }
}

impl Blank for Move {
    ghost blank = { no_move };

    #[tactic(auto, unfolding(crate::specs::Blanks::no_move))]
    fn blank() -> Move {
        Move {
            station: [0; 6],
            sequence: 0,
            old: 0,
            identifier: 0,
            ticks_left: 0,
            resends_left: 0,
        }
    }
}

impl Blank for InFlight {
    ghost blank = { no_in_flight };

    #[tactic(auto, unfolding(crate::specs::Blanks::no_in_flight))]
    fn blank() -> InFlight {
        InFlight {
            from: 0,
            to: 0,
            len: 0,
            octets: [0; 82],
        }
    }
}

// The two lists stay structs of their own, with an array and a count: C lends records, and can be given no struct with type arguments. Nor
// do their types hold the limits: what C lends can be out of them, and functions ask for Usable or for the count instead.

// Document 01: an AP's table, its rows in order of arrival.
#[repr(C)]
#[derive(Clone, Copy, Debug, PartialEq, Eq)]
pub struct Associations {
    pub items: [Association; 16],
    pub count: usize,
}

impl Associations {
    // No rows: every slot is blank.
    pub fn none() -> Associations
        ensures { result ≡ no_associations }
    {
        Associations {
            items: [Association::blank(); 16],
            count: 0,
        }
    }

    // The rows, in order.
    pub fn used(&self) -> &[Association]
        requires { self.now.count ≤ 16 }
        ensures elements { result.now ≡ get_associations self.now }
        ensures len { length result.now ≡ self.now.count }
    {
        &self.items[..self.count]
    }

    // Puts x in the place of row i, or last where i is the number of rows.
    pub fn place(&mut self, i: usize, x: Association)
        requires { (self.old.count ≤ 16) × (i ≤ self.old.count) × (i < 16) }
        ensures { self.new ≡ put_associations self.old (placed i x (get_associations self.old)) }
    {
        slots::place(&mut self.items, &mut self.count, i, x);
    }

    // Takes row i out: the later rows move up, and the freed slot is blank.
    pub fn remove(&mut self, i: usize)
        requires { (self.old.count ≤ 16) × (i < self.old.count) }
        ensures { self.new ≡ put_associations self.old (without i (get_associations self.old)) }
    {
        slots::remove(&mut self.items, &mut self.count, i);
    }
}

// Document 01: an AP's open moves, in order of opening.
#[repr(C)]
#[derive(Clone, Copy, Debug, PartialEq, Eq)]
pub struct Moves {
    pub items: [Move; 8],
    pub count: usize,
}

impl Moves {
    // No moves: every slot is blank.
    pub fn none() -> Moves
        ensures { result ≡ no_moves }
    {
        Moves {
            items: [Move::blank(); 8],
            count: 0,
        }
    }

    // The open moves, in order.
    pub fn used(&self) -> &[Move]
        requires { self.now.count ≤ 8 }
        ensures elements { result.now ≡ get_moves self.now }
        ensures len { length result.now ≡ self.now.count }
    {
        &self.items[..self.count]
    }

    // One move more, opened last.
    pub fn push(&mut self, m: Move)
        requires { self.old.count < 8 }
        ensures { self.new ≡ put_moves self.old (get_moves self.old ++ (m ∷ [])) }
    {
        slots::push(&mut self.items, &mut self.count, m);
    }

    // Takes move j out: the later ones move up, and the freed slot is blank.
    pub fn remove(&mut self, j: usize)
        requires { (self.old.count ≤ 8) × (j < self.old.count) }
        ensures { self.new ≡ put_moves self.old (without j (get_moves self.old)) }
    {
        slots::remove(&mut self.items, &mut self.count, j);
    }

    // Takes all moves out: each slot that was used is blank.
    pub fn clear(&mut self)
        requires { self.old.count ≤ 8 }
        ensures { self.new ≡ put_moves self.old [] }
    {
        slots::clear(&mut self.items, &mut self.count);
    }
}

// Document 01: an access point's record.
#[repr(C)]
#[derive(Clone, Copy, Debug, PartialEq, Eq)]
pub struct AccessPoint {
    pub associations: Associations,
    pub moves: Moves,
    pub next_identifier: u16,
    pub opened: u32,
    pub resent: u32,
    pub answered: u32,
    pub given_up: u32,
}

// Document 01's set-up: AP count, T, in ticks, and R.
#[derive(Clone, Copy, Debug, PartialEq, Eq)]
pub struct Setup {
    pub ap_count: u8,
    pub timeout: u16,
    pub resend_limit: u8,
}

// Document 01: one AP alone, "whose record is then held together with its own number, the floor's AP count, T and R".
#[repr(C)]
#[derive(Clone, Copy, Debug, PartialEq, Eq)]
pub struct LoneAccessPoint {
    pub point: AccessPoint,
    pub number: u8,
    pub ap_count: u8,
    pub timeout: u16,
    pub resend_limit: u8,
}

// Document 01: the air, its packets in order of sending. Stays a struct of its own, since C lends it.
#[repr(C)]
#[derive(Clone, Copy, Debug, PartialEq, Eq)]
pub struct InFlights {
    pub items: [InFlight; 64],
    pub count: usize,
}

impl InFlights {
    // No packets: every slot is blank.
    pub fn none() -> InFlights
        ensures { result ≡ no_in_flights }
    {
        InFlights {
            items: [InFlight::blank(); 64],
            count: 0,
        }
    }

    // The packets in flight, in order of sending.
    pub fn used(&self) -> &[InFlight]
        requires { self.now.count ≤ 64 }
        ensures elements { result.now ≡ get_in_flight self.now }
        ensures len { length result.now ≡ self.now.count }
    {
        &self.items[..self.count]
    }

    // One packet more, sent last.
    pub fn push(&mut self, p: InFlight)
        requires { self.old.count < 64 }
        ensures { self.new ≡ put_in_flight self.old (get_in_flight self.old ++ (p ∷ [])) }
    {
        slots::push(&mut self.items, &mut self.count, p);
    }

    // Takes packet k out: the later ones move up, and the freed slot is blank.
    pub fn remove(&mut self, k: usize)
        requires { (self.old.count ≤ 64) × (k < self.old.count) }
        ensures { self.new ≡ put_in_flight self.old (without k (get_in_flight self.old)) }
    {
        slots::remove(&mut self.items, &mut self.count, k);
    }
}

// Document 01: the floor, its APs numbered from 0.
#[repr(C)]
#[derive(Clone, Copy, Debug, PartialEq, Eq)]
pub struct Network {
    pub ap_count: u8,
    // Document 01: T, in ticks, and R.
    pub timeout: u16,
    pub resend_limit: u8,
    pub points: [AccessPoint; 8],
    pub in_flight: InFlights,
}

// The packets that one event sends, in order: an announcement goes to seven APs at most, and a tick sends eight notices again at most.
// Stays a struct with a count, as the record's lists are.
#[derive(Clone, Copy)]
pub struct Outbox {
    pub items: [InFlight; 8],
    pub count: usize,
}

impl Outbox {
    // Nothing sent: every slot is blank.
    pub fn none() -> Outbox
        ensures { result ≡ no_outbox }
    {
        Outbox {
            items: [InFlight::blank(); 8],
            count: 0,
        }
    }

    // The packets sent, in order.
    pub fn used(&self) -> &[InFlight]
        requires { self.now.count ≤ 8 }
        ensures elements { result.now ≡ get_outbox self.now }
        ensures len { length result.now ≡ self.now.count }
    {
        &self.items[..self.count]
    }

    // One packet more, sent last.
    pub fn push(&mut self, p: InFlight)
        requires { self.old.count < 8 }
        ensures { self.new ≡ put_outbox self.old (get_outbox self.old ++ (p ∷ [])) }
    {
        slots::push(&mut self.items, &mut self.count, p);
    }
}

// What a station that joins gives, but for its context: its address, its number, and the old AP that it names or none.
#[derive(Clone, Copy, Debug, PartialEq, Eq)]
pub struct Request {
    pub station: [u8; 6],
    pub sequence: u16,
    pub old: Option<u16>,
}

// Where the old AP is: another AP of the floor, this AP, or none or not on the floor. Stays an enum: an Option would take two of the three as one.
#[derive(Clone, Copy, Debug, PartialEq, Eq)]
pub enum Origin {
    Another(u8),
    This,
    Nowhere,
}

// Document 01, "The floor machine": the seven events.
#[derive(Clone, Copy, Debug, PartialEq, Eq)]
pub enum Kind {
    Join,
    Leave,
    Deliver,
    Repeat,
    Lose,
    Tick,
    Who,
}

// An event but for a join's context. `at` is the AP, or the packet for deliver, repeat and lose. What an event has no use for is ignored. Stays a
// struct with a kind: a script's line and the tables below ask for the kind and the number alone, and an enum would bind and drop the rest there.
#[derive(Clone, Copy, Debug, PartialEq, Eq)]
pub struct Event {
    pub kind: Kind,
    pub at: u16,
    pub station: [u8; 6],
    pub sequence: u16,
    pub old: Option<u16>,
}

impl Event {
    // An event of this kind, with a number and a station.
    fn plain(kind: Kind, at: u16, station: [u8; 6]) -> Event
        ensures { result ≡ record { kind = kind; at = at; station = station; sequence = 0; old = None } }
    {
        Event {
            kind,
            at,
            station,
            sequence: 0,
            old: None,
        }
    }

    pub fn join(at: u16, station: [u8; 6], sequence: u16, old: Option<u16>) -> Event
        ensures { result ≡ record { kind = Join; at = at; station = station; sequence = sequence; old = old } }
    {
        Event {
            kind: Kind::Join,
            at,
            station,
            sequence,
            old,
        }
    }

    pub fn leave(at: u16, station: [u8; 6]) -> Event
        ensures { result ≡ record { kind = Leave; at = at; station = station; sequence = 0; old = None } }
    {
        Event::plain(Kind::Leave, at, station)
    }

    pub fn deliver(packet: u16) -> Event
        ensures { result ≡ record { kind = Deliver; at = packet; station = replicate 6 0; sequence = 0; old = None } }
    {
        Event::plain(Kind::Deliver, packet, [0; 6])
    }

    pub fn repeat(packet: u16) -> Event
        ensures { result ≡ record { kind = Repeat; at = packet; station = replicate 6 0; sequence = 0; old = None } }
    {
        Event::plain(Kind::Repeat, packet, [0; 6])
    }

    pub fn lose(packet: u16) -> Event
        ensures { result ≡ record { kind = Lose; at = packet; station = replicate 6 0; sequence = 0; old = None } }
    {
        Event::plain(Kind::Lose, packet, [0; 6])
    }

    pub fn tick(at: u16) -> Event
        ensures { result ≡ record { kind = Tick; at = at; station = replicate 6 0; sequence = 0; old = None } }
    {
        Event::plain(Kind::Tick, at, [0; 6])
    }

    pub fn who(station: [u8; 6]) -> Event
        ensures { result ≡ record { kind = Who; at = 0; station = station; sequence = 0; old = None } }
    {
        Event::plain(Kind::Who, 0, station)
    }
}

// The open moves of one access point: found, tested, and what a tick does to them.
#![tactic(auto)]

ghost use Rattle.std.specs.Prelude.{◌≡◌, true, ◌&&◌, map, ◌≤◌, leb, length};
ghost use Rattle.std.specs.List.{list_all};
ghost use Rattle.lists.specs.Places.{every};
ghost use Rattle.lists.specs.Search.{index_by};
ghost use Rattle.machine.specs.Moves.{kept, resends, lapsed};
ghost use Rattle.machine.specs.Valid.{valid_move};
ghost use Rattle.record.specs.Lens.{named, bare};
ghost use Rattle.structs.specs.Lists.{no_moves, get_moves, put_moves};
ghost use Rattle.moves.specs.Asked.{answers};
ghost use Rattle.moves.specs.Ticks.{stays, is_due, after};

use structs::{Move, Moves};

// Stays a struct of its own name: lent's Asked is an event.
// What a search of the open moves asks for: a packet's identifier, station and sequence number, and its sender.
#[derive(Clone, Copy, Debug, PartialEq, Eq)]
pub struct Asked {
    pub identifier: u16,
    pub station: [u8; 6],
    pub sequence: u16,
    pub from: u8,
}

// Whether a move agrees in identifier, station, sequence number and old AP = sender. Stays by hand: a Move has ticks and resends too, so `==` of
// the structs is another test.
#[tactic(auto, unfolding(machine::specs::Moves::agrees), using(machine::proofs::Stations::same_octets))]
fn agrees_with(m: &Move, asked: &Asked) -> bool
    ensures { result ≡ answers asked.now m.now }
{
    asked.identifier == m.identifier
        && asked.station == m.station
        && asked.sequence == m.sequence
        && asked.from == m.old
}

// The place of the earliest opened move that agrees, or the number of moves where none does. Stays a loop that breaks with the index:
// document 01 asks for that form here.
pub fn find(t: &Moves, asked: &Asked) -> usize
    requires { t.now.count ≤ 8 }
    ensures { result ≡ index_by (answers asked.now) (get_moves t.now) }
{
    let moves = t.used();
    let mut place = moves.len();
    for (i, m) in moves.iter().enumerate() {
        if agrees_with(m, asked) {
            place = i;
            break;
        }
    }
    place
}

// Whether a move is within document 01's limits, on a floor of `ap_count` APs.
#[tactic(auto, unfolding(machine::specs::Valid::valid_move, record::specs::Lens::named))]
fn valid_move(m: &Move, ap_count: u8) -> bool
    ensures { result ≡ valid_move ap_count (named m.now) }
{
    m.sequence <= 4095 && m.old < ap_count && 1 <= m.ticks_left && m.resends_left <= 7
}

// Whether every one of these moves is within document 01's limits.
fn all_valid(moves: &[Move], ap_count: u8) -> bool
    ensures { result ≡ list_all (λ m. valid_move ap_count (named m)) moves.now }
{
    moves.iter().all(|m| valid_move(m, ap_count))
}

// Whether the used length and every move are within document 01's limits.
pub fn valid(t: &Moves, ap_count: u8) -> bool
    ensures { result ≡ leb t.now.count 8 && every (valid_move ap_count) (map named (get_moves t.now)) }
{
    t.count <= 8 && all_valid(t.used(), ap_count)
}

// What a tick gives: the moves that stay open, those of them that are sent again, and how many are given up.
#[derive(Clone, Copy, Debug, PartialEq, Eq)]
pub struct Ticked {
    pub kept: Moves,
    pub due: Moves,
    pub given_up: u8,
}

// Whether a tick sends a move again: no tick is left then, and a resend is.
#[tactic(auto, unfolding(crate::specs::Ticks::is_due))]
fn sent_again(m: &Move) -> bool
    ensures { result ≡ is_due m.now }
{
    m.ticks_left <= 1 && 0 < m.resends_left
}

// Whether a move stays open at a tick: it is sent again, or a tick is left.
#[tactic(auto, unfolding(crate::specs::Ticks::stays))]
fn stays_open(m: &Move) -> bool
    ensures { result ≡ stays m.now }
{
    sent_again(m) || 1 < m.ticks_left
}

// A move that stays open, after a tick: ticks T and one resend fewer where it is sent again, else one tick fewer.
#[tactic(auto, unfolding(crate::specs::Ticks::after), using(crate::proofs::Ticking::due_left, crate::proofs::Ticking::waits_left))]
fn after_tick(m: &Move, timeout: u16) -> Move
    requires { stays m.now ≡ true }
    ensures { result ≡ after timeout m.now }
{
    if sent_again(m) {
        return Move {
            ticks_left: timeout,
            resends_left: m.resends_left - 1,
            ..*m
        };
    }
    Move {
        ticks_left: m.ticks_left - 1,
        ..*m
    }
}

// The moves that a tick leaves open, in order, in the place of those of `t`.
fn kept_of(t: &Moves, timeout: u16) -> Moves
    requires { t.now.count ≤ 8 }
    ensures { result ≡ put_moves t.now (map bare (kept timeout (map named (get_moves t.now)))) }
{
    let mut out = *t;
    out.clear();
    for m in t.used() {
        if stays_open(m) {
            out.push(after_tick(m, timeout));
        }
    }
    out
}

// The moves that a tick sends again, in order, as they are after it. Stays beside kept_of: one function for both would take the test and the
// list to begin with, and both are the whole of it.
fn due_of(t: &Moves, timeout: u16) -> Moves
    requires { t.now.count ≤ 8 }
    ensures { result ≡ put_moves no_moves (map bare (resends timeout (map named (get_moves t.now)))) }
{
    let mut out = Moves::none();
    for m in t.used() {
        if sent_again(m) {
            out.push(after_tick(m, timeout));
        }
    }
    out
}

// One tick. Document 01: "each open move in order loses one tick; at 0 it is sent again with the same bytes if resends are left (one
// fewer, ticks T), else it closes as given up".
pub fn tick(t: &Moves, timeout: u16) -> Ticked
    requires { t.now.count ≤ 8 }
    ensures { result ≡ record {
      kept = put_moves t.now (map bare (kept timeout (map named (get_moves t.now))));
      due = put_moves no_moves (map bare (resends timeout (map named (get_moves t.now))));
      given_up = length (lapsed timeout (map named (get_moves t.now)));
    } }
{
    let kept = kept_of(t, timeout);
    let due = due_of(t, timeout);
    Ticked {
        kept,
        due,
        given_up: (t.used().len() - kept.count) as u8,
    }
}

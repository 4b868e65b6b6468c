// A station joins one access point: the AP's own refusals 15, 16 and 17, its record afterwards, and what it sends.
#![tactic(auto)]

ghost use Rattle.std.specs.Prelude.{◌≡◌, ◌<◌, ◌≤◌, [], length, IfOk};
ghost use Rattle.lists.specs.Table.{first_of};
ghost use Rattle.answers.specs.Numbers.{number_of};
ghost use Rattle.machine.specs.Associations.{association, held_context};
ghost use Rattle.machine.specs.AccessPoint.{another, this, nowhere, origin_of, join_from};
ghost use Rattle.structs.specs.declared.AccessPoint.{AccessPoint};
ghost use Rattle.record.specs.Lens.{get_point, put_point};
ghost use Rattle.structs.specs.Lists.{get_associations};
ghost use Rattle.excerpt.specs.declared.Edit.TheVariants.{Place};
ghost use Rattle.excerpt.specs.Excerpts.{put_back, Allowed, Seen};
ghost use Rattle.joining.specs.Join.{origin_from, moving_from, moves_tests, tests_at, joined_of, join_done};

use answers::{Answer, Refusal};
use excerpt::{Edit, Excerpt};
use structs::{Association, Move, Origin, Request, Setup};

// What a join sends: nothing, ADD-notify with this identifier to every other AP, or MOVE-notify with it to the old AP.
#[derive(Clone, Copy, Debug, PartialEq, Eq)]
pub enum Notice {
    Silent,
    Announce(u16),
    Notify(u16, u8),
}

// An accepted join: the excerpt afterwards, and what is sent.
#[derive(Clone, Copy)]
pub struct Joined {
    pub after: Excerpt,
    pub notice: Notice,
}

// Where the old AP of a join at AP `own` is, on a floor of ap_count.
#[tactic(auto, using(lists::proofs::Tables::tests), unfolding(machine::specs::AccessPoint::origin_of))]
pub fn origin_of(old: Option<u16>, own: u8, ap_count: u8) -> Origin
    ensures { origin_from result ≡ origin_of ap_count own old }
{
    match old {
        Some(o) if o == own as u16 => Origin::This,
        Some(o) if o < ap_count as u16 => Origin::Another(o as u8),
        _ => Origin::Nowhere,
    }
}

// Whether a move is needed.
fn needs_move(o: Origin) -> bool
    ensures { result ≡ moving_from o }
{
    matches!(o, Origin::Another(_))
}

// 17, where a move is needed and 8 are open. `moving` stays a bool: it is a fact of the join, and switches no step but this one.
fn moves_answer(moves: usize, moving: bool) -> Answer
    ensures { number_of result ≡ first_of (moves_tests moves moving) }
{
    if moving && 8 <= moves {
        return Err(Refusal::MovesFull);
    }
    Ok(())
}

// The first of 15, 16 and 17 that applies, where the station's association is at place `at` of `count` with the number `held`, and `at` is
// the count where there is none. Stay numbers: the rows are not here.
#[tactic(auto, using(lists::proofs::Tables::tests), unfolding(crate::specs::Join::tests_at))]
fn answer_at(
    at: usize,
    count: usize,
    held: u16,
    sequence: u16,
    moves: usize,
    moving: bool,
) -> Answer
    ensures { number_of result ≡ first_of (tests_at at count held sequence moves moving) }
{
    if at < count {
        if !sequence::newer(sequence, held) {
            return Err(Refusal::NotNewer);
        }
        return moves_answer(moves, moving);
    }
    if 16 <= count {
        return Err(Refusal::TableFull);
    }
    moves_answer(moves, moving)
}

// The station's association numbered anew with its context kept, or a new one with no context.
fn kept_context(x: Excerpt, station: [u8; 6], sequence: u16) -> Association
    ensures { (a : AccessPoint) → Seen station a x → result ≡ association station sequence (held_context station (get_associations a.associations)) }
{
    if x.at < x.count {
        return associations::renumbered(&x.row, sequence);
    }
    associations::new_association(station, sequence, &[])
}

// A join from another AP: a move opens with the next identifier.
fn from_another(x: Excerpt, station: [u8; 6], sequence: u16, old: u8, setup: Setup) -> Excerpt
    requires { x.moves.count < 8 }
    ensures result_value { (a : AccessPoint) → Seen station a x → put_back a result ≡ put_point a (join_from (another old) 0 setup.timeout setup.resend_limit 0 0 station sequence [] (get_point a)).point }
    ensures edit_value { (result.edit ≡ Place) × (result.at ≡ x.at) }
{
    let row = kept_context(x, station, sequence);
    let identifier = x.next_identifier;
    let m = Move {
        station,
        sequence,
        old,
        identifier,
        ticks_left: setup.timeout,
        resends_left: setup.resend_limit,
    };
    let mut y = excerpt::with_edit(&x, Edit::Place, row);
    y.moves.push(m);
    y.next_identifier = identifier.wrapping_add(1);
    y.opened = x.opened.wrapping_add(1);
    y
}

// A join from this AP.
fn from_this(x: Excerpt, station: [u8; 6], sequence: u16) -> Excerpt
    ensures result_value { (a : AccessPoint) → Seen station a x → put_back a result ≡ put_point a (join_from this 0 0 0 0 0 station sequence [] (get_point a)).point }
    ensures edit_value { (result.edit ≡ Place) × (result.at ≡ x.at) }
{
    let row = kept_context(x, station, sequence);
    excerpt::with_edit(&x, Edit::Place, row)
}

// A join from nowhere on the floor: the context given is taken, and the next identifier is used.
fn from_nowhere(x: Excerpt, station: [u8; 6], sequence: u16, context: &[u8]) -> Excerpt
    requires { length context.now ≤ 64 }
    ensures result_value { (a : AccessPoint) → Seen station a x → put_back a result ≡ put_point a (join_from nowhere 0 0 0 0 0 station sequence context.now (get_point a)).point }
    ensures edit_value { (result.edit ≡ Place) × (result.at ≡ x.at) }
{
    let row = associations::new_association(station, sequence, context);
    let mut y = excerpt::with_edit(&x, Edit::Place, row);
    y.next_identifier = x.next_identifier.wrapping_add(1);
    y
}

// A join at AP `own` of a floor. Put back into the record that x is of, it is the machine's; refused, nothing changes.
pub fn join(
    x: Excerpt,
    own: u8,
    setup: Setup,
    request: Request,
    context: &[u8],
) -> Result<Joined, Refusal>
    requires { length context.now ≤ 64 }
    ensures result_value { (a : AccessPoint) → Seen request.station a x → joined_of a result ≡ join_done (origin_of setup.ap_count own request.old) setup.ap_count setup.timeout setup.resend_limit own request.station request.sequence context.now a }
    ensures allowed { (a : AccessPoint) → Seen request.station a x → IfOk result (λ j. Allowed j.after.edit j.after.at a.associations.count) }
{
    let Request {
        station,
        sequence,
        old,
    } = request;
    let origin = origin_of(old, own, setup.ap_count);
    answer_at(
        x.at,
        x.count,
        x.row.sequence,
        sequence,
        x.moves.count,
        needs_move(origin),
    )?;
    let identifier = x.next_identifier;
    match origin {
        Origin::Another(o) => Ok(Joined {
            after: from_another(x, station, sequence, o, setup),
            notice: Notice::Notify(identifier, o),
        }),
        Origin::This => Ok(Joined {
            after: from_this(x, station, sequence),
            notice: Notice::Silent,
        }),
        Origin::Nowhere => Ok(Joined {
            after: from_nowhere(x, station, sequence, context),
            notice: Notice::Announce(identifier),
        }),
    }
}

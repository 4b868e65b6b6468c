// One access point receives a packet, or a station leaves it: the excerpt of its record afterwards, and its answer if it gives one.
// What is proved holds for every record that the excerpt is of, once the result is put back into it.
#![tactic(auto)]

ghost use Rattle.std.specs.Prelude.{◌≡◌, ◌≤◌, ◌<◌, length, MatchOption, IfSome};
ghost use Rattle.reader.specs.Read.{reading_of};
ghost use Rattle.machine.specs.Stations.{Station};
ghost use Rattle.machine.specs.Associations.{dissociate_older};
ghost use Rattle.machine.specs.Packets.{packet_of, message_of};
ghost use Rattle.machine.specs.AccessPoint.{with_associations, leave_by, receive_by};
ghost use Rattle.structs.specs.declared.AccessPoint.{AccessPoint};
ghost use Rattle.record.specs.Lens.{get_point, put_point};
ghost use Rattle.structs.specs.Lists.{get_associations};
ghost use Rattle.excerpt.specs.Excerpts.{Allowed, put_back, Seen};
ghost use Rattle.moves.specs.Asked.{asked};
ghost use Rattle.receiving.specs.Receive.{IsShort, notify_reply, reply_to, answered_by, handled_of, handled_by};

use excerpt::{Edit, Excerpt};
use moves::Asked;
use packet::Command;
use reader::Received;
use structs::Association;

// The answer to a MOVE-notify. A SUCCESSFUL one has its context in the first len octets; a STALE_MOVE has none. The length stays beside the
// octets: that the row's context is within its array holds of an excerpt that is seen, and of no slice taken before.
#[derive(Clone, Copy)]
pub enum Reply {
    Successful { len: usize, context: [u8; 64] },
    StaleMove,
}

// The excerpt afterwards, and the answer if there is one.
#[derive(Clone, Copy)]
pub struct Handled {
    pub after: Excerpt,
    pub reply: Option<Reply>,
}

// The station's association, if it has one.
fn held(x: Excerpt) -> Option<Association>
    ensures { MatchOption result (x.count ≤ x.at) (λ r. (r ≡ x.row) × (x.at < x.count)) }
{
    if x.at < x.count { Some(x.row) } else { None }
}

// The station leaves: its association is removed; none there, nothing changes.
#[tactic(auto, using(crate::proofs::Laws::leave_none))]
pub fn leave(x: Excerpt) -> Excerpt
    ensures allowed { (s : Station) (a : AccessPoint) → Seen s a x → Allowed result.edit result.at a.associations.count }
    ensures result_value { (s : Station) (a : AccessPoint) → Seen s a x → put_back a result ≡ put_point a (leave_by s (get_point a)).point }
{
    match held(x) {
        Some(row) => excerpt::with_edit(&x, Edit::Remove, row),
        None => x,
    }
}

// ADD-notify, and MOVE-notify too: the station's association is removed if the sequence number is newer than its own.
#[tactic(auto, using(crate::proofs::Laws::older_none, crate::proofs::Laws::older_stays))]
fn receive_add(x: Excerpt, sequence: u16) -> Excerpt
    ensures allowed { (s : Station) (a : AccessPoint) → Seen s a x → Allowed result.edit result.at a.associations.count }
    ensures result_value { (s : Station) (a : AccessPoint) → Seen s a x → put_back a result ≡ put_point a (with_associations (dissociate_older s sequence (get_associations a.associations)) (get_point a)) }
{
    match held(x) {
        Some(row) if sequence::newer(sequence, row.sequence) => {
            excerpt::with_edit(&x, Edit::Remove, row)
        }
        _ => x,
    }
}

// The answer to a MOVE-notify: the context is sent where the sequence number is newer.
#[tactic(auto, using(crate::proofs::Laws::reply_none, crate::proofs::Laws::reply_stays, crate::proofs::Laws::reply_gone))]
fn notify_reply(x: Excerpt, sequence: u16) -> Reply
    ensures value { (s : Station) (a : AccessPoint) → Seen s a x → result ≡ notify_reply s sequence (get_associations a.associations) }
    ensures len_bound { (s : Station) (a : AccessPoint) → Seen s a x → IsShort result }
{
    match held(x) {
        None => Reply::Successful {
            len: 0,
            context: [0; 64],
        },
        Some(row) if sequence::newer(sequence, row.sequence) => {
            let context = row.context;
            Reply::Successful {
                len: row.context_len,
                context,
            }
        }
        Some(_) => Reply::StaleMove,
    }
}

// After a MOVE-response that closed a move: the station's association, if it has exactly this number, takes the context or is
// removed. The status stays a number, as Received has it.
#[tactic(auto, using(crate::proofs::Laws::answered_none, crate::proofs::Laws::answered_other))]
fn answered(x: Excerpt, sequence: u16, status: u8, context: &[u8]) -> Excerpt
    requires { length context.now ≤ 64 }
    ensures allowed { (s : Station) (a : AccessPoint) → Seen s a x → Allowed result.edit result.at a.associations.count }
    ensures result_value { (s : Station) (a : AccessPoint) → Seen s a x → put_back a result ≡ put_point a (with_associations (answered_by status s sequence context.now (get_associations a.associations)) (get_point a)) }
{
    match held(x) {
        Some(row) if sequence == row.sequence => {
            if status == 0 {
                let next = associations::new_association(row.station, row.sequence, context);
                excerpt::with_edit(&x, Edit::Place, next)
            } else {
                excerpt::with_edit(&x, Edit::Remove, row)
            }
        }
        _ => x,
    }
}

// MOVE-response: the earliest opened move that agrees closes, as answered; with none, nothing happens.
fn receive_response(x: Excerpt, from: u8, r: Received, context: &[u8]) -> Excerpt
    requires count_bound { x.moves.count ≤ 8 }
    requires context_len_bound { length context.now ≤ 64 }
    ensures allowed { (a : AccessPoint) → Seen r.station a x → Allowed result.edit result.at a.associations.count }
    ensures result_value { (a : AccessPoint) → Seen r.station a x → put_back a result ≡ put_point a (receive_by (message_of 2 r.status context.now) from (asked r.identifier r.station r.sequence) (get_point a)).point }
{
    let Received {
        identifier,
        station,
        sequence,
        status,
        ..
    } = r;
    let asked = Asked {
        identifier,
        station,
        sequence,
        from,
    };
    let mut open = x.moves;
    let j = moves::find(&open, &asked);
    if open.count <= j {
        return x;
    }
    open.remove(j);
    Excerpt {
        moves: open,
        answered: x.answered.wrapping_add(1),
        ..answered(x, sequence, status, context)
    }
}

// A packet from the AP `from` that the reader accepted, with its context block. The record and what is sent are the machine's; the
// answer is fixed as the code's enum too, so that no part of it is left open.
pub fn receive(x: Excerpt, from: u8, r: Received, context: &[u8]) -> Handled
    requires count_bound { x.moves.count ≤ 8 }
    requires context_len_bound { length context.now ≤ 64 }
    ensures allowed { (a : AccessPoint) → Seen r.station a x → Allowed result.after.edit result.after.at a.associations.count }
    ensures result_value { (a : AccessPoint) → Seen r.station a x → handled_of a from (packet_of (reading_of r) context.now) result ≡ handled_by from (packet_of (reading_of r) context.now) a }
    ensures len_bound { (a : AccessPoint) → Seen r.station a x → IfSome result.reply IsShort }
    ensures reply_value { (a : AccessPoint) → Seen r.station a x → result.reply ≡ reply_to r.command r.station r.sequence (get_associations a.associations) }
{
    match r.command {
        Command::AddNotify => Handled {
            after: receive_add(x, r.sequence),
            reply: None,
        },
        Command::MoveNotify => Handled {
            after: receive_add(x, r.sequence),
            reply: Some(notify_reply(x, r.sequence)),
        },
        Command::MoveResponse => Handled {
            after: receive_response(x, from, r, context),
            reply: None,
        },
    }
}

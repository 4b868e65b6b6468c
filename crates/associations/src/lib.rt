// The table of one access point. Document 01: its rows, "in order of arrival".
#![tactic(auto)]

ghost use Rattle.std.specs.Prelude.{◌≡◌, ◌&&◌, ◌≤◌, leb, length};
ghost use Rattle.std.specs.List.{position};
ghost use Rattle.lists.specs.Places.{every};
ghost use Rattle.lists.specs.Search.{index_by};
ghost use Rattle.machine.specs.Associations.{association, given};
ghost use Rattle.machine.specs.Valid.{valid_association, distinct};
ghost use Rattle.structs.specs.Lists.{get_associations};
ghost use Rattle.associations.specs.Rows.{is_of};

use structs::{Association, Associations};

// Whether a row is the station's.
fn is_of(row: &Association, station: [u8; 6]) -> bool
    ensures { result ≡ is_of station row.now }
{
    station == row.station
}

// The place of the station's row among these, if it has one.
fn place_of(rows: &[Association], station: [u8; 6]) -> Option<usize>
    ensures { result ≡ position (is_of station) rows.now }
{
    rows.iter().position(|row| is_of(row, station))
}

// The place of the station's row, or the number of rows where it has none.
pub fn find(t: &Associations, station: [u8; 6]) -> usize
    requires { t.now.count ≤ 16 }
    ensures { result ≡ index_by (is_of station) (get_associations t.now) }
{
    let rows = t.used();
    place_of(rows, station).unwrap_or(rows.len())
}

// Whether a row's numbers are within document 01's limits.
#[tactic(auto, unfolding(machine::specs::Valid::valid_association))]
fn within_limits(row: &Association) -> bool
    ensures { result ≡ valid_association row.now }
{
    row.sequence <= 4095 && row.context_len <= 64
}

// Whether the table is one to which refusal 14 does not apply: the number of rows, each row's limits, and stations that differ.
// A row's station is looked for among the earlier rows only where one of them ends in the same six bits.
pub fn valid(t: &Associations) -> bool
    ensures { result ≡ leb t.now.count 16 && (every valid_association (get_associations t.now) && distinct (get_associations t.now)) }
{
    if 16 < t.count {
        return false;
    }
    let rows = t.used();
    // Which last six bits the stations of the rows passed have.
    let mut seen = [false; 64];
    for (i, row) in rows.iter().enumerate() {
        if !within_limits(row) {
            return false;
        }
        let ending = (row.station[5] % 64) as usize;
        if seen[ending] && place_of(&rows[..i], row.station).is_some() {
            return false;
        }
        seen[ending] = true;
    }
    true
}

// A new row with the context given: zeros follow it.
pub fn new_association(station: [u8; 6], sequence: u16, context: &[u8]) -> Association
    requires { length context.now ≤ 64 }
    ensures { result ≡ association station sequence (given context.now) }
{
    let mut octets = [0; 64];
    octets::copy(context, &mut octets);
    Association {
        station,
        sequence,
        context_len: context.len(),
        context: octets,
    }
}

// The same row with another number. Document 01: "context is kept if a row was there".
pub fn renumbered(row: &Association, sequence: u16) -> Association
    ensures { result ≡ record { station = row.now.station; sequence = sequence; context_len = row.now.context_len; context = row.now.context } }
{
    Association { sequence, ..*row }
}

// What the rules of one access point read and change of its record: the row of one station, and everything but the other rows. The
// rules are handed this and hand it back, and not the whole table; then it is put back into the record, in one place.
#![tactic(auto)]

ghost use Rattle.std.specs.Prelude.{◌≡◌, ◌≤◌, get_or};
ghost use Rattle.structs.specs.Blanks.{no_association};
ghost use Rattle.structs.specs.Lists.{get_associations};
ghost use Rattle.excerpt.specs.Excerpts.{excerpt_of, with_edit, edited, put_back, Allowed};

use slots::Blank;
use structs::{AccessPoint, Association, Associations, Moves};

// What happens to the table: nothing, the row at a place becomes another one (a new one last), or it is removed.
#[derive(Clone, Copy, Debug, PartialEq, Eq)]
pub enum Edit {
    Keep,
    Place,
    Remove,
}

#[derive(Clone, Copy, Debug, PartialEq, Eq)]
pub struct Excerpt {
    pub edit: Edit,
    // The place of the station's row, or the number of rows where it has none. Stays a number, and no Option: a new row goes to that place.
    pub at: usize,
    // The number of rows. Stays a number: the rows are not here.
    pub count: usize,
    // The row at that place; a blank one where there is none. Stays beside the edit and not in it: it is read also where nothing is placed.
    pub row: Association,
    pub moves: Moves,
    pub next_identifier: u16,
    pub opened: u32,
    pub resent: u32,
    pub answered: u32,
    pub given_up: u32,
}

// The row at place i, or a blank one where i is the number of rows.
fn row_at(t: &Associations, i: usize) -> Association
    requires { t.now.count ≤ 16 }
    ensures { result ≡ get_or (get_associations t.now) i no_association }
{
    match t.used().get(i) {
        Some(row) => *row,
        None => Association::blank(),
    }
}

// The excerpt of a record for one station: nothing is to be changed yet.
pub fn of(a: &AccessPoint, station: [u8; 6]) -> Excerpt
    requires { a.now.associations.count ≤ 16 }
    ensures { result ≡ excerpt_of station a.now }
{
    let t = &a.associations;
    let at = associations::find(t, station);
    Excerpt {
        edit: Edit::Keep,
        at,
        count: t.count,
        row: row_at(t, at),
        moves: a.moves,
        next_identifier: a.next_identifier,
        opened: a.opened,
        resent: a.resent,
        answered: a.answered,
        given_up: a.given_up,
    }
}

// The excerpt with this edit, and the row for it.
pub fn with_edit(x: &Excerpt, edit: Edit, row: Association) -> Excerpt
    ensures { result ≡ with_edit edit row x.now }
{
    Excerpt { edit, row, ..*x }
}

// Edits the table.
fn change(t: &mut Associations, edit: Edit, at: usize, row: Association)
    requires { (t.old.count ≤ 16) × Allowed edit at t.old.count }
    ensures { t.new ≡ edited edit at row t.old }
{
    match edit {
        Edit::Keep => {}
        Edit::Place => t.place(at, row),
        Edit::Remove => t.remove(at),
    }
}

// The excerpt put back into the record, where that stands.
pub fn store(a: &mut AccessPoint, x: &Excerpt)
    requires { (a.old.associations.count ≤ 16) × Allowed x.now.edit x.now.at a.old.associations.count }
    ensures { a.new ≡ put_back a.old x.now }
{
    change(&mut a.associations, x.edit, x.at, x.row);
    a.moves = x.moves;
    a.next_identifier = x.next_identifier;
    a.opened = x.opened;
    a.resent = x.resent;
    a.answered = x.answered;
    a.given_up = x.given_up;
}

// The record with the excerpt put back.
pub fn put_back(a: &AccessPoint, x: &Excerpt) -> AccessPoint
    requires { (a.now.associations.count ≤ 16) × Allowed x.now.edit x.now.at a.now.associations.count }
    ensures { result ≡ put_back a.now x.now }
{
    let mut after = *a;
    store(&mut after, x);
    after
}

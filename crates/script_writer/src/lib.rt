// The lines that the floor rehearsal prints, written at the front of a lent array, whose rest stays. Each function returns the length.
#![tactic(auto)]

ghost use Rattle.std.specs.Prelude.{◌≡◌, ◌+◌, ◌≤◌, length};
ghost use Rattle.answers.specs.Numbers.{number_of};
ghost use Rattle.script.specs.Put.{over, front};
ghost use Rattle.script.specs.Fields.{digit};
ghost use Rattle.script.specs.Result.{unreadable, field, result_as};
ghost use Rattle.floor_link.specs.Answered.{line_with, line_from};
ghost use Rattle.script_writer.specs.Held.{held_text};

use answers::{Answer, Refusal};
use floor_link::Line;
use structs::Kind;

// What a refused event tells but for its answer: "every other number of the answer 0".
const NOTHING: Line = Line {
    sent: 0,
    given_up: 0,
    held: 0,
    tables: 0,
};

// A lent array, of which the first `len` octets are written. Stays a length beside the array, and puts numbers by hand: `Display` would go
// through `fmt::Write`, whose errors each caller would have to rule out.
#[derive(Drop)]
struct Text<'a> {
    octets: &'a mut [u8; 32],
    len: usize,
}

impl Text<'_> {
    // Puts a text after what is written.
    fn put(&mut self, text: &[u8])
        requires { self.old.len + length text.now ≤ 32 }
        ensures len_after { self.new.len ≡ self.old.len + length text.now }
        ensures octets_after { self.new.octets.now ≡ over self.old.len text.now self.old.octets.now }
        ensures same_array { self.new.octets.ghost_name ≡ self.old.octets.ghost_name }
    {
        let at = self.len;
        let end = at + text.len();
        let octets = &mut self.octets[..];
        octets[at..end].copy_from_slice(text);
        self.len = end;
    }

    // Puts a blank and a number.
    #[tactic(auto, unfolding(script::specs::Result::field, script::specs::Fields::decimal))]
    fn put_number(&mut self, n: u8)
        requires { self.old.len + 4 ≤ 32 }
        ensures len_after { self.new.len ≡ self.old.len + length (field n) }
        ensures octets_after { self.new.octets.now ≡ over self.old.len (field n) self.old.octets.now }
        ensures same_array { self.new.octets.ghost_name ≡ self.old.octets.ghost_name }
    {
        if n < 10 {
            self.put(&[b' ', digit_of(n)]);
        } else if n < 100 {
            self.put(&[b' ', digit_of(n / 10), digit_of(n)]);
        } else {
            self.put(&[b' ', digit_of(n / 100), digit_of(n / 10), digit_of(n)]);
        }
    }

    // Puts HELD and TABLES, or ` - -` where there are none to tell.
    #[tactic(auto, using(crate::proofs::Short::field_short))]
    fn put_held(&mut self, held: Option<(u8, u8)>)
        requires { self.old.len + 8 ≤ 32 }
        ensures len_after { self.new.len ≡ self.old.len + length (held_text held) }
        ensures octets_after { self.new.octets.now ≡ over self.old.len (held_text held) self.old.octets.now }
        ensures same_array { self.new.octets.ghost_name ≡ self.old.octets.ghost_name }
    {
        match held {
            Some((held, tables)) => {
                self.put_number(held);
                self.put_number(tables);
            }
            None => self.put(b" - -"),
        }
    }
}

#[tactic(auto, unfolding(script::specs::Fields::digit))]
fn digit_of(n: u8) -> u8
    ensures { result ≡ digit n }
{
    b'0' + n % 10
}

// EVENT ANSWER SENT GIVENUP HELD TABLES, of any answer beside any numbers.
#[tactic(auto, using(crate::proofs::Short::field_short, crate::proofs::Short::name_short, crate::proofs::Short::text_short))]
pub fn result_with(line: &mut [u8; 32], kind: Kind, answer: Answer, l: Line) -> usize
    ensures value { result ≡ length (result_as kind (line_with (number_of answer) l)) }
    ensures line_after { line.new ≡ front (result_as kind (line_with (number_of answer) l)) line.old }
{
    let n = answers::number(answer);
    let mut text = Text {
        octets: line,
        len: 0,
    };
    text.put(script_fields::name(kind));
    text.put_number(n);
    text.put_number(l.sent);
    text.put_number(l.given_up);
    text.put_held((events::is_who(kind) && n == 0).then_some((l.held, l.tables)));
    text.put(b"\n");
    text.len
}

// ANSWER, and what else is told.
fn numbers(answer: Result<Line, Refusal>) -> (Answer, Line)
    ensures { line_with (number_of result.0) result.1 ≡ line_from answer }
{
    match answer {
        Ok(l) => (Ok(()), l),
        Err(r) => (Err(r), NOTHING),
    }
}

// EVENT ANSWER SENT GIVENUP HELD TABLES, of an event of this kind.
pub fn result(line: &mut [u8; 32], kind: Kind, answer: Result<Line, Refusal>) -> usize
    ensures value { result ≡ length (result_as kind (line_from answer)) }
    ensures line_after { line.new ≡ front (result_as kind (line_from answer)) line.old }
{
    let (answer, l) = numbers(answer);
    result_with(line, kind, answer, l)
}

// The line of an unreadable one.
#[tactic(auto, unfolding(script::specs::Result::unreadable))]
pub fn unreadable_line(line: &mut [u8; 32]) -> usize
    ensures value { result ≡ length unreadable }
    ensures line_after { line.new ≡ front unreadable line.old }
{
    let mut text = Text {
        octets: line,
        len: 0,
    };
    text.put(b"? 18 0 0 - -\n");
    text.len
}

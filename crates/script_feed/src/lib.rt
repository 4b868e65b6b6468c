// A script fed piece by piece, as it is read: a line that has ended is answered at once, and what there is of an unfinished one is kept.
#![tactic(auto)]

ghost use Rattle.std.specs.Prelude.{◌≡◌, ◌+◌, ◌*◌, ◌≤◌, ◌++◌, length, cond, is_some, true};
ghost use Rattle.lists.specs.Options.{case_option};
ghost use Rattle.network.specs.Lens.{new_network};
ghost use Rattle.network.specs.Sizes.{Sized};
ghost use Rattle.network.specs.Events.{valid_network_record};
ghost use Rattle.script.specs.Put.{front};
ghost use Rattle.script.specs.SetUpLines.{values_in};
ghost use Rattle.script.specs.Result.{result_names, bad_set_up};
ghost use Rattle.script_runner.specs.Played.{text_in, after_line};
ghost use Rattle.script_feed.specs.declared.Stage.TheVariants.{Ended};
ghost use Rattle.script_feed.specs.Feed.{line_ended, kept_ended, octet_fed, fed, shown, last_turn, closing, finished, CutAnyhow, ended, feeding_of, Good, Held};

use structs::Network;

// Which line comes next: the names of the set-up, its values, the names of the events, a line of an event; or none, after a bad set-up.
#[derive(Clone, Copy)]
pub enum Stage {
    Names,
    Values,
    EventNames,
    Playing,
    Ended,
}

// What is known between two pieces: the line that comes next, the network's record, and the first octets of that line, 256 at most. Stays an
// array with its used length beside it: nothing is allocated here.
#[derive(Clone, Copy)]
pub struct State {
    pub stage: Stage,
    pub network: Network,
    pub pending: [u8; 256],
    pub len: usize,
}

// The state after a piece, and the length of what it printed. The length stays a number: a slice would keep the buffer lent.
#[derive(Clone, Copy)]
pub struct Fed {
    pub state: State,
    pub len: usize,
}

// Before the first octet, on a record that no event sees.
pub fn start() -> State
    ensures state { Good result }
    ensures cut_anyhow { CutAnyhow (feeding_of result) }
{
    State {
        stage: Stage::Names,
        network: network::new_network(1, 1, 0),
        pending: [0; 256],
        len: 0,
    }
}

// A bad set-up: the names and `? 14 0 0 - -`, at the front of out: their length.
#[tactic(auto, unfolding(script::specs::Result::result_names, script::specs::Result::bad_set_up))]
fn refuse_set_up(out: &mut [u8]) -> usize
    requires { 51 ≤ length out.old }
    ensures value { result ≡ length (result_names ++ bad_set_up) }
    ensures out_after { out.new ≡ front (result_names ++ bad_set_up) out.old }
{
    octets::copy(
        b"EVENT ANSWER SENT GIVENUP HELD TABLES\n? 14 0 0 - -\n",
        out,
    );
    51
}

// What comes after a line, and the length of what it prints, which stays a number as in Fed.
#[derive(Clone, Copy)]
struct After {
    stage: Stage,
    len: usize,
}

// A line of the set-up. Where it is good, `stage` comes next, and it prints `text`. `good` stays a bool: it is what the line was found to be, and
// switches this step alone.
fn set_up_line(good: bool, stage: Stage, text: &[u8], out: &mut [u8]) -> After
    requires { (51 ≤ length out.old) × (length text.now ≤ 51) }
    ensures stage_value { result.stage ≡ cond good stage Ended }
    ensures len_value { result.len ≡ length (cond good text.now (result_names ++ bad_set_up)) }
    ensures out_after { out.new ≡ front (cond good text.now (result_names ++ bad_set_up)) out.old }
{
    if !good {
        return After {
            stage: Stage::Ended,
            len: refuse_set_up(out),
        };
    }
    octets::copy(text, out);
    After {
        stage,
        len: text.len(),
    }
}

// The line of values: sets the network up, where it is good.
fn values_line(network: &mut Network, l: &[u8]) -> bool
    ensures value { result ≡ is_some (values_in l.now) }
    ensures network_value { network.new ≡ case_option (values_in l.now) network.old (λ v. new_network v.aps v.timeout v.resends) }
{
    let Some(v) = script_reader::read_values(l) else {
        return false;
    };
    let Ok(n) = floor_link::set_up(v.aps, v.timeout, v.resends) else {
        return false;
    };
    *network = n;
    true
}

// A line of an event. What it prints is at the front of out: its length.
fn event_line(network: &mut Network, l: &[u8], out: &mut [u8]) -> usize
    requires { Sized network.old × (valid_network_record network.old ≡ true) × (51 ≤ length out.old) }
    ensures network_value { network.new ≡ after_line network.old l.now }
    ensures value { result ≡ length (text_in network.old l.now) }
    ensures out_after { out.new ≡ front (text_in network.old l.now) out.old }
{
    let mut text = [0; 32];
    let n = script_runner::turn(network, l, &mut text);
    octets::copy(&text[..n], out);
    n
}

// The line l, which has ended. What it prints is at the front of out.
fn end_line(stage: Stage, network: &mut Network, l: &[u8], out: &mut [u8]) -> After
    requires { Sized network.old × (valid_network_record network.old ≡ true) × (51 ≤ length out.old) }
    ensures stage_value { result.stage ≡ (line_ended stage network.old l.now).next.stage }
    ensures network_value { network.new ≡ (line_ended stage network.old l.now).next.network }
    ensures len_value { result.len ≡ length (line_ended stage network.old l.now).text }
    ensures out_after { out.new ≡ front (line_ended stage network.old l.now).text out.old }
{
    match stage {
        Stage::Names => set_up_line(
            l == b"APS TIMEOUT RESENDS".as_slice(),
            Stage::Values,
            b"",
            out,
        ),
        Stage::Values => set_up_line(values_line(network, l), Stage::EventNames, b"", out),
        Stage::EventNames => {
            let good = l == b"EVENT AT STATION SEQ OLD CONTEXT".as_slice();
            set_up_line(
                good,
                Stage::Playing,
                b"EVENT ANSWER SENT GIVENUP HELD TABLES\n",
                out,
            )
        }
        Stage::Playing => After {
            stage,
            len: event_line(network, l, out),
        },
        Stage::Ended => After { stage, len: 0 },
    }
}

// The line that is kept has ended. What it prints is at the front of out: its length.
fn end(state: &mut State, out: &mut [u8]) -> usize
    requires { Held state.old × (51 ≤ length out.old) }
    ensures state_after { feeding_of state.new ≡ (kept_ended (feeding_of state.old)).next }
    ensures kept { (state.new.len ≤ 256) × (length state.new.pending ≡ 256) }
    ensures value { result ≡ length (kept_ended (feeding_of state.old)).text }
    ensures out_after { out.new ≡ front (kept_ended (feeding_of state.old)).text out.old }
{
    let after = end_line(
        state.stage,
        &mut state.network,
        &state.pending[..state.len],
        out,
    );
    state.stage = after.stage;
    state.len = 0;
    after.len
}

// An octet more: it ends the line, or it is kept.
fn push(state: &mut State, x: u8, out: &mut [u8]) -> usize
    requires { Held state.old × (51 ≤ length out.old) }
    ensures state_after { feeding_of state.new ≡ (octet_fed (feeding_of state.old) x).next }
    ensures kept { (state.new.len ≤ 256) × (length state.new.pending ≡ 256) }
    ensures value { result ≡ length (octet_fed (feeding_of state.old) x).text }
    ensures out_after { out.new ≡ front (octet_fed (feeding_of state.old) x).text out.old }
{
    if x == b'\n' {
        return end(state, out);
    }
    if state.len < 256 {
        state.pending[state.len] = x;
        state.len += 1;
    }
    0
}

// A piece of a script. What became certain is printed at the front of out, whose rest stays.
pub fn feed(state: State, piece: &[u8], out: &mut [u8]) -> Fed
    requires { Good state × (32 * length piece.now + 128 ≤ length out.old) }
    ensures state_value { feeding_of result.state ≡ fed (feeding_of state) piece.now }
    ensures good_value { Good result.state }
    ensures len_value { result.len ≡ length (shown (feeding_of state) piece.now) }
    ensures out_after { out.new ≡ front (shown (feeding_of state) piece.now) out.old }
{
    let mut state = state;
    let mut len: usize = 0;
    for x in piece {
        len += push(&mut state, *x, &mut out[len..]);
    }
    Fed { state, len }
}

// Whether nothing more will be printed: the set-up was bad.
pub fn has_ended(state: &State) -> bool
    ensures { result ≡ ended state.now.stage }
{
    matches!(state.stage, Stage::Ended)
}

// A last line without its 0A, if there is one. What it prints is at the front of out: its length.
fn last_line(state: &mut State, out: &mut [u8]) -> usize
    requires { Held state.old × (51 ≤ length out.old) }
    ensures state_after { feeding_of state.new ≡ (last_turn (feeding_of state.old)).next }
    ensures value { result ≡ length (last_turn (feeding_of state.old)).text }
    ensures out_after { out.new ≡ front (last_turn (feeding_of state.old)).text out.old }
{
    if state.len == 0 {
        return 0;
    }
    end(state, out)
}

// The end of the script, where this line would come next: a set-up that is not complete is bad.
fn close(stage: Stage, out: &mut [u8]) -> usize
    requires { 51 ≤ length out.old }
    ensures value { result ≡ length (closing stage) }
    ensures out_after { out.new ≡ front (closing stage) out.old }
{
    match stage {
        Stage::Names | Stage::Values | Stage::EventNames => refuse_set_up(out),
        Stage::Playing | Stage::Ended => 0,
    }
}

// The end of the script: a last line without its 0A, and a set-up that is not complete. It prints at the front of out, whose rest stays.
pub fn finish(state: State, out: &mut [u8]) -> usize
    requires { Good state × (128 ≤ length out.old) }
    ensures value { result ≡ length (finished (feeding_of state)) }
    ensures out_after { out.new ≡ front (finished (feeding_of state)) out.old }
{
    let mut last = state;
    let len = last_line(&mut last, out);
    len + close(last.stage, &mut out[len..])
}

// Runs `script_runner::rehearse` on stored scripts. Each argument NAME stands for two files: NAME.in is a script, and NAME.out what it
// must print, octet for octet. The last line says how many scripts agree, or else what is wrong with the first one that does not:
//
//     COUNT scripts agree
//     NAME differs from octet PLACE on         the places count from 0
//     NAME has too long an output              it does not fit the buffer
//     FILE cannot be read
//     FILE is too long                         it fills the buffer
//     a name is empty or too long
#![tactic(auto)]

ghost use Rattle.std.specs.Prelude.{◌≡◌, true, ℕ, ◌+◌, ◌<◌, ◌≤◌, length, get_or, IfOk, IfSome};
ghost use Rattle.script.specs.Script.{output_of};

use std::env::{Env, FillError};
use std::fs;
use std::io::{Read, Result};
use std::rt::Files;

// Puts a text into `line` at `at`: the place after it.
fn put(line: &mut [u8], at: usize, text: &[u8]) -> usize
    requires { at + length text.now ≤ length line.old }
    ensures { result ≡ at + length text.now }
{
    octets::copy(text, &mut line[at..]);
    at + text.len()
}

// Writes a line of three parts. A line that cannot be written is left out.
fn say(rt: &impl Print, first: &[u8], second: &[u8], third: &str)
    requires { (length first.now ≤ 255) × (length second.now ≤ 64) × (length third.now ≤ 64) }
{
    let mut line = [0u8; 512];
    let a = put(&mut line, 0, first);
    let b = put(&mut line, a, second);
    let c = put(&mut line, b, third.as_bytes());
    let n = put(&mut line, c, b"\n");
    let _ = rt.write_all(&line[..n]);
}

// Reads a file to its end, or till the buffer is full. Each turn reads an octet at least. Stays a loop: how far the next read goes is what this
// one gives.
fn read_all(from: &mut impl Read, into: &mut [u8]) -> Result<usize>
    ensures { IfOk result (λ n. n ≤ length into.old) }
{
    let mut len = 0;
    while len < into.len() {
        let n = from.read(&mut into[len..])?;
        if n == 0 {
            break;
        }
        len += n;
    }
    Ok(len)
}

// Reads the file at a path. None where the path is no text, or there is no such file, or it cannot be read.
fn read_file(rt: &impl Files, path: &[u8], into: &mut [u8]) -> Option<usize>
    ensures { IfSome result (λ n. n ≤ length into.old) }
{
    let path = str::from_utf8(path).ok()?;
    let mut file = fs::open(rt, path).ok()?;
    read_all(&mut file, into).ok()
}

// The name of a file: a word and its ending. How long it is.
fn name_with(word: &[u8], ending: &[u8], path: &mut [u8]) -> usize
    requires { length word.now + length ending.now ≤ length path.old }
    ensures { result ≤ length path.old }
{
    let at = put(path, 0, word);
    put(path, at, ending)
}

// Reads the file of a name and an ending. None where something is wrong with it, which is written.
fn load(rt: &(impl Files + Print), name: &[u8], ending: &[u8], into: &mut [u8]) -> Option<usize>
    requires { (length name.now ≤ 255) × (length ending.now ≤ 64) }
    ensures { IfSome result (λ n. n ≤ length into.old) }
{
    let mut path = [0u8; 512];
    let n = name_with(name, ending, &mut path);
    let Some(len) = read_file(rt, &path[..n], into) else {
        say(rt, name, ending, " cannot be read");
        return None;
    };
    if len == into.len() {
        say(rt, name, ending, " is too long");
        return None;
    }
    Some(len)
}

// Where two texts differ first; where one begins with the other, the length of the shorter.
fn first_difference(a: &[u8], b: &[u8]) -> usize
    ensures within { (result ≤ length a.now) × (result ≤ length b.now) }
    ensures before { (k : ℕ) → k < result → get_or a.now k 0 ≡ get_or b.now k 0 }
    ensures there { result < length a.now → result < length b.now → get_or a.now result 0 ≡ get_or b.now result 0 → ⊥ }
{
    let place = a.iter().zip(b).position(|(x, y)| x != y);
    place.unwrap_or(a.len().min(b.len()))
}

fn say_differs(rt: &impl Print, name: &[u8], place: usize)
    requires { length name.now ≤ 255 }
{
    let mut digits = [0u8; 20];
    let k = io::decimal(place as u64, &mut digits);
    let mut line = [0u8; 64];
    let at = put(&mut line, 0, b" differs from octet ");
    let n = put(&mut line, at, &digits[..k]);
    say(rt, name, &line[..n], " on");
}

// Whether the texts are the same; else where they differ is written.
fn same_text(rt: &impl Print, name: &[u8], printed: &[u8], wanted: &[u8]) -> bool
    requires { length name.now ≤ 255 }
    ensures { result ≡ true → printed.now ≡ wanted.now }
{
    if printed == wanted {
        return true;
    }
    say_differs(rt, name, first_difference(printed, wanted));
    false
}

fn say_unnamed(rt: &impl Print) {
    let _ = println!(rt; "a name is empty or too long");
}

// Whether a script prints what it must.
fn prints(rt: &impl Print, name: &[u8], script: &[u8], wanted: &[u8], out: &mut [u8]) -> bool
    requires { length name.now ≤ 255 }
    ensures { result ≡ true → output_of script.now ≡ wanted.now }
{
    match script_runner::rehearse(script, out) {
        Ok(n) => same_text(rt, name, &out[..n], wanted),
        Err(_) => {
            say(rt, name, b"", " has too long an output");
            false
        }
    }
}

// Whether the script of a name prints what it must.
fn agrees(
    rt: &(impl Files + Print),
    name: &[u8],
    script: &mut [u8],
    wanted: &mut [u8],
    out: &mut [u8],
) -> bool
    requires { length name.now ≤ 255 }
{
    let Some(m) = load(rt, name, b".in", script) else {
        return false;
    };
    let Some(n) = load(rt, name, b".out", wanted) else {
        return false;
    };
    prints(rt, name, &script[..m], &wanted[..n], out)
}

// Whether the script that argument i names prints what it must; None where there is no such argument.
fn check(
    rt: &(impl Env + Files + Print),
    i: usize,
    script: &mut [u8],
    wanted: &mut [u8],
    out: &mut [u8],
) -> Option<bool> {
    let mut word = [0u8; 255];
    match rt.arg(i, &mut word) {
        Ok(n) if n > 0 => Some(agrees(rt, &word[..n], script, wanted, out)),
        Err(FillError::NotPresent) => None,
        _ => {
            say_unnamed(rt);
            Some(false)
        }
    }
}

// The arguments in order. The first is the program's own name. Stays a loop over numbers: an argument is asked for by its number.
fn check_all(
    rt: &(impl Env + Files + Print),
    script: &mut [u8],
    wanted: &mut [u8],
    out: &mut [u8],
) {
    for i in 1..usize::MAX {
        match check(rt, i, script, wanted, out) {
            Some(true) => {}
            Some(false) => return,
            None => {
                let count = i - 1;
                let _ = println!(rt; "{count} scripts agree");
                return;
            }
        }
    }
}

fn main(rt: HostRuntime) {
    let mut script = [0u8; 16384];
    let mut wanted = [0u8; 16384];
    let mut out = [0u8; 16384];
    check_all(&rt, &mut script, &mut wanted, &mut out);
}

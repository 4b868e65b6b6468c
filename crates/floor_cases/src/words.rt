// What a line of input says: its words, which single blanks part.
ghost use Rattle.std.specs.Prelude.{◌<◌, ◌≤◌};

// Octets that a word says, 400 at most: the first `len` of `all`.
#[derive(Clone, Copy)]
pub struct Octets {
    all: [u8; 400],
    len: usize,
}

impl Octets {
    pub fn used(&self) -> &[u8] {
        &self.all[..self.len.min(400)]
    }

    // `more` octets more, each one more than the one before it; where there is none before it, 00 is the first.
    fn extended(self, more: u64) -> Octets {
        let mut last = self.used().last().copied().unwrap_or(255);
        let mut all = self.all;
        for slot in all.iter_mut().skip(self.len).take(more as usize) {
            last = last.wrapping_add(1);
            *slot = last;
        }
        let len = self.len.saturating_add(more as usize).min(400);
        Octets { all, len }
    }
}

// The value of a hex digit with a small letter.
fn digit(x: u8) -> u8 {
    if x.is_ascii_digit() {
        x.wrapping_sub(b'0')
    } else {
        x.wrapping_sub(b'a').wrapping_add(10)
    }
}

// The octets of a run of hex digits, two for each.
fn of_digits(digits: &[u8]) -> Octets {
    let mut all = [0; 400];
    for (slot, pair) in all.iter_mut().zip(digits.chunks_exact(2)) {
        *slot = pair
            .iter()
            .fold(0, |h: u8, x| h.wrapping_mul(16).wrapping_add(digit(*x)));
    }
    let len = (digits.len() / 2).min(400);
    Octets { all, len }
}

// The number that a word is, modulo 2 to the 64th; an octet that is no digit is passed over. None where there is no digit.
fn number_in(word: &[u8]) -> Option<u64> {
    let mut n = None;
    for octet in word {
        if octet.is_ascii_digit() {
            let before: u64 = n.unwrap_or(0);
            n = Some(before.wrapping_mul(10).wrapping_add((*octet - b'0') as u64));
        }
    }
    n
}

// What stands in a word before the first octet x, and what behind it: the whole word and nothing where it has none.
pub fn parted(word: &[u8], x: u8) -> (&[u8], &[u8]) {
    let mut parts = word.splitn(2, |octet| *octet == x);
    let front = parts.next().unwrap_or(&[]);
    (front, parts.next().unwrap_or(&[]))
}

#[derive(Clone, Copy)]
pub struct Line<'a>(pub &'a [u8]);

impl<'a> Line<'a> {
    // Word k of the line, counted from 0; a missing one is empty.
    pub fn word(self, k: usize) -> &'a [u8] {
        self.0.split(|x| *x == b' ').nth(k).unwrap_or(&[])
    }

    // The line from word k on.
    pub fn after(self, k: usize) -> Line<'a> {
        let rest = self.0.splitn(k.saturating_add(1), |x| *x == b' ').nth(k);
        Line(rest.unwrap_or(&[]))
    }

    // The number that word k is. `-` and a missing word are none.
    pub fn field(self, k: usize) -> Option<u64> {
        number_in(self.word(k))
    }

    // The same, with 0 for none.
    pub fn number(self, k: usize) -> u64 {
        self.field(k).unwrap_or(0)
    }

    // That number modulo 65536.
    pub fn short(self, k: usize) -> u16 {
        (self.number(k) % 65536) as u16
    }

    // The same, where there may be none.
    pub fn option(self, k: usize) -> Option<u16> {
        self.field(k).and(Some(self.short(k)))
    }

    // That number modulo 256.
    pub fn octet(self, k: usize) -> u8 {
        (self.number(k) % 256) as u8
    }

    // That number as a place among `places`.
    pub fn place(self, k: usize, places: usize) -> usize
        requires { 0 < places }
        ensures { result < places }
    {
        self.number(k) as usize % places
    }

    // That number as the size of a lent buffer, 160 at most.
    pub fn room(self, k: usize) -> usize
        ensures { result ≤ 160 }
    {
        (self.number(k) as usize).min(160)
    }

    // The station at word k: 12 hex digits, or else a number s, which stands for 02 00 00 00 and s in two octets; for a number from 1000
    // on 03 stands in front, which makes it a group's.
    pub fn station(self, k: usize) -> [u8; 6] {
        let s = self.short(k);
        let [high, low] = s.to_be_bytes();
        let front = if s < 1000 { 2 } else { 3 };
        script_fields::read_station(self.word(k)).unwrap_or([front, 0, 0, 0, high, low])
    }

    // The octets at word k: hex digits, and where `*` and a number follow, as many octets more, each one more than the one before it.
    pub fn octets(self, k: usize) -> Octets {
        let (digits, more) = parted(self.word(k), b'*');
        of_digits(digits).extended(number_in(more).unwrap_or(0))
    }
}

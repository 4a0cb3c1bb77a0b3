// The words of a line, the items of a word, and what they stand for.
ghost use Rattle.std.specs.Prelude.{◌≡◌, ◌≤◌, ◌==◌, IfSome, count_by, length};

// The words of a line are counted from 0; word 0 names what is asked.
pub fn word(line: &[u8], k: usize) -> Option<&[u8]>
    ensures { IfSome result (λ w. length w.now ≤ length line.now) }
{
    line.split(|byte| *byte == b' ').nth(k)
}

// How many words stand behind word 0.
pub fn count(line: &[u8]) -> usize
    ensures { result ≡ count_by (λ b. b == 32) line.now }
{
    line.iter().filter(|byte| **byte == b' ').count()
}

// The value of a hexadecimal digit.
fn digit(byte: u8) -> Option<u8> {
    match byte {
        b'0'..=b'9' => Some(byte - b'0'),
        b'a'..=b'f' => Some(byte - b'a' + 10),
        _ => None,
    }
}

pub fn hex_byte(word: &[u8]) -> Option<u8> {
    let [high, low] = word else {
        return None;
    };
    Some(digit(*high)? << 4 | digit(*low)?)
}

// A number that has no digits is none, nor is one that doesn't fit.
pub fn decimal(word: &[u8]) -> Option<usize> {
    if word.is_empty() {
        return None;
    }
    let mut n: usize = 0;
    for byte in word {
        let digit = char::from(*byte).to_digit(10)?;
        n = n.checked_mul(10)?.checked_add(digit as usize)?;
    }
    Some(n)
}

// A number that may be below zero. There is no -0.
pub fn integer(word: &[u8]) -> Option<i64> {
    let Some(size) = word.strip_prefix(b"-") else {
        return i64::try_from(decimal(word)?).ok();
    };
    let below = i64::try_from(decimal(size)?.checked_sub(1)?).ok()?;
    Some(-1 - below)
}

// What stands in a list: a byte is two hexadecimal digits, a length a decimal number.
pub trait Item: Copy {
    fn read(word: &[u8]) -> Option<Self>;
}

impl Item for u8 {
    fn read(word: &[u8]) -> Option<u8> {
        hex_byte(word)
    }
}

impl Item for usize {
    fn read(word: &[u8]) -> Option<usize> {
        decimal(word)
    }
}

// An item, and how often it is there: what stands behind its star, or once.
fn repeated<T: Item>(part: &[u8]) -> Option<(T, usize)> {
    let mut words = part.split(|byte| *byte == b'*');
    let item = T::read(words.next()?)?;
    let times = match words.next() {
        Some(word) => decimal(word)?,
        None => 1,
    };
    match words.next() {
        Some(_) => None,
        None => Some((item, times)),
    }
}

// Puts the items that a word stands for at the front, and lends these.
fn list<'a, T: Item>(word: &[u8], room: &'a mut [T]) -> Option<&'a [T]> {
    if word == b"-".as_slice() {
        return Some(&room[..0]);
    }
    let mut n: usize = 0;
    for part in word.split(|byte| *byte == b',') {
        let (item, times) = repeated::<T>(part)?;
        let end = n.checked_add(times)?;
        for slot in room.get_mut(n..end)? {
            *slot = item;
        }
        n = end;
    }
    room.get(..n)
}

// What a word of a line stands for.
pub fn number_at(line: &[u8], k: usize) -> Option<usize> {
    decimal(word(line, k)?)
}

pub fn items_at<'a, T: Item>(line: &[u8], k: usize, room: &'a mut [T]) -> Option<&'a [T]> {
    list(word(line, k)?, room)
}

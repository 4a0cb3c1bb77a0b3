// Notations.
use crate::words::{copy, put, put_answer, put_refused};
use refusal::Refusal;
use types::number::{bits32, bits64};
use types::{Place, Walk, Walked, read};

// Word 0: 0 a refusal (word 1 its number), 1 a value (word 1; signed ones as their bits), 2 a part (words 1 and 2: start and length), 3 null, 4 a
// list (words 1 and 2: how many strings and where the first begins). Word 3 is where the notation ends.
fn put_read<T, F: FnOnce(T) -> [usize; 3]>(
    said: &mut [usize],
    answer: Result<(T, usize), Refusal>,
    show: F,
)
    requires { F.IsAlwaysCallable show }
{
    let words = answer.map(|(value, next)| {
        let [name, a, b] = show(value);
        [name, a, b, next]
    });
    put_answer(said, words);
}

fn number<T: Into<u64>>(x: T) -> [usize; 3] {
    let bits: u64 = x.into();
    [1, bits as usize, 0]
}

fn part(place: Place) -> [usize; 3] {
    [2, place.start, place.len]
}

fn part_or_null(place: Option<Place>) -> [usize; 3] {
    place.map_or([3, 0, 0], part)
}

fn list(walk: Walk) -> [usize; 3] {
    [4, walk.left as usize, walk.at]
}

// The notations in this order: byte, short, int, long, uuid, short bytes, string, long string, bytes, string list.
#[unsafe(no_mangle)]
pub extern "C" fn judged_notation(kind: usize, bytes: &[u8], at: usize, said: &mut [usize]) {
    match kind {
        0 => put_read(said, read::read_byte(bytes, at), number),
        1 => put_read(said, read::read_short(bytes, at), number),
        2 => put_read(said, read::read_int(bytes, at), |x| number(bits32(x))),
        3 => put_read(said, read::read_long(bytes, at), |x| number(bits64(x))),
        4 => put_read(said, read::read_uuid(bytes, at), part),
        5 => put_read(said, read::read_short_bytes(bytes, at), part),
        6 => put_read(said, read::read_string(bytes, at), part),
        7 => put_read(said, read::read_long_string(bytes, at), part),
        8 => put_read(said, read::read_bytes(bytes, at), part_or_null),
        _ => put_read(said, read::read_string_list(bytes, at), list),
    }
}

// The next string of a list of which so many are left: a part, with the number of strings left in word 4, or 3 at the end.
#[unsafe(no_mangle)]
pub extern "C" fn judged_next(bytes: &[u8], left: u16, at: usize, said: &mut [usize]) {
    match read::next_string(bytes, Walk { left, at }) {
        Ok(Walked::Text(place, walk)) => {
            let words = [2, place.start, place.len, walk.at, walk.left as usize];
            put(said, 0, &words);
        }
        Ok(Walked::End(next)) => put(said, 0, &[3, 0, 0, next]),
        Err(why) => put_refused(said, 0, why),
    }
}

// Copies the part at a place, and answers how long it is.
#[unsafe(no_mangle)]
pub extern "C" fn judged_part(bytes: &[u8], start: usize, len: usize, out: &mut [u8]) -> usize {
    copy(out, types::part(bytes, Place { start, len }))
}

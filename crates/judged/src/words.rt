// Lists of words, and the values that several calls have in common.
use refusal::Refusal;
use segment::Form;

pub fn get(words: &[usize], k: usize) -> usize {
    words.get(k).copied().unwrap_or(0)
}

// Copies what fits, and answers how much there was.
pub fn copy<T: Copy>(out: &mut [T], from: &[T]) -> usize {
    for (slot, item) in out.iter_mut().zip(from) {
        *slot = *item;
    }
    from.len()
}

// Items from a place on, each where there is one. One by one: a copy at once of what stands in a function's own memory would need `memcpy` from outside.
pub fn put<T: Copy>(out: &mut [T], k: usize, items: &[T]) {
    for (i, item) in items.iter().enumerate() {
        if let Some(slot) = out.get_mut(k.saturating_add(i)) {
            *slot = *item;
        }
    }
}

// A refusal: the word that names it as one, and its number.
pub fn put_refused(said: &mut [usize], name: usize, why: Refusal) {
    put(said, 0, &[name, why.number() as usize, 0, 0]);
}

// Four words of an answer, or a refusal, which 0 names.
pub fn put_answer(said: &mut [usize], answer: Result<[usize; 4], Refusal>) {
    match answer {
        Ok(words) => put(said, 0, &words),
        Err(why) => put_refused(said, 0, why),
    }
}

// Word 0: 0 incomplete, 1 a value, whose words stand from a place on, 2 a refusal, whose number is word 1.
pub fn put_reading<const N: usize>(
    said: &mut [usize],
    k: usize,
    answer: Result<Option<[usize; N]>, Refusal>,
) {
    match answer {
        Ok(None) => put(said, 0, &[0]),
        Ok(Some(words)) => {
            put(said, 0, &[1]);
            put(said, k, &words);
        }
        Err(why) => put_refused(said, 2, why),
    }
}

// The words that stand for the cases of an enum are told to the C side, so they are written out, here and in `reader`, and do not follow from the order
// in which the cases stand.

// 1 is the long form, all else the short one.
pub fn form(word: usize) -> Form {
    match word {
        1 => Form::Long,
        _ => Form::Short,
    }
}

pub fn of_form(form: Form) -> usize {
    match form {
        Form::Short => 0,
        Form::Long => 1,
    }
}

// The words of a line, and the numbers that words are.

// A word as a number, its sign apart.
#[derive(Clone, Copy)]
pub struct Word {
    magnitude: u64,
    is_negative: bool,
}

impl From<&[u8]> for Word {
    fn from(word: &[u8]) -> Word {
        Word {
            magnitude: word.iter().fold(0, |x, byte| appended(x, *byte)),
            is_negative: word.contains(&b'-'),
        }
    }
}

// The nearest number of each type; where there is no room for a sign, the sign counts for nothing.
impl From<Word> for i32 {
    fn from(word: Word) -> i32 {
        let magnitude = u32::from(word);
        if word.is_negative {
            0i32.saturating_sub_unsigned(magnitude)
        } else {
            0i32.saturating_add_unsigned(magnitude)
        }
    }
}

impl From<Word> for usize {
    fn from(word: Word) -> usize {
        word.magnitude as usize
    }
}

impl From<Word> for u32 {
    fn from(word: Word) -> u32 {
        u32::try_from(word.magnitude).unwrap_or(u32::MAX)
    }
}

impl From<Word> for u16 {
    fn from(word: Word) -> u16 {
        u16::try_from(word.magnitude).unwrap_or(u16::MAX)
    }
}

impl From<Word> for u8 {
    fn from(word: Word) -> u8 {
        u8::try_from(word.magnitude).unwrap_or(u8::MAX)
    }
}

// The number with one more digit; a byte that is none, or that the number has no room for, adds none.
fn appended(x: u64, byte: u8) -> u64 {
    if !byte.is_ascii_digit() {
        return x;
    }
    let digit = u64::from(byte - b'0');
    x.checked_mul(10)
        .and_then(|tens| tens.checked_add(digit))
        .unwrap_or(x)
}

// The first word of a line, and what stands behind it.
fn split(line: &[u8]) -> (&[u8], &[u8]) {
    match line.iter().position(|byte| *byte == b' ') {
        Some(end) => (&line[..end], &line[end + 1..]),
        None => (line, &line[..0]),
    }
}

// What stands behind word k of a line; word 0 is what the line is for.
pub fn behind(line: &[u8], k: usize) -> &[u8] {
    let mut rest = line;
    for _ in 0..=k {
        rest = split(rest).1;
    }
    rest
}

// Word k of a line; one that the line lacks is 0.
pub fn number<T: From<Word>>(line: &[u8], k: usize) -> T {
    let word = line.split(|byte| *byte == b' ').nth(k);
    T::from(Word::from(word.unwrap_or(b"")))
}

// The byte that the second word of a line starts with.
pub fn second(line: &[u8]) -> Option<u8> {
    behind(line, 0).first().copied()
}

// Fills a list with the words of a line, over and over.
pub fn fill<T: From<Word> + Copy>(words: &[u8], xs: &mut [T]) {
    let mut rest = words;
    for x in xs {
        if rest.is_empty() {
            rest = words;
        }
        let (word, others) = split(rest);
        *x = T::from(Word::from(word));
        rest = others;
    }
}

//! Whole numbers as wide as a sum needs them, as their words of 64 bits, the lowest first.

ghost use Rattle.std.specs.Prelude.{◌≡◌, ◌<◌, ◌≤◌, ◌+◌, ◌*◌, ◌^◌, MatchOption, length, max, drop};
ghost use Rattle.arrayvec.specs.ArrayVec.{array_vec_len};
ghost use Rattle.fraction128.specs.wide_sums.Words.{number};

use crate::wide_sums::products::MOST_PRODUCTS;
use arrayvec::ArrayVec;

/// How many words a number may have. A product has two denominators below 2^127, so the product of all of them has four
/// words more with each, after one word for 1. The sum over it is made of that and two numerators, and so has two words
/// more at most.
pub(crate) const MOST_WORDS: usize = 4 * MOST_PRODUCTS + 3;

/// A whole number, as its words.
pub(crate) type Words = ArrayVec<u64, MOST_WORDS>;

/// One more than the largest word.
const BASE: u128 = 1 << 64;

/// The word at a place, and 0 past the last one.
fn word_at(words: &[u64], place: usize) -> u64
    ensures { number (drop place words.now) ≡ result + 2 ^ 64 * number (drop (place + 1) words.now) }
{
    if place < words.len() { words[place] } else { 0 }
}

/// A word, and what is above it.
#[derive(Clone, Copy)]
struct Split {
    /// The word.
    word: u64,
    /// What is above it, in words' worth.
    above: u128,
}

/// A word times a factor, with a carry and a word more.
fn grown(word: u64, factor: u128, carry: u128, more: u64) -> Split
    requires small { factor < 2 ^ 127 }
    requires carry { carry ≤ factor }
    ensures value { word * factor + carry + more ≡ result.word + 2 ^ 64 * result.above }
    ensures most { result.above ≤ factor }
{
    let low = word as u128 * (factor % BASE) + carry % BASE + more as u128;
    let high = word as u128 * (factor / BASE) + carry / BASE;
    Split {
        word: (low % BASE) as u64,
        above: high + low / BASE,
    }
}

/// Puts a carry after the words of a number.
fn push_carry(words: &mut Words, carry: u128)
    requires { array_vec_len words.old + 2 ≤ MOST_WORDS }
    ensures value { number words.new.items ≡ number words.old.items + (2 ^ 64) ^ array_vec_len words.old * carry }
    ensures room { array_vec_len words.new ≤ array_vec_len words.old + 2 }
{
    if carry > 0 {
        words.push((carry % BASE) as u64);
    }
    if carry >= BASE {
        words.push((carry / BASE) as u64);
    }
}

/// A number times a factor, and another one more.
pub(crate) fn times_plus(words: &[u64], factor: u128, more: &[u64]) -> Words
    requires factor { factor < 2 ^ 127 }
    requires room { max (length words.now) (length more.now) + 2 ≤ MOST_WORDS }
    ensures value { number result.items ≡ number words.now * factor + number more.now }
    ensures room { array_vec_len result ≤ max (length words.now) (length more.now) + 2 }
{
    let mut all = Words::new();
    let mut carry = 0;
    for place in 0..words.len().max(more.len()) {
        let split = grown(word_at(words, place), factor, carry, word_at(more, place));
        all.push(split.word);
        carry = split.above;
    }
    push_carry(&mut all, carry);
    all
}

/// A number times two factors, and another one more.
pub(crate) fn times_both_plus(words: &[u64], one: u128, other: u128, more: &[u64]) -> Words
    requires one { one < 2 ^ 127 }
    requires other { other < 2 ^ 127 }
    requires room { max (length words.now + 2) (length more.now) + 2 ≤ MOST_WORDS }
    ensures value { number result.items ≡ number words.now * one * other + number more.now }
    ensures room { array_vec_len result ≤ max (length words.now + 2) (length more.now) + 2 }
{
    let first = times_plus(words, one, &[]);
    times_plus(&first, other, more)
}

/// What the division of one word gives.
#[derive(Clone, Copy)]
struct WordDivided {
    /// How often the divisor goes in.
    quotient: u64,
    /// What is left, less than the divisor.
    rest: u128,
}

/// The quotient and the rest of a word below what was left so far, bit by bit from the highest.
fn divide_word(before: u128, word: u64, by: u128) -> WordDivided
    requires small { by < 2 ^ 127 }
    requires before { before < by }
    ensures whole { 2 ^ 64 * before + word ≡ by * result.quotient + result.rest }
    ensures rest { result.rest < by }
{
    let mut left = word;
    let mut quotient: u64 = 0;
    let mut rest = before;
    for _step in 0..64u32 {
        rest = 2 * rest + (left / (1 << 63)) as u128;
        left = 2 * (left % (1 << 63));
        quotient *= 2;
        if rest >= by {
            rest -= by;
            quotient += 1;
        }
    }
    WordDivided { quotient, rest }
}

/// What a division gives.
#[derive(Drop)]
pub(crate) struct Divided {
    /// How often the divisor goes into the number.
    pub quotient: Words,
    /// What is left, less than the divisor.
    pub rest: u128,
}

/// The quotient and the rest, word by word from the highest.
pub(crate) fn divide(words: &[u64], by: u128) -> Divided
    requires some { 0 < by }
    requires small { by < 2 ^ 127 }
    requires room { length words.now ≤ MOST_WORDS }
    ensures whole { number words.now ≡ by * number result.quotient.items + result.rest }
    ensures rest { result.rest < by }
{
    let mut quotient = Words::new();
    let mut rest = 0;
    for place in (0..words.len()).rev() {
        let divided = divide_word(rest, words[place], by);
        quotient.push(divided.quotient);
        rest = divided.rest;
    }
    quotient.reverse();
    Divided { quotient, rest }
}

/// The number, where it is below 2^127.
pub(crate) fn small_number(words: &[u64]) -> Option<u128>
    ensures { MatchOption result (2 ^ 127 ≤ number words.now) (λ n. (n ≡ number words.now) × (n < 2 ^ 127)) }
{
    let mut value = 0;
    for place in (0..words.len()).rev() {
        if value >= 1 << 63 {
            return None;
        }
        value = BASE * value + words[place] as u128;
    }
    Some(value)
}

// The loops over words: each takes slices, knows nothing of how many words they have, and is proved
// once. A list of words means a set of numbers (specs/Sets.antt): number i is bit i % 64, from the
// least, of word i / 64.

ghost use Rattle.std.specs.Prelude.{◌≡◌, ◌*◌, ◌-◌, ◌<◌, ◌≤◌, length};
ghost use Rattle.std.specs.Bool.{xor};
ghost use Rattle.base.specs.Digits.{bit};
ghost use Rattle.base.specs.Counting.{count, among};
ghost use Rattle.base.specs.Tests.{seek};
ghost use Rattle.words.specs.Sets.{member, plus, either, unlike, meets_in, inside_in, relation_of, most_words, Alike};

use super::Relation;

// Number i is a member.
pub fn has(words: &[u64], i: usize) -> bool
    requires { i < 64 * length words.now }
    ensures { result ≡ member words.now i }
{
    let word = words[i / 64];
    (word >> (i % 64)) & 1 == 1
}

// Number i becomes a member.
pub fn add(words: &mut [u64], i: usize)
    requires { i < 64 * length words.old }
    ensures { member words.new ≡ plus (member words.old) i }
{
    let j = i / 64;
    words[j] = words[j] | (1 << (i % 64));
}

// Number i becomes a member. Says whether it was one before.
pub fn add_again(words: &mut [u64], i: usize) -> bool
    requires { i < 64 * length words.old }
    ensures value { result ≡ member words.old i }
    ensures words_after { member words.new ≡ plus (member words.old) i }
{
    let j = i / 64;
    let before = words[j];
    let after = before | (1 << (i % 64));
    words[j] = after;
    after == before
}

// The members of `from` become members of `into`. (Of a slice that is written under a `zip` of `iter_mut` a proof
// knows nothing afterwards, so here and in `flip` the other word is read by the word's place.)
pub(crate) fn join(into: &mut [u64], from: &[u64])
    requires { Alike into.old from.now }
    ensures { member into.new ≡ either (member into.old) (member from.now) }
{
    for (j, word) in into.iter_mut().enumerate() {
        *word |= from[j];
    }
}

// The members of `from` change sides: those of `into` leave it, the others become members.
pub(crate) fn flip(into: &mut [u64], from: &[u64])
    requires { Alike into.old from.now }
    ensures { member into.new ≡ unlike (member into.old) (member from.now) }
{
    for (j, word) in into.iter_mut().enumerate() {
        *word ^= from[j];
    }
}

// Some number is a member of both.
pub(crate) fn meets(a: &[u64], b: &[u64]) -> bool
    requires { Alike a.now b.now }
    ensures { result ≡ meets_in (64 * length a.now) (member a.now) (member b.now) }
{
    a.iter().zip(b).any(|(x, y)| *x & *y != 0)
}

// Each member of a is a member of b.
pub(crate) fn inside(a: &[u64], b: &[u64]) -> bool
    requires { Alike a.now b.now }
    ensures { result ≡ inside_in (64 * length a.now) (member a.now) (member b.now) }
{
    a.iter().zip(b).all(|(own, other)| *own | *other == *other)
}

// How the set a lies to the set b.
pub(crate) fn compare(a: &[u64], b: &[u64]) -> Relation
    requires { Alike a.now b.now }
    ensures { result ≡ relation_of (64 * length a.now) (member a.now) (member b.now) }
{
    match (inside(a, b), inside(b, a)) {
        (true, true) => Relation::Equal,
        (true, false) => Relation::Inside,
        (false, true) => Relation::Holds,
        (false, false) => {
            if meets(a, b) {
                Relation::Crossing
            } else {
                Relation::Apart
            }
        }
    }
}

// How many numbers are members of one and not of the other.
pub(crate) fn differing(a: &[u64], b: &[u64]) -> usize
    requires { Alike a.now b.now }
    ensures { result ≡ count (64 * length a.now) (λ m. xor (member a.now m) (member b.now m)) }
{
    a.iter()
        .zip(b)
        .map(|(x, y)| u64::count_ones(*x ^ *y) as usize)
        .sum()
}

// The word's k lowest ones: while there are more, the highest goes.
fn cut(word: u64, k: usize) -> u64
    ensures { bit result ≡ among k (bit word) }
{
    if k == 0 {
        return 0;
    }
    let mut kept = word;
    while k < u64::count_ones(kept) as usize {
        kept -= 1 << (63 - u64::leading_zeros(kept));
    }
    kept
}

// The k lowest members stay.
pub(crate) fn keep_lowest(words: &mut [u64], k: usize)
    ensures { member words.new ≡ among k (member words.old) }
{
    let mut left = k;
    for word in words.iter_mut() {
        *word = cut(*word, left);
        left -= u64::count_ones(*word) as usize;
    }
}

// The lowest member from `from` on, or 64 * the number of words where there is none. (A `for` over the words
// would be no plainer: the first is read from a digit on, and i, which leaps from word to word, is the answer.)
pub(crate) fn next(words: &[u64], from: usize) -> usize
    requires words_len_bound { length words.now ≤ most_words }
    requires from_bound { from ≤ 64 * length words.now }
    ensures { result ≡ seek (member words.now) (64 * length words.now - from) from }
{
    let mut i = from;
    while i / 64 < words.len() {
        let word = words[i / 64] >> (i % 64);
        if word != 0 {
            return i + u64::trailing_zeros(word) as usize;
        }
        i = 64 * (i / 64 + 1);
    }
    i
}

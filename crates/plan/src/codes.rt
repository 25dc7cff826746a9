// Net codes: their width, and one pattern of them as the set of nets whose value is 1.
ghost use Rattle.std.specs.Prelude.{◌≡◌, cond, ◌&&◌, ℕ, ◌+◌, ◌*◌, ◌-◌, ◌<◌, ◌≤◌, ltb};
ghost use Rattle.base.specs.Digits.{bit, ceil};
ghost use Rattle.rules.specs.File.{most_number};
ghost use Rattle.rules.specs.Vectors.{code_width, code_bit};
ghost use Rattle.words.specs.Sets.{net_words, member, up_to};
ghost use Rattle.plan.specs.Plans.{WordOf};

use words::{NET_WORDS, NetSet};

// Digits 0 to 5 of the codes 1 to 64, a word each: the next 64 codes have the same, and so on.
const LOW: [u64; 6] = [
    0x5555555555555555,
    0x6666666666666666,
    0x7878787878787878,
    0x7f807f807f807f80,
    0x7fff80007fff8000,
    0x7fffffff80000000,
];

// p, the number of binary digits of N + 1: "the least number with 2^p at least N + 2".
pub fn width(nets: usize) -> usize
    requires { nets ≤ 64 * net_words }
    ensures { result ≡ code_width nets }
{
    (usize::BITS - (nets + 1).leading_zeros()) as usize
}

// 63 digits of one value, and the highest of another.
fn spread(lower: bool, top: bool) -> u64
    ensures { (k : ℕ) → k < 64 → bit result k ≡ cond (ltb k 63) lower top }
{
    match (lower, top) {
        (true, true) => u64::MAX,
        (true, false) => u64::MAX >> 1,
        (false, true) => 1 << 63,
        (false, false) => 0,
    }
}

// Pattern j + 1 of `wide` at the nets from 64 * w on: net 64 * w + k has code 64 * w + k + 1.
fn code_word(wide: usize, j: usize, w: usize) -> u64
    requires { (j < wide) × (wide ≤ 64) × (w < net_words) }
    ensures { WordOf (code_bit wide j) w result }
{
    let digit = wide - (j + 1);
    if digit < 6 {
        return LOW[digit];
    }
    let lower = (w >> (digit - 6)) & 1 == 1;
    let top = ((w + 1) >> (digit - 6)) & 1 == 1;
    spread(lower, top)
}

// Those of a word's nets, from 64 * w on, that are below `nets`.
fn cut(word: u64, w: usize, nets: usize) -> u64
    requires { (w < net_words) × (64 * w < nets) }
    ensures { (k : ℕ) → k < 64 → bit result k ≡ (ltb (64 * w + k) nets && bit word k) }
{
    let here = nets - 64 * w;
    if 64 <= here {
        return word;
    }
    ((1 << here) - 1) & word
}

// Pattern j + 1 of `wide`: the nets below `nets` whose bit is 1. Over the words that hold nets, not over all of them by
// `iter_mut`: tried, and small boards took up to 5 % more instructions.
pub(crate) fn pattern(nets: usize, wide: usize, j: usize) -> NetSet
    requires { (j < wide) × (wide ≤ 64) × (nets ≤ 64 * net_words) }
    ensures { member result.words ≡ up_to nets (code_bit wide j) }
{
    let mut words = [0; NET_WORDS];
    for w in 0..nets.div_ceil(64) {
        words[w] = cut(code_word(wide, j, w), w, nets);
    }
    NetSet { words }
}

// "ceil(h / SSOL) - 1 vectors are inserted (none for h = 0)".
pub(crate) fn inserted(changes: usize, limit: usize) -> usize
    requires { (changes ≤ 64 * net_words) × (1 ≤ limit) × (limit ≤ most_number) }
    ensures { result ≡ ceil changes limit - 1 }
{
    changes.div_ceil(limit).saturating_sub(1)
}

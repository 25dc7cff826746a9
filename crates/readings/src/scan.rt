// What a cell read in a row of a capture, and a byte of two rows held against each other: which cells read otherwise, and may not.
ghost use Rattle.std.specs.Prelude.{◌≡◌, ◌<◌, ◌≤◌, ◌*◌, ◌+◌, ◌/◌, ◌^◌, ◌&&◌, not, length, get_or, set};
ghost use Rattle.base.specs.Digits.{bit, word};
ghost use Rattle.base.specs.Tests.{digit};
ghost use Rattle.words.specs.Sets.{net_words, member};
ghost use Rattle.rules.specs.Rows.{row_bit};
ghost use Rattle.readings.specs.Readings.{stray, staying, Entries};

use rules::{Net, Position};
use words::NetSet;

// Digit i of a byte, from the least. `words::loops::has` has the same of a word in a list; one trait for both would be longer than the two.
fn digit_at(byte: u8, i: usize) -> bool
    requires { i < 8 }
    ensures { result ≡ bit byte i }
{
    (byte >> i) & 1 == 1
}

// What the cell at c read in the row from `at` on.
#[tactic(auto, unfolding(rules::specs::Rows::row_bit, rules::specs::File::byte_at))]
pub(crate) fn seen(capture: &[u8], at: usize, c: Position) -> bool
    requires { at + c.0 / 8 < length capture.now }
    ensures { result ≡ row_bit capture.now at c.0 }
{
    let place = c.0 as usize;
    digit_at(capture[at + place / 8], place % 8)
}

// A cell of this entry may not change its reading where these nets change: it names none of them.
#[tactic(auto, unfolding(crate::specs::Readings::stray))]
fn stray(entry: u16, changing: NetSet) -> bool
    requires { entry ≤ 64 * net_words }
    ensures { result ≡ stray (member changing.words) entry }
{
    match entry.checked_sub(1) {
        None => true,
        Some(n) => !changing.has(Net(n)),
    }
}

// A byte below 2 ^ i, with digit i if it is set.
fn with_digit(byte: u8, i: usize, set: bool) -> u8
    requires { (i < 8) × (byte < 2 ^ i) }
    ensures { result ≡ byte + digit set * 2 ^ i }
{
    if set {
        return byte + (1 << i);
    }
    byte
}

// Digit i of a byte of cells that are left: the cell stays if it reads alike, or if its entry allows a change.
fn stays(left: u8, unlike: u8, i: usize, entry: u16, changing: NetSet) -> bool
    requires i_bound { i < 8 }
    requires bound { entry ≤ 64 * net_words }
    ensures { result ≡ (bit left i && not (bit unlike i && stray (member changing.words) entry)) }
{
    digit_at(left, i) && !(digit_at(unlike, i) && stray(entry, changing))
}

// The byte of cells that are left, where these bits differ between two rows and these are the cells' entries.
#[tactic(auto, using(base::proofs::DigitLaws::word_lt), unfolding(base::specs::Digits::word, crate::specs::Readings::staying))]
fn sift(left: u8, unlike: u8, entries: &[u16], changing: NetSet) -> u8
    requires { Entries (64 * net_words) 8 entries.now }
    ensures { result ≡ word 8 (staying left unlike (member changing.words) entries.now) }
{
    let mut kept = 0;
    for i in 0..8 {
        kept = with_digit(kept, i, stays(left, unlike, i, entries[i], changing));
    }
    kept
}

// Byte j of the cells that are left, where these bits differ between two rows and these are the cells' entries. Most bytes stay, and are
// not written.
pub(crate) fn sift_byte(left: &mut [u8], j: usize, unlike: u8, entries: &[u16], changing: NetSet)
    requires j_in_bounds { j < length left.old }
    requires entries { Entries (64 * net_words) 8 entries.now }
    ensures { left.new ≡ set left.old j (word 8 (staying (get_or left.old j 0) unlike (member changing.words) entries.now)) }
{
    let byte = left[j];
    if byte & unlike == 0 {
        return;
    }
    left[j] = sift(byte, unlike, entries, changing);
}

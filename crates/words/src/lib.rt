// Sets of nets and of cells, as bits of `u64` words: one type, by how many words a set has. A set is a thin
// value over `loops`, but for `compare`, which is lent the words of both; what words mean is `member` of
// specs/Sets.antt.

#![tactic(auto)]

ghost use Rattle.std.specs.Prelude.{◌≡◌, ℕ, ◌*◌, ◌-◌, ◌<◌, ◌≤◌, refl};
ghost use Rattle.std.specs.Bool.{xor};
ghost use Rattle.base.specs.Counting.{count, among};
ghost use Rattle.base.specs.Tests.{seek};
ghost use Rattle.std.proofs.lemmas.Bool.{ltb-false};
ghost use Rattle.words.specs.Sets.{net_words, cell_words, most_words, member, nothing, plus, either, unlike, meets_in, relation_of};

use rules::{MOST_CELLS, MOST_NETS, Net, Position};

pub mod loops;

// How many words hold a set of nets, and a set of cells.
pub const NET_WORDS: usize = (MOST_NETS + 63) / 64;

pub const CELL_WORDS: usize = (MOST_CELLS + 63) / 64;

// How one set lies to another: no member in common, inside it, around it, the same, or crossing it.
// The set of nothing lies inside every other.
#[derive(Clone, Copy)]
pub enum Relation {
    Apart,
    Inside,
    Holds,
    Equal,
    Crossing,
}

// As many words as a set may have, for which a number of a member, or of members, fits a `usize`.
pub trait FewWords<const W: usize> {
    ghost few: { W ≤ most_words };
}

impl FewWords<NET_WORDS> for [u64; NET_WORDS] {
    ghost few = { ltb-false most_words net_words refl };
}

impl FewWords<CELL_WORDS> for [u64; CELL_WORDS] {
    ghost few = { ltb-false most_words cell_words refl };
}

// What a set of W words holds: a net and a cell are each told by a number, and never mix, since a set of
// nets has not as many words as one of cells.
pub trait Numbered<const W: usize> {
    ghost number: { Self → ℕ };

    fn number(self) -> usize
        ensures { result ≡ number self };
}

impl Numbered<NET_WORDS> for Net {
    ghost number = { λ n. n.0 };

    fn number(self) -> usize {
        usize::from(self.0)
    }
}

impl Numbered<CELL_WORDS> for Position {
    ghost number = { λ p. p.0 };

    fn number(self) -> usize {
        self.0 as usize
    }
}

// A set of W words.
#[derive(Clone, Copy)]
pub struct Set<const W: usize> {
    pub words: [u64; W],
}

// A set of nets, and a set of cells.
pub type NetSet = Set<NET_WORDS>;

pub type CellSet = Set<CELL_WORDS>;

impl<const W: usize> Set<W>
where
    [u64; W]: FewWords<W>,
{
    // Nothing.
    pub fn empty() -> Set<W>
        ensures { member result.words ≡ nothing }
    {
        Set { words: [0; W] }
    }

    // With n besides.
    pub fn with<N: Numbered<W>>(self, n: N) -> Set<W>
        requires { N.number n < 64 * W }
        ensures { member result.words ≡ plus (member self.entry.words) (N.number n) }
    {
        let mut words = self.words;
        loops::add(&mut words, n.number());
        Set { words }
    }

    // n is in the set.
    pub fn has<N: Numbered<W>>(self, n: N) -> bool
        requires { N.number n < 64 * W }
        ensures { result ≡ member self.entry.words (N.number n) }
    {
        let words = self.words;
        loops::has(&words, n.number())
    }

    // What is in either set.
    pub fn union(self, other: Set<W>) -> Set<W>
        ensures { member result.words ≡ either (member self.entry.words) (member other.entry.words) }
    {
        let mut words = self.words;
        let more = other.words;
        loops::join(&mut words, &more);
        Set { words }
    }

    // What is in one set and not in the other.
    pub fn flip(self, other: Set<W>) -> Set<W>
        ensures { member result.words ≡ unlike (member self.entry.words) (member other.entry.words) }
    {
        let mut words = self.words;
        let more = other.words;
        loops::flip(&mut words, &more);
        Set { words }
    }

    // Something is in both.
    pub fn meets(self, other: Set<W>) -> bool
        ensures { result ≡ meets_in (64 * W) (member self.entry.words) (member other.entry.words) }
    {
        let a = self.words;
        let b = other.words;
        loops::meets(&a, &b)
    }

    // How the set of the words a lies to that of the words b. Both are read where they stand: neither is copied.
    pub fn compare(a: &[u64; W], b: &[u64; W]) -> Relation
        ensures { result ≡ relation_of (64 * W) (member a.now) (member b.now) }
    {
        loops::compare(a, b)
    }

    // How many are in one set and not in the other.
    pub fn differing(self, other: Set<W>) -> usize
        ensures { result ≡ count (64 * W) (λ m. xor (member self.entry.words m) (member other.entry.words m)) }
    {
        let a = self.words;
        let b = other.words;
        loops::differing(&a, &b)
    }

    // The k lowest of the set.
    pub fn lowest_members(self, k: usize) -> Set<W>
        ensures { member result.words ≡ among k (member self.entry.words) }
    {
        let mut words = self.words;
        loops::keep_lowest(&mut words, k);
        Set { words }
    }

    // The lowest number in the set from `from` on, or 64 * W where there is none. A number and no Option: `crosser_of`, which alone asks,
    // ends at the number of cells, and one comparison serves both ends.
    pub fn next(self, from: usize) -> usize
        requires { from ≤ 64 * W }
        ensures { result ≡ seek (member self.entry.words) (64 * W - from) from }
    {
        let words = self.words;
        loops::next(&words, from)
    }
}

// The limits and the types that every part of the way shares, named as in the documents, and how a check
// answers. The types hold no rule: what each value means stands in specs/.
#![tactic(auto)]

ghost use Rattle.std.specs.Prelude.{◌≡◌, ℕ, Bool, [], ◌∷◌, ◌+◌, ◌<◌, ◌≤◌};
ghost use Rattle.rules.specs.File.{most_number};
ghost use Rattle.rules.specs.Marks.{byte_of};
ghost use Rattle.rules.specs.Refusals.{Refused, judge, once, each, refuse, paired};
ghost use Rattle.rules.specs.Checking.{Computes};

// The limits and the file's measures, each said here once; every other crate derives its own from these.
// "Blocks of 512 bytes", the first 508 of them summed.
pub const BLOCK_SIZE: usize = 512;

pub const SUMMED: usize = 508;

// "up to 84 cell records of 6 bytes from byte 4".
pub const BLOCK_RECORDS: usize = 84;

pub const RECORD_SIZE: usize = 6;

pub const HEAD_SIZE: usize = 4;

// How many values a byte has, the largest number of two bytes, and "65,535 means none".
pub const BYTE_VALUES: usize = 256;

pub const MOST_NUMBER: usize = BYTE_VALUES * BYTE_VALUES - 1;

pub const NONE: u16 = MOST_NUMBER as u16;

// "Limits: C 1 to 1,024; N 1 to 256; SSOL 1 to 1,024; at most 16 controlled drivers on a net; at most
// 4,096 vectors"; a file has at most 14 blocks.
pub const MOST_CELLS: usize = 1024;

pub const MOST_NETS: usize = 256;

pub const MOST_LIMIT: usize = 1024;

pub const MOST_DRIVERS: usize = 16;

pub const MOST_VECTORS: usize = 4096;

pub const MOST_BLOCKS: usize = 14;

// What follows from these: the bytes of the longest file, and of the longest row.
pub const MOST_FILE: usize = BLOCK_SIZE * MOST_BLOCKS;

pub const MOST_BYTES: usize = (MOST_CELLS + 7) / 8;

// A cell's position in the scan chain, from 0. Never used as a net number.
#[derive(Clone, Copy)]
pub struct Position(pub u16);

// A net's number, from 0. Never used as a position.
#[derive(Clone, Copy)]
pub struct Net(pub u16);

// A cell, one case for each kind of the board file's table.
#[derive(Clone, Copy)]
pub enum Cell {
    Internal,
    Input(Net),
    // The value that turns the cell's drivers on.
    Control(bool),
    ThreeState(Position, Net),
    TwoState(Net),
    // It pulls its line low or lets it go, and is its own control cell.
    OpenDrain(Net),
}

// A controlled driver: the control cell that switches it, and its net.
#[derive(Clone, Copy)]
pub struct Driver {
    pub control: Position,
    pub net: Net,
}

// The two sums of a block.
#[derive(Clone, Copy)]
pub struct Sums {
    pub a: u16,
    pub b: u16,
}

// A numbered refusal with its two places; the second is 0 where the refusal names one alone. The number is a number and no enum: it is
// the documents' name of the refusal, what C reads in bits 0 to 7, and what `judge` and theorems 1, 12 and 13 speak of.
#[derive(Clone, Copy)]
pub struct Refusal {
    pub number: u8,
    pub place: u16,
    pub second: u16,
}

// What checking answers: accepted, or the refusal that applies.
pub type Verdict = Result<(), Refusal>;

// A vector's place in the plan: base vector b, or the t-th inserted after it (t from 1).
#[derive(Clone, Copy)]
pub enum Step {
    Base(usize),
    Inserted(usize, usize),
}

// A net's mark.
#[derive(Clone, Copy)]
pub enum Mark {
    Pass,
    Fail,
    NotSeen,
    ReadTwice,
}

// The table's byte for a mark.
impl From<Mark> for u8 {
    ghost from_gives = { λ mark byte. byte ≡ byte_of mark };

    #[tactic(auto, unfolding(crate::specs::Marks::byte_of))]
    fn from(mark: Mark) -> u8 {
        match mark {
            Mark::Pass => 0,
            Mark::Fail => 1,
            Mark::NotSeen => 2,
            Mark::ReadTwice => 3,
        }
    }
}

// A refusal at one place.
pub fn refuse(number: u8, place: usize) -> Verdict
    requires { place ≤ most_number }
    ensures { result ≡ refuse number place }
{
    Err(Refusal {
        number,
        place: place as u16,
        second: 0,
    })
}

// A refusal of two cells.
pub fn refuse_pair(number: u8, place: Position, second: Position) -> Verdict
    ensures { result ≡ Refused (paired number place.0 second.0) }
{
    Err(Refusal {
        number,
        place: place.0,
        second: second.0,
    })
}

// A check that looks at one place, 0.
pub fn once(number: u8, fails: bool) -> Verdict
    ensures { result ≡ judge (once number fails ∷ []) }
{
    if fails { refuse(number, 0) } else { Ok(()) }
}

// A check that looks at each of so many places: the lowest at which it fails is refused.
pub fn each<F: Fn(usize) -> bool>(number: u8, places: usize, fails: F) -> Verdict
    requires places_bound { places ≤ most_number + 1 }
    requires callable { (place : ℕ) → place < places → F.pre fails place }
    ensures { (test : ℕ → Bool) → Computes (F.post fails) places test → result ≡ judge (each number places test ∷ []) }
{
    for place in 0..places {
        if fails(place) {
            return refuse(number, place);
        }
    }
    Ok(())
}

// A board file's blocks: bytes, little-endian numbers, the two sums, and refusals 1 to 5. The
// definitions that the contracts cite are document 01's, in `rules`; what a block reads as stands
// in specs/.
#![tactic(auto)]

ghost use Rattle.std.specs.Prelude.{◌≡◌, ◌+◌, ◌*◌, ◌^◌, ◌<◌, ◌≤◌, false, not, [], ◌∷◌, length};
ghost use Rattle.rules.specs.File.{block_size, block_records, head_size, number_at, most_number, sums_of, sums_right, zeros, header_right, records_in, cell_block_right, blocks_in};
ghost use Rattle.rules.specs.Refusals.{judge, once, each, wrong_length, within, outside, blocks_for, block_wrong, shape_checks};
ghost use Rattle.blocks.specs.Reading.{head_of, head_is, head_laid, block_of, BlocksOf, signature_right, SizesOf};
ghost use Rattle.blocks.specs.Places.{Whole, Headed, CellBlock, AnyBlock, Layout};

use rules::{
    BLOCK_RECORDS, BLOCK_SIZE, HEAD_SIZE, MOST_BLOCKS, MOST_LIMIT, RECORD_SIZE, Refusal, SUMMED,
    Sums, Verdict,
};

// The two limits that later crates take from here.
use rules::{MOST_CELLS, MOST_NETS};

// The first four bytes of a block: its number, its kind, its record count.
#[derive(Clone, Copy)]
pub struct Head {
    pub number: u16,
    pub kind: u8,
    pub records: u8,
}

// C, N and SSOL.
#[derive(Clone, Copy)]
pub struct Sizes {
    pub cells: usize,
    pub nets: usize,
    pub limit: usize,
}

// The little-endian number in the two bytes from `at` on.
#[tactic(auto, unfolding(rules::specs::File::number_at, rules::specs::File::byte_at))]
pub fn pair(file: &[u8], at: usize) -> u16
    requires { at + 1 < length file.now }
    ensures { result ≡ number_at file.now at }
{
    u16::from_le_bytes([file[at], file[at + 1]])
}

// The same, for sums with lengths and positions.
fn number(file: &[u8], at: usize) -> usize
    requires { at + 1 < length file.now }
    ensures { result ≡ number_at file.now at }
{
    usize::from(pair(file, at))
}

// The two sums of `bytes`, both wrapping at 65,536.
#[tactic(auto, using(crate::proofs::SumLaws::adding), unfolding(rules::specs::File::sums_of))]
fn sums(bytes: &[u8]) -> Sums
    ensures { result ≡ sums_of bytes.now }
{
    let mut a: u16 = 1;
    let mut b: u16 = 0;
    for byte in bytes {
        a = a.wrapping_add(u16::from(*byte));
        b = b.wrapping_add(a);
    }
    Sums { a, b }
}

// Block i holds its own two sums. By number: an edit of a derived `==` would be refused for a name.
#[tactic(auto, unfolding(rules::specs::File::sums_right, rules::specs::File::block_at))]
fn sums_right(file: &[u8], i: usize) -> bool
    requires { block_size * (i + 1) ≤ length file.now }
    ensures { result ≡ sums_right file.now i }
{
    let from = BLOCK_SIZE * i;
    let to = from + SUMMED;
    let s = sums(&file[from..to]);
    pair(file, to) == s.a && pair(file, to + 2) == s.b
}

// The bytes from `from` up to `to`, and not `to` itself, are zero: all of them together have no digit. Without a way out of the loop the
// compiler takes many bytes at a time; by index, since no slice begins past its end, and `from` may be past `to`.
#[tactic(auto, using(crate::proofs::ZeroLaws::zeroing), unfolding(rules::specs::File::byte_at))]
fn zeros(file: &[u8], from: usize, to: usize) -> bool
    requires { to ≤ length file.now }
    ensures { result ≡ zeros file.now from to }
{
    let mut digits = 0;
    for at in from..to {
        digits |= file[at];
    }
    digits == 0
}

// The head of block i, as it stands in the file.
#[tactic(auto, unfolding(crate::specs::Reading::head_of, rules::specs::File::byte_at, rules::specs::File::block_at))]
fn read_head(file: &[u8], i: usize) -> Head
    requires { block_size * i + head_size ≤ length file.now }
    ensures { result ≡ head_of file.now i }
{
    let at = BLOCK_SIZE * i;
    Head {
        number: pair(file, at),
        kind: file[at + 2],
        records: file[at + 3],
    }
}

// "Reading a block gives either its contents or a refusal with its place": block i's head, or refusal 2 where a sum is wrong.
#[tactic(auto, unfolding(crate::specs::Reading::block_of))]
fn read(file: &[u8], i: usize) -> Result<Head, Refusal>
    requires { Whole file.now i }
    ensures { result ≡ block_of file.now i }
{
    if !sums_right(file, i) {
        rules::refuse(2, i)?;
    }
    Ok(read_head(file, i))
}

// A head of this number, this kind and this count. Not a derived `==`: what is asked for need not fit the fields of a head.
#[tactic(auto, unfolding(crate::specs::Reading::head_is))]
fn head_is(head: Head, number: usize, kind: usize, records: usize) -> bool
    ensures { result ≡ head_is head number kind records }
{
    usize::from(head.number) == number
        && usize::from(head.kind) == kind
        && usize::from(head.records) == records
}

// Bytes 4 to 9 of the header: "BSIN", version 1, and a zero.
#[tactic(auto, unfolding(crate::specs::Reading::signature_right, rules::specs::File::byte_at))]
fn signature_right(file: &[u8]) -> bool
    requires { block_size ≤ length file.now }
    ensures { result ≡ signature_right file.now }
{
    &file[4..10] == b"BSIN\x01\x00".as_slice()
}

// Block 0 is a header as the layout has it, whatever its C, N and SSOL.
#[tactic(auto, using(crate::proofs::Heading::laid))]
fn header_right(file: &[u8], heads: usize) -> bool
    requires { Headed file.now heads }
    ensures { result ≡ header_right file.now }
{
    0 < heads && signature_right(file) && zeros(file, 16, SUMMED)
}

// C, N and SSOL, as the header has them.
#[tactic(auto, unfolding(rules::specs::File::cells_of, rules::specs::File::nets_of, rules::specs::File::limit_of))]
pub fn read_sizes(file: &[u8]) -> Sizes
    requires { block_size ≤ length file.now }
    ensures { SizesOf file.now result }
{
    Sizes {
        cells: number(file, 10),
        nets: number(file, 12),
        limit: number(file, 14),
    }
}

// How many records cell block i holds: each is full but the last.
#[tactic(auto, unfolding(rules::specs::File::records_in))]
fn records_in(cells: usize, i: usize) -> usize
    requires { (1 ≤ i) × (block_records * i < 2 ^ 64) }
    ensures { result ≡ records_in cells i }
{
    BLOCK_RECORDS.min(cells.saturating_sub(BLOCK_RECORDS * (i - 1)))
}

// The head is the one that the layout gives block i of a file of so many cells: kind 1 and no records at 0,
// else kind 2 and as many records as are left for it.
fn head_laid(head: Head, cells: usize, i: usize) -> bool
    requires { block_records * i < 2 ^ 64 }
    ensures { result ≡ head_laid head cells i }
{
    if i == 0 {
        return head_is(head, 0, 1, 0);
    }
    head_is(head, i, 2, records_in(cells, i))
}

// All blocks: how many, from block 0 on, have the head that the layout gives them, for checks 3 and 5; or refusal 2 of the lowest
// block whose sums are wrong.
#[tactic(auto, using(crate::proofs::Shaping::reading), unfolding(rules::specs::File::blocks_in, rules::specs::File::cells_of))]
fn read_blocks(file: &[u8]) -> Result<usize, Refusal>
    requires { wrong_length file.now ≡ false }
    ensures { BlocksOf file.now result }
{
    let cells = number(file, 10);
    let mut heads = 0;
    for i in 0..file.len() / BLOCK_SIZE {
        let head = read(file, i)?;
        if heads == i && head_laid(head, cells, i) {
            heads += 1;
        }
    }
    Ok(heads)
}

// Cell block i is as the layout has it, outside its records: its head is, and the rest is zero.
#[tactic(auto, using(crate::proofs::Heading::laid), unfolding(rules::specs::File::cell_block_right, rules::specs::File::block_at))]
fn cell_block_right(file: &[u8], cells: usize, i: usize, headed: bool) -> bool
    requires { CellBlock file.now cells i headed }
    ensures { result ≡ cell_block_right file.now i }
{
    let records = records_in(cells, i);
    let from = BLOCK_SIZE * i;
    let past = from + HEAD_SIZE + RECORD_SIZE * records;
    headed && zeros(file, past, from + SUMMED)
}

// How many blocks a file of so many cells has.
#[tactic(auto, unfolding(rules::specs::Refusals::blocks_for, base::specs::Digits::ceil))]
fn blocks_for(cells: usize) -> usize
    requires { cells ≤ most_number }
    ensures { result ≡ blocks_for cells }
{
    1 + cells.div_ceil(BLOCK_RECORDS)
}

// Refusal 5 applies at block i: the number of blocks at 0, else the block's layout.
fn block_wrong(file: &[u8], cells: usize, i: usize, headed: bool) -> bool
    requires { AnyBlock file.now cells i headed }
    ensures { result ≡ block_wrong file.now i }
{
    if i == 0 {
        return file.len() / BLOCK_SIZE != blocks_for(cells);
    }
    !cell_block_right(file, cells, i, headed)
}

// Refusal 1 applies: the file is empty, not a multiple of 512, or over 14 blocks.
#[tactic(auto, unfolding(rules::specs::Refusals::wrong_length))]
fn wrong_length(file: &[u8]) -> bool
    ensures { result ≡ wrong_length file.now }
{
    let n = file.len();
    n == 0 || n % BLOCK_SIZE != 0 || BLOCK_SIZE * MOST_BLOCKS < n
}

// n is from 1 to `most`.
#[tactic(auto, unfolding(rules::specs::Refusals::within))]
fn within(most: usize, n: usize) -> bool
    ensures { result ≡ within most n }
{
    (1..=most).contains(&n)
}

// Refusal 4 applies: C, N or SSOL is outside its limits.
#[tactic(auto, unfolding(rules::specs::Refusals::outside))]
fn outside(file: &[u8]) -> bool
    requires { block_size ≤ length file.now }
    ensures { result ≡ outside file.now }
{
    let sizes = read_sizes(file);
    !(within(MOST_CELLS, sizes.cells)
        && within(MOST_NETS, sizes.nets)
        && within(MOST_LIMIT, sizes.limit))
}

// Refusal 1, the file's length.
fn length_verdict(file: &[u8]) -> Verdict
    ensures { result ≡ judge (once 1 (wrong_length file.now) ∷ []) }
{
    rules::once(1, wrong_length(file))
}

// Refusals 3 and 4, the header.
#[tactic(auto, using(crate::proofs::Shaping::heading))]
fn header_verdict(file: &[u8], heads: usize) -> Verdict
    requires { Headed file.now heads }
    ensures { result ≡ judge (once 3 (not (header_right file.now)) ∷ once 4 (outside file.now) ∷ []) }
{
    rules::once(3, !header_right(file, heads))?;
    rules::once(4, outside(file))
}

// Refusal 5, the number of blocks and the layout of the cell blocks: the lowest block. Not `rules::each`: whether a block's head is right is
// known only where all lower ones are.
#[tactic(auto, using(crate::proofs::Shaping::laying), unfolding(rules::specs::File::blocks_in))]
fn layout_verdict(file: &[u8], cells: usize, heads: usize) -> Verdict
    requires { Layout file.now cells heads }
    ensures { result ≡ judge (each 5 (blocks_in file.now) (block_wrong file.now) ∷ []) }
{
    for i in 0..file.len() / BLOCK_SIZE {
        if block_wrong(file, cells, i, i < heads) {
            return rules::refuse(5, i);
        }
    }
    Ok(())
}

// Refusals 1 to 5, the file's shape, in their order. Each block is read once, by check 2; what it holds of its head goes on to
// checks 3 and 5.
#[tactic(auto, using(crate::proofs::Shaping::shaping))]
pub fn shape_verdict(file: &[u8]) -> Verdict
    ensures { result ≡ judge (shape_checks file.now) }
{
    length_verdict(file)?;
    let heads = read_blocks(file)?;
    header_verdict(file, heads)?;
    layout_verdict(file, read_sizes(file).cells, heads)
}

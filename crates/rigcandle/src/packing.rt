// The numbers of an answer in 64 bits: the refusal's number in bits 0 to 7, and from bit 8 on what it returns.
ghost use Rattle.std.specs.Prelude.{◌≡◌, ◌∷◌, [], ◌≤◌};
ghost use Rattle.rules.specs.Answers.{pack, field};
ghost use Rattle.rules.specs.File.{most_number};
ghost use Rattle.rigcandle.specs.Asking.{answer_bits};

use rules::Refusal;

// A field of 8 bits, and one of 16, moves what stands above it by so much.
const EIGHT_BITS: u64 = 1 << 8;

const SIXTEEN_BITS: u64 = 1 << 16;

// A refusal: number, place and second place. No `From`: the type is crate rules', and these bits are this crate's.
fn refusal_bits(refusal: Refusal) -> u64
    ensures { result ≡ pack (field 8 refusal.number ∷ field 16 refusal.place ∷ field 16 refusal.second ∷ []) }
{
    let second = refusal.second as u64;
    let place = refusal.place as u64;
    refusal.number as u64 + EIGHT_BITS * (place + SIXTEEN_BITS * second)
}

// What a question answers: the bits of what it returns, or its refusal's.
pub(crate) fn answer_bits(answer: Result<u64, Refusal>) -> u64
    ensures { result ≡ answer_bits answer }
{
    match answer {
        Ok(bits) => bits,
        Err(refusal) => refusal_bits(refusal),
    }
}

// One number of 8 bits: G, or a vector's group.
pub(crate) fn group_bits(group: usize) -> u64
    requires { group ≤ most_number }
    ensures { result ≡ pack (field 8 0 ∷ field 8 group ∷ []) }
{
    EIGHT_BITS * group as u64
}

// G, p and the total.
pub(crate) fn count_bits(groups: usize, wide: usize, total: usize) -> u64
    requires { (groups ≤ most_number) × (wide ≤ most_number) × (total ≤ most_number) }
    ensures { result ≡ pack (field 8 0 ∷ field 8 groups ∷ field 8 wide ∷ field 16 total ∷ []) }
{
    EIGHT_BITS * (groups as u64 + EIGHT_BITS * (wide as u64 + EIGHT_BITS * total as u64))
}

// The numbers of pass, fail and unsure.
pub(crate) fn marks_bits(pass: usize, fail: usize, unsure: usize) -> u64
    requires { (pass ≤ most_number) × (fail ≤ most_number) × (unsure ≤ most_number) }
    ensures { result ≡ pack (field 8 0 ∷ field 16 pass ∷ field 16 fail ∷ field 16 unsure ∷ []) }
{
    EIGHT_BITS * (pass as u64 + SIXTEEN_BITS * (fail as u64 + SIXTEEN_BITS * unsure as u64))
}

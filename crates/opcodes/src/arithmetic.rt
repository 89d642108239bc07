// A's operations, modulo 2^64 and bit by bit; what a read makes of A, and when a transfer is taken.
#![tactic(auto, using(crate::proofs::BitLaws::bits), unfolding(model::specs::Opcodes::sum, model::specs::Opcodes::difference, crate::specs::Table::operation_result, crate::specs::Table::taken))]

ghost use Rattle.std.specs.Prelude.{◌≡◌, ◌+◌, ◌-◌, ◌*◌, ◌%◌};
ghost use Rattle.model.specs.Opcodes.{sum, difference, bitwise, count_of_ones};
ghost use Rattle.opcodes.specs.Table.{operation_result, taken};

pub fn add(a: u64, w: u64) -> u64
    ensures { result ≡ sum a w }
{
    a.wrapping_add(w)
}

pub fn subtract(a: u64, w: u64) -> u64
    ensures { result ≡ difference a w }
{
    a.wrapping_sub(w)
}

pub fn and(a: u64, w: u64) -> u64
    ensures { result ≡ bitwise 64 (λ x y. x * y) a w }
{
    a & w
}

pub fn or(a: u64, w: u64) -> u64
    ensures { result ≡ bitwise 64 (λ x y. x + y - x * y) a w }
{
    a | w
}

pub fn exclusive_or(a: u64, w: u64) -> u64
    ensures { result ≡ bitwise 64 (λ x y. (x + y) % 2) a w }
{
    a ^ w
}

// CNT: the language's count of ones is the sum of the bits.
pub fn count_ones(w: u64) -> u64
    ensures { result ≡ count_of_ones 64 w }
{
    u64::from(w.count_ones())
}

// A after an opcode that reads.
pub fn result_of(opcode: u8, a: u64, w: u64) -> u64
    ensures { result ≡ operation_result opcode a w }
{
    match opcode {
        1 => w,
        3 => add(a, w),
        4 => subtract(a, w),
        5 => and(a, w),
        6 => or(a, w),
        7 => exclusive_or(a, w),
        _ => count_ones(w),
    }
}

// Is a transfer taken?
pub fn is_taken(opcode: u8, a: u64) -> bool
    ensures { result ≡ taken opcode a }
{
    match opcode {
        24 => true,
        25 => a == 0,
        _ => 9223372036854775808 <= a,
    }
}

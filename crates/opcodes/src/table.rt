// The constant table of the opcodes: each number's operand, privilege and accesses.
ghost use Rattle.std.specs.Prelude.{◌≡◌, ◌<◌};
ghost use Rattle.model.specs.Words.{on};
ghost use Rattle.opcodes.specs.Table.{Told};

// A column for each thing that an entry says, with bit k for opcode k. No opcode has a number of 64 or more.
// As bits of whole numbers the table needs no memory: a look-up is a constant and a shift.
const OPCODES: [u64; 5] = [
    5510560678910,
    7696581394432,
    5497558139898,
    131588,
    4411048853504,
];

// What the table says of an opcode: an operand, ring 0 alone, and how it uses the operand's segment.
#[derive(Clone, Copy, Default)]
pub struct Entry {
    pub operand: bool,
    pub privileged: bool,
    pub reads: bool,
    pub writes: bool,
    pub moves: bool,
}

// Is an opcode's bit on in a column?
// Stays: the place is known only at run time, so that it is no bit of `words`, which this crate doesn't stand on.
#[tactic(auto, unfolding(model::specs::Words::on, model::specs::Words::field))]
fn is_in(column: u64, opcode: u64) -> bool
    requires { opcode < 64 }
    ensures { result ≡ on opcode column }
{
    (column >> opcode) % 2 == 1
}

pub fn entry_of(opcode: u8) -> Entry
    ensures { Told opcode result }
{
    let k = opcode as u64;
    if 64 <= k {
        return Entry::default();
    }
    Entry {
        operand: is_in(OPCODES[0], k),
        privileged: is_in(OPCODES[1], k),
        reads: is_in(OPCODES[2], k),
        writes: is_in(OPCODES[3], k),
        moves: is_in(OPCODES[4], k),
    }
}

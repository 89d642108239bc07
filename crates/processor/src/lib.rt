// The next instruction, formed by every question or by the quick way, up to the point where it is performed.
#![tactic(auto)]

ghost use Rattle.std.specs.Prelude.{◌≡◌, true, length};
ghost use Rattle.model.specs.Questions.{all, pointer_in_range};
ghost use Rattle.segments.specs.Translation.{CodeRight};
ghost use Rattle.state.specs.View.{as_pointers, as_machine, Ready};
ghost use Rattle.processor.specs.Step.{OperandFormed, formed, QuicklyFormed};

use addressing::{Address, AddressFault};
use questions::Use;
use questions::fault::Fault;
use state::Core;
use words::descriptor::Descriptor;
use words::pointer::Pointer;

// An instruction word with TPR, ready to be performed.
#[derive(Clone, Copy)]
pub struct Instruction {
    pub word: u64,
    pub pointer: Pointer,
}

// An instruction formed by every question, its segment's descriptor, and how many pointer words were read.
#[derive(Clone, Copy)]
pub struct Formed {
    pub instruction: Instruction,
    pub code: Descriptor,
    pub read: u64,
}

// TPR of a fetched instruction. 32 and 33 are `perform`'s to ask, but 33 comes before the pointer words.
fn operand(core: Core, prs: &[u16; 24], memory: &[u64], w: u64) -> Result<Address, AddressFault>
    requires { Ready core memory.now × (all pointer_in_range (as_pointers prs.now) ≡ true) }
    ensures { OperandFormed (as_machine core prs.now memory.now) w result }
{
    let ipr = core.ipr;
    let first = addressing::first_address(core, prs, w);
    let entry = opcodes::table::entry_of(words::instruction::opcode(w));
    if !(entry.operand & words::instruction::is_indirect(w)) {
        return Ok(Address {
            pointer: first,
            read: 0,
        });
    }
    if entry.privileged & (ipr.ring != 0) {
        return Err(AddressFault {
            fault: Fault::Privileged,
            pointer: ipr,
            read: 0,
        });
    }
    addressing::effective(core.dbr, memory, first)
}

// The general way: every question up to the operand's own, in order.
pub fn form(core: Core, prs: &[u16; 24], memory: &[u64]) -> Result<Formed, AddressFault>
    requires { Ready core memory.now × (all pointer_in_range (as_pointers prs.now) ≡ true) }
    ensures { formed (as_machine core prs.now memory.now) result }
{
    let ipr = core.ipr;
    let fetched = segments::access::read(Use::Fetch, core.dbr, memory, ipr).map_err(
        move |fault| AddressFault {
            fault,
            pointer: ipr,
            read: 0,
        },
    )?;
    let address = operand(core, prs, memory, fetched.word)?;
    Ok(Formed {
        instruction: Instruction {
            word: fetched.word,
            pointer: address.pointer,
        },
        code: fetched.descriptor,
        read: address.read,
    })
}

// The quick way: the segment's descriptor is the word that has passed before, and I is off. 11 and 15 are asked; the word
// itself answers 12 to 14 and 21. `None` says nothing of the instruction.
pub fn quick(code: Descriptor, core: Core, prs: &[u16; 24], memory: &[u64]) -> Option<Instruction>
    requires { Ready core memory.now × (all pointer_in_range (as_pointers prs.now) ≡ true) × CodeRight code.0 core.ipr.ring (length memory.now) }
    ensures { QuicklyFormed (as_machine core prs.now memory.now) result }
{
    let ipr = core.ipr;
    let segment = ipr.segment.0;
    if core.dbr.length <= segment {
        return None;
    }
    let at = core.dbr.address as usize + segment as usize;
    if memory[at] != code.0 {
        return None;
    }
    if words::descriptor::length_of(code) <= ipr.word.0 {
        return None;
    }
    let word = segments::segment::read(memory, code, ipr.word);
    if words::instruction::is_indirect(word) {
        return None;
    }
    let pointer = addressing::first_address(core, prs, word);
    Some(Instruction { word, pointer })
}

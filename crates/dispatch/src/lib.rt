// What an instruction does at TPR: one jump by the opcode, with an arm for each entry of the table. It is called at one place,
// so that the compiler merges it into the loop of a run.
#![tactic(auto)]

ghost use Rattle.std.specs.Prelude.{◌≡◌, true};
ghost use Rattle.model.specs.Questions.{all, pointer_in_range};
ghost use Rattle.words.specs.View.{as_pointer, PointerWithin};
ghost use Rattle.state.specs.View.{as_pointers, as_machine, Ready, Does};
ghost use Rattle.dispatch.specs.Dispatch.{dispatched_in, Halts};

use questions::fault::Fault;
use state::{After, Core, End};
use words::descriptor::Descriptor;
use words::pointer::Pointer;

// HLT.
fn halt(core: Core, code: Descriptor) -> After
    ensures { Halts core code result }
{
    After {
        core: state::advanced(core),
        code,
        end: End::Halted,
    }
}

// 32, 33 and then the opcode's own questions. The opcode is a constant in its arm.
pub fn perform(
    core: Core,
    code: Descriptor,
    prs: &mut [u16; 24],
    memory: &mut [u64],
    w: u64,
    t: Pointer,
) -> After
    requires { Ready core memory.old × (all pointer_in_range (as_pointers prs.old) ≡ true) × PointerWithin t }
    ensures { Does core code (as_pointers prs.old) memory.old (dispatched_in (as_machine core prs.old memory.old) w (as_pointer t)) result (as_pointers prs.new) memory.new }
{
    let ipr = core.ipr;
    let opcode = words::instruction::opcode(w);
    match opcode {
        1 => operations::access::load(core, code, memory, 1, t),
        2 => operations::access::store(core, code, memory, t, core.a),
        3 => operations::access::load(core, code, memory, 3, t),
        4 => operations::access::load(core, code, memory, 4, t),
        5 => operations::access::load(core, code, memory, 5, t),
        6 => operations::access::load(core, code, memory, 6, t),
        7 => operations::access::load(core, code, memory, 7, t),
        8 => operations::access::load(core, code, memory, 8, t),
        9 => operations::access::update(core, code, memory, t),
        10 => operations::registers::load_literal(core, code, w),
        16 => operations::registers::load_pointer(core, code, prs, w, t),
        17 => {
            let value = operations::registers::stored_pointer(prs, w);
            operations::access::store(core, code, memory, t, value)
        }
        24 => control::transfer(core, code, memory, 24, t),
        25 => control::transfer(core, code, memory, 25, t),
        26 => control::transfer(core, code, memory, 26, t),
        32 => control::call(core, code, prs, memory, t),
        33 => control::return_to(core, code, prs, memory, t),
        40 => {
            if core.ipr.ring != 0 {
                return state::faulted_by(core, code, Fault::Privileged, ipr);
            }
            operations::access::load_dbr(core, code, memory, t)
        }
        41 => {
            if ipr.ring != 0 { // 33 of HLT
                return state::faulted_by(core, code, Fault::Privileged, ipr);
            }
            halt(core, code)
        }
        42 => {
            if ipr.ring != 0 { // 33 of RCU
                return state::faulted_by(core, code, Fault::Privileged, ipr);
            }
            state::stopped(core, code, t) // RCU is performed outside the loop
        }
        _ => state::faulted_by(core, code, Fault::UnknownOpcode, ipr),
    }
}

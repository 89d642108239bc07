// The opcodes that move control: transfers, CALL and RETURN.
#![tactic(auto)]

ghost use Rattle.std.specs.Prelude.{◌≡◌, true, map, ◌+◌, ◌≤◌, length};
ghost use Rattle.model.specs.Registers as Registers;
ghost use Rattle.model.specs.Step as Step;
ghost use Rattle.words.specs.View.{as_pointer, PointerWithin};
ghost use Rattle.opcodes.specs.Table.{taken};
ghost use Rattle.segments.specs.Translation.{as_dbr};
ghost use Rattle.state.specs.View.{as_registers, as_pointers, Ready, Does, DoesWithAnyPrs};
ghost use Rattle.control.specs.Call.{Enters, CheckedBy};

use questions::Use;
use questions::fault::Fault;
use segments::translate::Dbr;
use state::{After, Core, End};
use words::descriptor::Descriptor;
use words::pointer::Pointer;

// Control goes on at `p`, in the segment whose descriptor has passed.
fn entered(core: Core, p: Pointer, d: Descriptor) -> After
    ensures { Enters core p d result }
{
    After {
        core: state::with_ipr(core, p),
        code: d,
        end: End::Completed,
    }
}

// TRA, TZE, TMI: one that is not taken asks nothing of its target.
pub fn transfer(core: Core, code: Descriptor, memory: &[u64], opcode: u8, t: Pointer) -> After
    requires { Ready core memory.now }
    ensures { DoesWithAnyPrs core code memory.now (λ r. Step.transfer (taken opcode core.a) r (as_pointer t)) result memory.now }
{
    if !opcodes::arithmetic::is_taken(opcode, core.a) {
        return state::completed(core, code);
    }
    match segments::access::look(Use::Transfer, core.dbr, memory, core.ipr, t) {
        Err(fault) => state::faulted_by(core, code, fault, t),
        Ok(d) => entered(core, t, d),
    }
}

// The descriptor of the segment that a CALL enters, and the ring that it goes on in.
#[derive(Clone, Copy)]
pub struct Entry {
    pub descriptor: Descriptor,
    pub ring: u64,
}

// 11 to 15 and 26 to 30 of a pointer, for a CALL at `ipr`.
pub fn check(dbr: Dbr, memory: &[u64], ipr: Pointer, t: Pointer) -> Result<Entry, Fault>
    requires { dbr.address + dbr.length ≤ length memory.now }
    ensures { CheckedBy (as_dbr dbr) memory.now (as_pointer ipr) (as_pointer t) result }
{
    let descriptor = segments::access::look(Use::Call, dbr, memory, ipr, t)?;
    let ring = questions::new_ring(t, descriptor);
    Ok(Entry { descriptor, ring })
}

// The move of a CALL is by its check's ring.
pub fn call(core: Core, code: Descriptor, prs: &mut [u16; 24], memory: &[u64], t: Pointer) -> After
    requires { Ready core memory.now }
    ensures { Does core code (as_pointers prs.old) memory.now (Step.call (as_registers core prs.old) (as_pointer t)) result (as_pointers prs.new) memory.now }
{
    match check(core.dbr, memory, core.ipr, t) {
        Err(fault) => state::faulted_by(core, code, fault, t),
        Ok(entry) => {
            state::prs::set_stack_base(prs, core.ipr.ring, entry.ring);
            let p = Pointer {
                ring: entry.ring,
                ..t
            };
            entered(core, p, entry.descriptor)
        }
    }
}

// Each PR's ring becomes at least `ring`.
fn raise_rings(prs: &mut [u16; 24], ring: u64)
    requires { ring ≤ 7 }
    ensures { as_pointers prs.new ≡ map (Registers.with_ring_at_least ring) (as_pointers prs.old) }
{
    for k in 0..8 {
        let p = state::prs::pr(prs, k);
        let raised = Pointer {
            ring: ring.max(p.ring),
            ..p
        };
        state::prs::set_pr(prs, k, raised);
    }
}

// RETURN goes on in TPR's ring, which no PR's is below then.
pub fn return_to(
    core: Core,
    code: Descriptor,
    prs: &mut [u16; 24],
    memory: &[u64],
    t: Pointer,
) -> After
    requires { Ready core memory.now × PointerWithin t }
    ensures { Does core code (as_pointers prs.old) memory.now (Step.return (as_registers core prs.old) (as_pointer t)) result (as_pointers prs.new) memory.now }
{
    match segments::access::look(Use::Return, core.dbr, memory, t, t) {
        Err(fault) => state::faulted_by(core, code, fault, t),
        Ok(d) => {
            raise_rings(prs, t.ring);
            entered(core, t, d)
        }
    }
}

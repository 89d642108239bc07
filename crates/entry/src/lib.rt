// A call on a register record and a memory that the host lends: a run, or a single step.
#![tactic(auto)]

ghost use Rattle.state.specs.View.{as_delivery};
ghost use Rattle.entry.specs.Call.{together, CoreSays, CallSays};

use answers::Kind;
use host::record::{DescriptorBase, Pointer, Registers};
use segments::translate::Dbr;
use state::{Core, Delivery};

// An answer as numbers. Kinds: 0 refused, 1 spent or completed, 2 halted, 3 fault; what a kind leaves free is 0. Pointer words are
// those of a run's completed steps, or of a single step however it ends.
#[repr(C)]
#[derive(Clone, Copy)]
pub struct Answer {
    pub kind: u32,
    pub number: u32,
    pub count: u32,
    pub pointer: Pointer,
    pub pointer_words: u64,
}

// An answer, and the record's fields beside its array.
#[derive(Clone, Copy)]
struct Answered {
    pub answer: Answer,
    pub a: u64,
    pub dbr: DescriptorBase,
    pub ipr: Pointer,
}

// A run, or a single step. A step is a plain one; only where that stops is it asked again, as a run of one step that may deliver its
// fault. Nothing has changed then.
fn run_core(
    prs: &mut [u16; 24],
    memory: &mut [u64],
    core: Core,
    delivery: Delivery,
    budget: u32,
    single: bool,
) -> answers::Answered
    ensures { CoreSays (as_delivery delivery) single budget core prs.old memory.old result prs.new memory.new }
{
    let mut none: [u64; 0] = [];
    if single & (budget == 1) & host::start::is_delivery(delivery) {
        let mut x = plain::step(core, prs, memory);
        if x.kind == Kind::Fault as u64 {
            x = machine::run(
                x.core.a,
                x.core.dbr.address,
                x.core.dbr.length,
                x.core.ipr.ring,
                x.core.ipr.segment.0,
                x.core.ipr.word.0,
                prs,
                memory,
                1,
                &mut none,
                delivery,
                true,
            );
        }
        return x;
    }
    machine::run(
        core.a,
        core.dbr.address,
        core.dbr.length,
        core.ipr.ring,
        core.ipr.segment.0,
        core.ipr.word.0,
        prs,
        memory,
        budget,
        &mut none,
        delivery,
        single,
    )
}

// A run on the parts of a record, as one or as a single step: its PRs are lent, the rest comes and goes by value.
fn run_fields(
    prs: &mut [u16; 24],
    memory: &mut [u64],
    a: u64,
    dbr: DescriptorBase,
    ipr: Pointer,
    delivery: Delivery,
    budget: u32,
    single: bool,
) -> Answered
    ensures { CallSays single budget (together a dbr ipr delivery prs.old) memory.old result.answer (together result.a result.dbr result.ipr delivery prs.new) memory.new }
{
    let base = Dbr::from(dbr);
    let at = words::pointer::Pointer::from(ipr);
    let core = Core {
        a,
        dbr: base,
        ipr: at,
    };
    let x = run_core(prs, memory, core, delivery, budget, single);
    Answered {
        answer: Answer {
            kind: x.kind as u32,
            number: x.number as u32,
            count: x.count as u32,
            pointer: host::record::from_core(x.pointer),
            pointer_words: x.pointers,
        },
        a: x.core.a,
        dbr: host::record::from_base(x.core.dbr),
        ipr: host::record::from_core(x.core.ipr),
    }
}

// A call on the host's own record: its array is lent on in place, the other fields are read before the run and stored after it.
pub fn call(registers: &mut Registers, memory: &mut [u64], budget: u32, single: bool) -> Answer
    ensures { CallSays single budget registers.old memory.old result registers.new memory.new }
{
    let a = registers.a;
    let dbr = registers.dbr;
    let ipr = registers.ipr;
    let delivery = registers.delivery;
    let x = run_fields(
        &mut registers.prs,
        memory,
        a,
        dbr,
        ipr,
        delivery,
        budget,
        single,
    );
    registers.a = x.a;
    registers.dbr = x.dbr;
    registers.ipr = x.ipr;
    x.answer
}

// 1 to 4, then a run: the host tests nothing first.
#![tactic(auto)]

ghost use Rattle.std.specs.Prelude.{◌≡◌};
ghost use Rattle.model.specs.Questions.{start_questions};
ghost use Rattle.state.specs.View.{as_machine, as_delivery};
ghost use Rattle.questions.specs.Numbers.{number_by, start_number};
ghost use Rattle.plain.specs.Plain.{core_of};
ghost use Rattle.machine.specs.Answered.{AnsweredAs, PreparedAs};

use answers::{Answered, Kind, answer_of};
use host::record::Registers;
use questions::start::StartError;
use segments::translate::Dbr;
use state::reply::Reply;
use state::{Core, Delivery};
use words::pointer::{Pointer, SegmentNumber, WordNumber};

// 1 to 4 alone. It is a run of no steps, so that the one big function stays the only one that asks them.
fn ask(
    delivery: Delivery,
    core: Core,
    prs: &mut [u16; 24],
    memory: &mut [u64],
) -> Result<(), StartError>
    ensures answer { number_by start_number result ≡ start_questions (as_delivery delivery) (as_machine core prs.old memory.old) }
    ensures stays { as_machine core prs.new memory.new ≡ as_machine core prs.old memory.old }
{
    if !host::start::is_delivery(delivery) {
        return Err(host::start::delivery_refused(memory));
    }
    let x = plain::run(core, prs, memory, 0, &mut []);
    if x.kind == Kind::Refused as u64 {
        return Err(StartError::try_from(x.number as u8).unwrap());
    }
    Ok(())
}

// A, DBR and IPR come one by one, the PRs where the host has them. `single`: pointer words as a single step has them.
pub fn run(
    a: u64,
    address: u64,
    length: u64,
    ring: u64,
    segment: u64,
    word: u64,
    prs: &mut [u16; 24],
    memory: &mut [u64],
    budget: u32,
    trace: &mut [u64],
    delivery: Delivery,
    single: bool,
) -> Answered
    ensures { AnsweredAs (as_delivery delivery) single budget (core_of a address length ring segment word) prs.old memory.old trace.old result prs.new memory.new trace.new }
{
    let core = Core {
        a,
        dbr: Dbr { address, length },
        ipr: Pointer {
            ring,
            segment: SegmentNumber(segment),
            word: WordNumber(word),
        },
    };
    if let Err(error) = ask(delivery, core, prs, memory) {
        return answer_of(Reply::Refused(error.number()), core, 0);
    }
    let y = delivered::run(delivery, core, prs, memory, budget, trace);
    let reply = y.reply;
    let after = y.core;
    answer_of(reply, after, plain::counted(single, y.total, y.last))
}

// The core and the PRs of a host's record.
#[derive(Clone, Copy)]
pub struct Prepared {
    pub core: Core,
    pub prs: [u16; 24],
}

// 1 to 4 of a host's record.
pub fn prepare(registers: Registers, memory: &mut [u64]) -> Result<Prepared, StartError>
    ensures { PreparedAs registers memory.old result memory.new }
{
    let core = host::record::core_of(registers);
    let mut prs = registers.prs;
    ask(registers.delivery, core, &mut prs, memory)?;
    Ok(Prepared { core, prs })
}

// RCU: the registers of a frame taken up.
#![tactic(auto)]

ghost use Rattle.std.specs.Prelude.{◌≡◌, map, ◌+◌, ◌<◌, ◌≤◌, length, take, drop};
ghost use Rattle.model.specs.Words.{descriptor_in, pointer_in};
ghost use Rattle.model.specs.Questions.{rings_at_least, part_questions};
ghost use Rattle.model.specs.Step as Step;
ghost use Rattle.words.specs.View.{as_pointer};
ghost use Rattle.questions.specs.Numbers.{fault_number};
ghost use Rattle.segments.specs.Translation.{as_dbr, looked};
ghost use Rattle.state.specs.declared.End.TheVariants.{Faulted};
ghost use Rattle.state.specs.View.{as_pointers, Ready};
ghost use Rattle.restore.specs.Taken.{EndsAs, Taken};

use questions::Use;
use questions::fault::Fault;
use segments::translate::Dbr;
use state::{Core, End};
use words::descriptor::Descriptor;
use words::pointer::{Pointer, WordNumber};

// How a step ends, and the core then.
#[derive(Clone, Copy)]
pub struct Settled {
    pub core: Core,
    pub end: End,
}

// The thirteen words, a part of the segment's own.
fn frame_at(memory: &[u64], d: Descriptor, word: WordNumber) -> &[u64]
    requires { ((descriptor_in d.0).address + (descriptor_in d.0).length ≤ length memory.now) × (word.0 + 13 ≤ (descriptor_in d.0).length) }
    ensures { result.now ≡ take 13 (drop ((descriptor_in d.0).address + word.0) memory.now) }
{
    let start = words::descriptor::index(words::descriptor::absolute_address(d, word));
    &memory[start..start + 13]
}

// 52: is no PR of the frame in a lower ring?
// Stays: a loop where `all` on an iterator was tried, whose proof did not close.
fn are_at_least(ring: u64, frame: &[u64]) -> bool
    requires { length frame.now ≡ 13 }
    ensures { result ≡ rings_at_least ring (map pointer_in (take 8 (drop 5 frame.now))) }
{
    for k in 5..13 {
        if words::pointer::decode(frame[k]).ring < ring {
            return false;
        }
    }
    true
}

// PR0 to PR7 become the frame's.
fn take_prs(prs: &mut [u16; 24], frame: &[u64])
    requires { length frame.now ≡ 13 }
    ensures { as_pointers prs.new ≡ map pointer_in (take 8 (drop 5 frame.now)) }
{
    for k in 0..8 {
        state::prs::set_pr(prs, k, words::pointer::decode(frame[5 + k]));
    }
}

fn faulted(core: Core, fault: Fault, t: Pointer) -> Settled
    ensures { result ≡ record { core = core; end = Faulted (fault_number fault) t } }
{
    Settled {
        core,
        end: End::Faulted(fault.number(), t),
    }
}

// A, DBR, IPR and the PRs of a frame, 34 and 52 asked first.
fn take_up(core: Core, prs: &mut [u16; 24], frame: &[u64], words: usize, t: Pointer) -> Settled
    requires { length frame.now ≡ 13 }
    ensures { Taken core (as_pointers prs.old) words frame.now (as_pointer t) result (as_pointers prs.new) }
{
    let dbr = match operations::access::dbr_answer(frame[3], words) {
        Err(fault) => return faulted(core, fault, t),
        Ok(dbr) => dbr,
    };
    let ipr = words::pointer::decode(frame[4]);
    if !are_at_least(ipr.ring, frame) {
        return faulted(core, Fault::FrameRingsBelow, t);
    }
    take_prs(prs, frame);
    Settled {
        core: Core {
            a: frame[2],
            dbr,
            ipr,
        },
        end: End::Completed,
    }
}

// The look at its frame; a function of its own for speed (docs/PERFORMANCE.md).
fn look(dbr: Dbr, memory: &[u64], t: Pointer) -> Result<Descriptor, Fault>
    requires { dbr.address + dbr.length ≤ length memory.now }
    ensures { looked (as_dbr dbr) memory.now (as_pointer t) (part_questions 13 (as_pointer t)) result }
{
    segments::access::look(Use::Frame, dbr, memory, t, t)
}

// The frame at `t` is taken up.
pub fn restore(core: Core, prs: &mut [u16; 24], memory: &[u64], t: Pointer) -> Settled
    requires { Ready core memory.now }
    ensures { EndsAs core (as_pointers prs.old) memory.now (Step.restore (length memory.now) (as_pointer t)) result (as_pointers prs.new) memory.now }
{
    match look(core.dbr, memory, t) {
        Err(fault) => faulted(core, fault, t),
        Ok(d) => take_up(core, prs, frame_at(memory, d, t.word), memory.len(), t),
    }
}

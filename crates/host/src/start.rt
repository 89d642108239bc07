// Questions 1 to 4, asked once of what a host hands over.
ghost use Rattle.std.specs.Prelude.{◌≡◌, true, ◌-◌, ◌*◌, ◌<◌, ◌≤◌, eqb, length};
ghost use Rattle.std.specs.Int.Bits.{bit_and, bit_or};
ghost use Rattle.model.specs.Registers.{no_delivery};
ghost use Rattle.model.specs.Questions as Questions;
ghost use Rattle.model.specs.Check as Check;
ghost use Rattle.words.specs.View.{as_pointer};
ghost use Rattle.state.specs.View.{as_pointers, as_machine, as_delivery, pr_of};
ghost use Rattle.questions.specs.Numbers.{number_by, start_number};
ghost use Rattle.host.specs.Record.{machine_of, delivery_of, AnswersAny};
ghost use Rattle.host.specs.Rings.{packed_rings, Joined, ones, eights};

use crate::record::Registers;
use questions::start::StartError;
use state::{Core, Delivery};
use words::pointer::{Pointer, SegmentNumber, WordNumber};

// 2 of one pointer.
#[tactic(auto, unfolding(model::specs::Questions::pointer_in_range))]
fn is_in_range(p: Pointer) -> bool
    ensures { result ≡ Questions.pointer_in_range (as_pointer p) }
{
    (p.ring <= 7) & ((p.segment.0 <= 4095) & (p.word.0 <= 65535))
}

// RING of a PR.
#[tactic(auto, using(crate::proofs::RingLaws::eight_at_once))]
fn ring_of(prs: &[u16; 24], number: usize) -> u64
    requires { number < 8 }
    ensures { (result ≡ (pr_of prs.now number).ring) × (result ≤ 255) }
{
    state::prs::pr(prs, number).ring
}

// SEGNO of a PR; WORDNO is in range as it is.
#[tactic(auto, using(crate::proofs::RingLaws::eight_at_once))]
fn segment_of(prs: &[u16; 24], number: usize) -> u64
    requires { number < 8 }
    ensures { (result ≡ (pr_of prs.now number).segment) × ((pr_of prs.now number).word ≤ 65535) }
{
    state::prs::pr(prs, number).segment.0
}

// The rings of the PRs, a byte each.
#[tactic(auto, using(crate::proofs::RingLaws::eight_at_once))]
fn rings_of(prs: &[u16; 24]) -> u64
    ensures { result ≡ packed_rings (as_pointers prs.now) }
{
    ring_of(prs, 0)
        + 256 * ring_of(prs, 1)
        + 65536 * ring_of(prs, 2)
        + 16777216 * ring_of(prs, 3)
        + 4294967296 * ring_of(prs, 4)
        + 1099511627776 * ring_of(prs, 5)
        + 281474976710656 * ring_of(prs, 6)
        + 72057594037927936 * ring_of(prs, 7)
}

// The bits of all segment numbers of the PRs.
#[tactic(auto, using(crate::proofs::RingLaws::eight_at_once))]
fn segments_of(prs: &[u16; 24]) -> u64
    ensures { Joined (as_pointers prs.now) result }
{
    segment_of(prs, 0)
        | (segment_of(prs, 1)
            | (segment_of(prs, 2)
                | (segment_of(prs, 3)
                    | (segment_of(prs, 4)
                        | (segment_of(prs, 5) | (segment_of(prs, 6) | segment_of(prs, 7)))))))
}

// 2 of every PR: no ring has a bit above its lowest three, no segment number one above its lowest twelve.
#[tactic(auto, using(crate::proofs::RingLaws::eight_at_once))]
fn prs_are_in_range(prs: &[u16; 24]) -> bool
    ensures { result ≡ Questions.all Questions.pointer_in_range (as_pointers prs.now) }
{
    ((rings_of(prs) & 0xF8F8F8F8F8F8F8F8) == 0) & (segments_of(prs) <= 4095)
}

// 3 of bytes that are at most 7: with bit 3 put on and `ring` taken away, it is still on where a byte is at least `ring`, and no byte borrows.
#[tactic(auto, using(crate::proofs::RingLaws::eight_at_once))]
fn bytes_are_at_least(ring: u64, bytes: u64) -> bool
    requires { ring ≤ 7 }
    ensures { result ≡ eqb (bit_and (bit_or bytes eights - ring * ones) eights) eights }
{
    (((bytes | 0x0808080808080808) - ring * 0x0101010101010101) & 0x0808080808080808)
        == 0x0808080808080808
}

// 3, where 2 has a yes: no PR's ring below IPR's.
#[tactic(auto, using(crate::proofs::RingLaws::eight_at_once))]
fn are_at_least(ring: u64, prs: &[u16; 24]) -> bool
    requires { (ring ≤ 7) × (Questions.all Questions.pointer_in_range (as_pointers prs.now) ≡ true) }
    ensures { result ≡ Questions.rings_at_least ring (as_pointers prs.now) }
{
    bytes_are_at_least(ring, rings_of(prs))
}

// 2 of the switch and its segments.
#[tactic(auto, unfolding(model::specs::Questions::delivery_in_range))]
pub fn is_delivery(delivery: Delivery) -> bool
    ensures { result ≡ Questions.delivery_in_range (as_delivery delivery) }
{
    (delivery.switch <= 1) & ((delivery.save <= 4095) & (delivery.handler <= 4095))
}

// 1 and 2, where the switch and its segments have a no.
#[tactic(auto, using(crate::proofs::RecordLaws::refused_1, crate::proofs::RecordLaws::refused_2))]
pub fn delivery_refused(memory: &[u64]) -> StartError
    ensures { start_number result ≡ Questions.ask (Questions.memory_fits (length memory.now)) 1 2 }
{
    if 16777216 < memory.len() {
        return StartError::MemoryTooLarge;
    }
    StartError::OutOfRange
}

// 1 to 4, but for 2 of the switch and its segments: the first no.
#[tactic(auto, using(crate::proofs::RecordLaws::start_answers, crate::proofs::RingLaws::eight_at_once))]
pub fn start_answer(core: Core, prs: &[u16; 24], memory: &[u64]) -> Result<(), StartError>
    ensures { number_by start_number result ≡ Questions.start_questions no_delivery (as_machine core prs.now memory.now) }
{
    if 16777216 < memory.len() {
        return Err(StartError::MemoryTooLarge);
    }
    if !is_in_range(core.ipr) {
        return Err(StartError::OutOfRange);
    }
    if !prs_are_in_range(prs) {
        return Err(StartError::OutOfRange);
    }
    if 16777215 < core.dbr.address {
        return Err(StartError::OutOfRange);
    }
    if !are_at_least(core.ipr.ring, prs) {
        return Err(StartError::RingsBelow);
    }
    if 4096 < core.dbr.length { // of a run's start
        return Err(StartError::BaseOutsideMemory);
    }
    if memory.len() < core.dbr.address as usize + core.dbr.length as usize {
        return Err(StartError::BaseOutsideMemory);
    }
    Ok(())
}

// The same with 2 of the switch and its segments, and of a pointer handed in, for any memory of that size.
// Stays: it is not made of `start_answer`, which has one caller, so that the compiler merges it into the loop of a run
// (docs/PERFORMANCE.md).
#[tactic(auto, using(crate::proofs::RecordLaws::size_answers, crate::proofs::RingLaws::eight_at_once))]
pub fn size_answer(
    delivery: Delivery,
    p: Pointer,
    core: Core,
    prs: &[u16; 24],
    size: usize,
) -> Result<(), StartError>
    ensures { AnswersAny result size (λ m. Check.check_questions (as_delivery delivery) (as_machine core prs.now m) (as_pointer p)) }
{
    if 16777216 < size {
        return Err(StartError::MemoryTooLarge);
    }
    if !is_in_range(p) {
        return Err(StartError::OutOfRange);
    }
    if !is_delivery(delivery) {
        return Err(StartError::OutOfRange);
    }
    if !is_in_range(core.ipr) {
        return Err(StartError::OutOfRange);
    }
    if !prs_are_in_range(prs) {
        return Err(StartError::OutOfRange);
    }
    if 16777215 < core.dbr.address {
        return Err(StartError::OutOfRange);
    }
    if !are_at_least(core.ipr.ring, prs) {
        return Err(StartError::RingsBelow);
    }
    if 4096 < core.dbr.length {
        return Err(StartError::BaseOutsideMemory);
    }
    if size < core.dbr.address as usize + core.dbr.length as usize {
        return Err(StartError::BaseOutsideMemory);
    }
    Ok(())
}

// The same of a memory.
pub fn check_answer(
    delivery: Delivery,
    p: Pointer,
    core: Core,
    prs: &[u16; 24],
    memory: &[u64],
) -> Result<(), StartError>
    ensures { number_by start_number result ≡ Check.check_questions (as_delivery delivery) (as_machine core prs.now memory.now) (as_pointer p) }
{
    size_answer(delivery, p, core, prs, memory.len())
}

// 1 to 4 of a record, for any memory of that size: any pointer in range adds nothing to what is asked.
#[tactic(auto, using(crate::proofs::RecordLaws::asked_of_record))]
pub fn record_size_answer(registers: Registers, size: usize) -> Result<(), StartError>
    ensures { AnswersAny result size (λ m. Questions.start_questions (delivery_of registers) (machine_of registers m)) }
{
    let core = crate::record::core_of(registers);
    let prs = registers.prs;
    let p = Pointer {
        ring: 0,
        segment: SegmentNumber(0),
        word: WordNumber(0),
    };
    size_answer(registers.delivery, p, core, &prs, size)
}

// 1 to 4 of a record and a memory.
pub fn record_answer(registers: Registers, memory: &[u64]) -> Result<(), StartError>
    ensures { number_by start_number result ≡ Questions.start_questions (delivery_of registers) (machine_of registers memory.now) }
{
    record_size_answer(registers, memory.len())
}

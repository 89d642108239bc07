// The registers in an ST record: A, DBR, then IPR and PR0 to PR7 as RING, SEGNO and WORDNO; after them today the switch, the save
// segment and the handler segment.
ghost use Rattle.std.specs.Prelude.{◌≡◌, ◌+◌, ◌≤◌, length};
ghost use Rattle.model.specs.Image.{start_size, pointer_at, pointers_at, registers_at, delivery_at};
ghost use Rattle.state.specs.View.{as_pointers, as_delivery};
ghost use Rattle.host.specs.Record.{pointer_of, registers_of, delivery_of};
ghost use Rattle.fields.specs.Rules.{rules_of};

use crate::number::{number_1, number_2, number_4, number_8};
use crate::rules::Rules;
use host::record::{DescriptorBase, Pointer, Registers};
use state::Delivery;

#[tactic(auto, using(crate::proofs::RegisterLaws::registers_in))]
pub fn pointer_at(bytes: &[u8], at: usize) -> Pointer
    requires { at + 5 ≤ length bytes.now }
    ensures { pointer_of result ≡ pointer_at at bytes.now }
{
    Pointer {
        ring: number_1(bytes, at),
        segment: number_2(bytes, at + 1),
        word: number_2(bytes, at + 3),
    }
}

#[tactic(auto, using(crate::proofs::RegisterLaws::registers_in))]
pub fn prs_at(bytes: &[u8]) -> [u16; 24]
    requires { 61 ≤ length bytes.now }
    ensures { as_pointers result ≡ pointers_at 8 21 bytes.now }
{
    let mut prs: [u16; 24] = [0; 24];
    for k in 0..8 {
        let p = pointer_at(bytes, 21 + 5 * k);
        state::prs::set_pr(&mut prs, k, words::pointer::Pointer::from(p));
    }
    prs
}

// No switch is on for a stored image.
#[tactic(auto, using(crate::proofs::RegisterLaws::delivery_in))]
pub fn delivery_at(bytes: &[u8], rules: Rules) -> Delivery
    requires { start_size (rules_of rules) ≤ length bytes.now }
    ensures { as_delivery result ≡ delivery_at (rules_of rules) bytes.now }
{
    match rules {
        Rules::Today => Delivery {
            switch: number_1(bytes, 61) as u16,
            save: number_2(bytes, 62),
            handler: number_2(bytes, 64),
        },
        Rules::Stored => Delivery::default(),
    }
}

#[tactic(auto, using(crate::proofs::RegisterLaws::registers_read, crate::proofs::MarkLaws::start_has_registers))]
pub fn registers_at(bytes: &[u8], rules: Rules) -> Registers
    requires { start_size (rules_of rules) ≤ length bytes.now }
    ensures { (registers_of result ≡ registers_at bytes.now) × (delivery_of result ≡ delivery_at (rules_of rules) bytes.now) }
{
    Registers {
        a: number_8(bytes, 2),
        dbr: DescriptorBase {
            address: number_4(bytes, 10),
            length: number_2(bytes, 14),
        },
        ipr: pointer_at(bytes, 16),
        prs: prs_at(bytes),
        delivery: delivery_at(bytes, rules),
    }
}

// The opcodes that set a register without a word of memory, and the word that SPP stores.
ghost use Rattle.std.specs.Prelude.{◌≡◌, true};
ghost use Rattle.model.specs.Words.{instruction_in, pointer_word};
ghost use Rattle.model.specs.Registers as Registers;
ghost use Rattle.model.specs.Questions.{all, pointer_in_range};
ghost use Rattle.words.specs.View.{as_pointer, PointerWithin};
ghost use Rattle.state.specs.View.{as_pointers, pr_of, Finishes, FinishesWithAnyPrs};

use state::{After, Core};
use words::descriptor::Descriptor;
use words::pointer::Pointer;

// LDI.
pub fn load_literal(core: Core, code: Descriptor, w: u64) -> After
    ensures { FinishesWithAnyPrs core code (Registers.with_a (instruction_in w).lit) result }
{
    state::completed(state::with_a(core, words::instruction::literal(w)), code)
}

// EAP: the target is not checked.
pub fn load_pointer(core: Core, code: Descriptor, prs: &mut [u16; 24], w: u64, t: Pointer) -> After
    requires { PointerWithin t }
    ensures { Finishes core code (as_pointers prs.old) (Registers.with_pr (instruction_in w).reg (as_pointer t)) result (as_pointers prs.new) }
{
    state::prs::set_pr(prs, words::instruction::reg(w), t);
    state::completed(core, code)
}

// SPP's word: the pointer word of PR[REG], I off.
pub fn stored_pointer(prs: &[u16; 24], w: u64) -> u64
    requires { all pointer_in_range (as_pointers prs.now) ≡ true }
    ensures { result ≡ pointer_word (pr_of prs.now (instruction_in w).reg) }
{
    words::pointer::encode(state::prs::pr(prs, words::instruction::reg(w)))
}

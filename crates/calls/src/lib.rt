// What a call on bytes answers: one signed number.
#![tactic(auto)]

ghost use Rattle.calls.specs.Call.{LengthFits, SignedAs};

// How many bytes were written, or the number of the question that refused, negated.
#[tactic(auto, using(crate::proofs::CallLaws::signs))]
pub fn signed<E: Into<u8>>(written: Result<usize, E>) -> i64
    requires { LengthFits written }
    ensures { SignedAs E.converts written result }
{
    match written {
        Ok(length) => length as i64,
        Err(error) => {
            let number: u8 = error.into();
            -(number as i64)
        }
    }
}

// A word's fields and its single bits, by their places.
ghost use Rattle.std.specs.Prelude.{◌≡◌, ◌+◌, ◌^◌, ◌<◌, ◌≤◌};
ghost use Rattle.model.specs.Words.{field, on};

// The field of WIDTH bits from bit AT up.
#[tactic(auto, using(std::proofs::lemmas::Nat::one_shl), unfolding(model::specs::Words::field))]
pub(crate) fn field<const AT: u32, const WIDTH: u32>(w: u64) -> u64
    requires at_within { AT < 64 }
    requires width_within { WIDTH < 64 }
    ensures same { result ≡ field AT WIDTH w }
    ensures within { result < 2 ^ WIDTH }
{
    (w >> AT) % (1 << WIDTH)
}

// Is bit AT on?
#[tactic(auto, unfolding(model::specs::Words::on))]
pub(crate) fn is_on<const AT: u32>(w: u64) -> bool
    requires { AT < 64 }
    ensures { result ≡ on AT w }
{
    field::<AT, 1>(w) == 1
}

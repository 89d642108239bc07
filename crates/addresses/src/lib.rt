// A set of addresses below 8,192, a bit each: those that a WD record has had.
#![tactic(auto)]

ghost use Rattle.std.specs.Prelude.{◌≡◌, ◌||◌, ◌<◌, eqb, length};
ghost use Rattle.addresses.specs.Set.{in_set, PutIn};

// 128 words of 64 bits.
#[tactic(auto, unfolding(crate::specs::Set::in_set))]
pub fn is_in(set: &[u64], address: usize) -> bool
    requires { (length set.now ≡ 128) × (address < 8192) }
    ensures { result ≡ in_set set.now address }
{
    (set[address / 64] >> (address % 64)) % 2 == 1
}

pub fn put_in(set: &mut [u64], address: usize)
    requires { (length set.old ≡ 128) × (address < 8192) }
    ensures { PutIn address set.old set.new }
{
    let i = address / 64;
    set[i] |= 1 << (address % 64);
}

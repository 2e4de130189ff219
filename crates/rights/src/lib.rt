// Tests of a rights word.
#![tactic(auto, using(crate::specs::Masks::shift, crate::specs::Masks::shares_one, crate::specs::Masks::pops_mask, crate::specs::Masks::shares_mask, crate::specs::Masks::subset_mask, crate::specs::Masks::subset_wide), unfolding(spec_tree::specs::Rights::pushes, spec_tree::specs::Rights::pops, spec_tree::specs::Rights::uses))]

ghost use Rattle.std.specs.Prelude.{◌≡◌, ℕ, ◌<◌};
ghost use Rattle.spec_tree.specs.Rights.{pushes, pops, uses, shares_pop, subset};

pub fn pushes(r: u32, q: u32) -> bool
    requires { q < 4 }
    ensures { result ≡ pushes r q }
{
    (r >> (q * 2)) % 4 % 2 == 1
}

pub fn pops(r: u32, q: u32) -> bool
    requires { q < 4 }
    ensures { result ≡ pops r q }
{
    (r >> (q * 2)) % 4 / 2 == 1
}

pub fn uses(r: u32, q: u32) -> bool
    requires { q < 4 }
    ensures { result ≡ uses r q }
{
    (r >> (q * 2)) % 4 != 0
}

// The pop bits of the four queues.
const POPS: u32 = 0b1010_1010;

pub fn shares_pop(a: u32, b: u32) -> bool
    ensures { result ≡ shares_pop a b }
{
    a & b & POPS != 0
}

pub fn subset(a: u32, b: u32) -> bool
    ensures { result ≡ subset a b }
{
    a < 256 && a & b == a
}

// The pop rights of r, as rights to the queues that r may pop and to no other.
pub fn pop_rights(r: u32) -> u32
    ensures { (q : ℕ) → q < 4 → uses result q ≡ pops r q }
{
    r & POPS
}

// The right to pop q alone: who shares it may pop q.
pub fn pop_right(q: u32) -> u32
    requires { q < 4 }
    ensures { (r : ℕ) → shares_pop r result ≡ pops r q }
{
    2 << (q * 2)
}

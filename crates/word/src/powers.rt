ghost use Rattle.std.specs.Prelude.{◌≡◌, ◌^◌, ◌<◌, ◌≤◌, min};

// 64 to the power `count`, with `count` held at ten, the bytes of A and X together.
#[tactic(auto, using(crate::proofs::Bytes::pow_pos, crate::proofs::Bytes::pow_fits, crate::proofs::Bytes::pow_bits))]
pub fn power(count: u32) -> u64
    ensures value { result ≡ 64 ^ min count 10 }
    ensures exact { count ≤ 10 → result ≡ 64 ^ count }
    ensures positive { 0 < result }
{
    1 << (6 * count.min(10))
}

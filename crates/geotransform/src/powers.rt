// Powers of ten, from a table.
ghost use Rattle.std.specs.Prelude.{◌≡◌, ◌≤◌, ◌*◌, ◌^◌, min};

const TENS: [u128; 29] = [
    1,
    10,
    100,
    1_000,
    10_000,
    100_000,
    1_000_000,
    10_000_000,
    100_000_000,
    1_000_000_000,
    10_000_000_000,
    100_000_000_000,
    1_000_000_000_000,
    10_000_000_000_000,
    100_000_000_000_000,
    1_000_000_000_000_000,
    10_000_000_000_000_000,
    100_000_000_000_000_000,
    1_000_000_000_000_000_000,
    10_000_000_000_000_000_000,
    100_000_000_000_000_000_000,
    1_000_000_000_000_000_000_000,
    10_000_000_000_000_000_000_000,
    100_000_000_000_000_000_000_000,
    1_000_000_000_000_000_000_000_000,
    10_000_000_000_000_000_000_000_000,
    100_000_000_000_000_000_000_000_000,
    1_000_000_000_000_000_000_000_000_000,
    10_000_000_000_000_000_000_000_000_000,
];

/// Ten to the `k`.
pub fn ten_to(k: u32) -> u128
    requires { k ≤ 28 }
    ensures { result ≡ 10 ^ k }
{
    TENS[k as usize]
}

/// `n` times ten to the `k`, or ten to the `most` where that is greater.
#[tactic(auto, using(crate::proofs::Tens::within, crate::proofs::Tens::fits, crate::proofs::Tens::past, crate::proofs::Tens::reached))]
pub fn raised(n: u128, k: u32, most: u32) -> u128
    requires { most ≤ 28 }
    ensures { result ≡ min (n * 10 ^ k) (10 ^ most) }
{
    if k > most {
        return if n == 0 { 0 } else { ten_to(most) };
    }
    if n < ten_to(most - k) {
        n * ten_to(k)
    } else {
        ten_to(most)
    }
}

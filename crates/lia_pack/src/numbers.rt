ghost use Rattle.std.specs.Prelude.{◌≡◌, ℕ, ℤ, List, [], ◌∷◌, OnOk};
ghost use Rattle.lia_pack.specs.Numbers.{Say, AreWritten, IsBegun, folded};

use std::alloc::AllocError;
use sv_list::Items;

/// Writes a number: seven bits a byte, the highest first, and each byte but the last has 128 more.
pub(crate) fn push_number(bytes: &mut Items<u8>, number: u128) -> Result<(), AllocError>
    ensures { OnOk result (AreWritten bytes.old bytes.new (number ∷ [])) }
{
    begin_number(bytes, number / 128)?;
    bytes.push((number % 128) as u8)?;
    Ok(())
}

/// Writes what a number has before its last seven bits.
fn begin_number(bytes: &mut Items<u8>, high: u128) -> Result<(), AllocError>
    ensures { OnOk result (IsBegun bytes.old bytes.new high) }
{
    if high == 0 {
        return Ok(());
    }
    begin_number(bytes, high / 128)?;
    bytes.push((128 + high % 128) as u8)?;
    Ok(())
}

/// The first number that the bytes say, and the bytes behind it.
pub(crate) fn read_number(bytes: &[u8]) -> (u128, &[u8])
    requires { (n : ℕ) × ((ns : List ℕ) × Say bytes.now (n ∷ ns)) }
    ensures { (n : ℕ) (ns : List ℕ) → Say bytes.now (n ∷ ns) → (result.0 ≡ n) × Say result.1.now ns }
{
    let mut left = bytes;
    let mut high: u128 = 0;
    while let Some((first, rest)) = left.split_first() {
        if *first < 128 {
            return (high * 128 + *first as u128, rest);
        }
        high = high * 128 + (*first - 128) as u128;
        left = rest;
    }
    unreachable!()
}

/// A number with its sign as one without: twice it, and twice what is below it for one below 0.
pub(crate) fn fold_sign(number: i128) -> u128
    ensures { result ≡ folded number }
{
    if number < 0 {
        (-(number + 1)) as u128 * 2 + 1
    } else {
        number as u128 * 2
    }
}

pub(crate) fn unfold_sign(number: u128) -> i128
    ensures { (z : ℤ) → number ≡ folded z → result ≡ z }
{
    let half = (number / 2) as i128;
    if number % 2 == 0 { half } else { -half - 1 }
}

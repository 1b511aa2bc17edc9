//! A digest of how a regular expression is written, by which its place is found.

use sv_terms::Regex;

// What each digest begins with.
const SEED: u64 = 0xcbf2_9ce4_8422_2325;

// The number of the form of a complement.
const COMPLEMENT: u64 = 13;

// One more number goes into the digest, as in the hash FNV-1a, with eight bytes at once.
fn mix(digest: u64, number: u64) -> u64 {
    (digest ^ number).wrapping_mul(0x100_0000_01b3)
}

fn of_word(word: &[u32], seed: u64) -> u64 {
    let mut digest = seed;
    for character in word {
        digest = mix(digest, u64::from(*character));
    }
    digest
}

#[cycle(digest)]
fn of_all(expressions: &[Regex], seed: u64) -> u64 {
    let mut digest = mix(seed, expressions.len() as u64);
    for expression in expressions {
        digest = of(expression, digest);
    }
    digest
}

#[cycle(digest)]
fn of(expression: &Regex, seed: u64) -> u64 {
    match expression {
        Regex::Empty => mix(seed, 1),
        Regex::All => mix(seed, 2),
        Regex::AnyChar => mix(seed, 3),
        Regex::Text(word) => of_word(word.as_slice(), mix(seed, 4)),
        Regex::Range(low, high) => mix(mix(mix(seed, 5), u64::from(*low)), u64::from(*high)),
        Regex::Concat(parts) => of_all(parts.as_slice(), mix(seed, 6)),
        Regex::Union(parts) => of_all(parts.as_slice(), mix(seed, 7)),
        Regex::Inter(parts) => of_all(parts.as_slice(), mix(seed, 8)),
        Regex::Diff(parts) => of_all(parts.as_slice(), mix(seed, 9)),
        Regex::Star(part) => of(part.get(), mix(seed, 10)),
        Regex::Plus(part) => of(part.get(), mix(seed, 11)),
        Regex::Opt(part) => of(part.get(), mix(seed, 12)),
        Regex::Comp(part) => of(part.get(), mix(seed, COMPLEMENT)),
        Regex::Loop(part, least, most) => {
            let bounds = mix(mix(mix(seed, 14), u64::from(*least)), u64::from(*most));
            of(part.get(), bounds)
        }
    }
}

/// A number for how the regular expression is written: two that are written the same have the same one, and
/// others rarely do. Linear in the expression.
pub fn digest(expression: &Regex) -> u64 {
    of(expression, SEED)
}

/// The digest of the expression's complement.
pub fn digest_of_others(expression: &Regex) -> u64 {
    of(expression, mix(SEED, COMPLEMENT))
}

//! A digest of how a term is written, by which atoms that are written alike are found.

use sv_terms::{Regex, Term};

// What each digest begins with.
const SEED: u64 = 0xcbf2_9ce4_8422_2325;

// One more number goes into the digest, as in the hash FNV-1a, with eight bytes at once.
fn mix(digest: u64, number: u64) -> u64 {
    (digest ^ number).wrapping_mul(0x100_0000_01b3)
}

fn of_numbers(numbers: &[u32], seed: u64) -> u64 {
    let mut digest = seed;
    for number in numbers {
        digest = mix(digest, u64::from(*number));
    }
    digest
}

fn of_bytes(bytes: &[u8], seed: u64) -> u64 {
    let mut digest = seed;
    for byte in bytes {
        digest = mix(digest, u64::from(*byte));
    }
    digest
}

#[cycle(digest)]
fn of_terms(terms: &[Term], seed: u64) -> u64 {
    let mut digest = mix(seed, terms.len() as u64);
    for term in terms {
        digest = of_term(term, digest);
    }
    digest
}

#[cycle(expression)]
fn of_regexes(regexes: &[Regex], seed: u64) -> u64 {
    let mut digest = mix(seed, regexes.len() as u64);
    for regex in regexes {
        digest = of_regex(regex, digest);
    }
    digest
}

#[cycle(expression)]
fn of_regex(regex: &Regex, seed: u64) -> u64 {
    match regex {
        Regex::Empty => mix(seed, 1),
        Regex::All => mix(seed, 2),
        Regex::AnyChar => mix(seed, 3),
        Regex::Text(word) => of_numbers(word.as_slice(), mix(seed, 4)),
        Regex::Range(low, high) => mix(mix(mix(seed, 5), u64::from(*low)), u64::from(*high)),
        Regex::Concat(parts) => of_regexes(parts.as_slice(), mix(seed, 6)),
        Regex::Union(parts) => of_regexes(parts.as_slice(), mix(seed, 7)),
        Regex::Inter(parts) => of_regexes(parts.as_slice(), mix(seed, 8)),
        Regex::Diff(parts) => of_regexes(parts.as_slice(), mix(seed, 9)),
        Regex::Star(part) => of_regex(part.get(), mix(seed, 10)),
        Regex::Plus(part) => of_regex(part.get(), mix(seed, 11)),
        Regex::Opt(part) => of_regex(part.get(), mix(seed, 12)),
        Regex::Comp(part) => of_regex(part.get(), mix(seed, 13)),
        Regex::Loop(part, least, most) => {
            let bounds = mix(mix(mix(seed, 14), u64::from(*least)), u64::from(*most));
            of_regex(part.get(), bounds)
        }
    }
}

// Of a transducer only its size: relations by several of one size are rare.
#[cycle(digest)]
fn of_term(term: &Term, seed: u64) -> u64 {
    match term {
        Term::Truth(holds) => mix(mix(seed, 21), u64::from(*holds)),
        Term::Number(number) => mix(mix(seed, 22), u64::try_from(*number).unwrap_or(0)),
        Term::Text(word) => of_numbers(word.as_slice(), mix(seed, 23)),
        Term::Constant(name, _) => of_bytes(name.as_bytes(), mix(seed, 24)),
        Term::Apply(op, terms) => of_terms(terms.as_slice(), mix(mix(seed, 25), *op as u64)),
        Term::InRe(term, regex) => of_regex(regex, of_term(term.get(), mix(seed, 26))),
        Term::Related(transducer, read, written) => {
            let states = u64::from(transducer.get().states);
            let digest = of_term(read.get(), mix(mix(seed, 27), states));
            of_term(written.get(), digest)
        }
        Term::Opaque(_) => mix(seed, 28),
    }
}

/// A number for how the term is written: two that are written the same have the same one, and others rarely do.
/// Linear in the term.
pub fn digest(term: &Term) -> u64 {
    of_term(term, SEED)
}

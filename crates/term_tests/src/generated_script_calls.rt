//! The first blocks of a seed, against those that a second program drew.
use generated_script::Blocks;
use std::alloc::Global;
use std::test::Fail;

// The script of a seed, with so many blocks.
fn script_of(alloc: Global, seed: u64, size: u32) -> Result<Vec<u8>, Fail> {
    let mut blocks = Blocks::new(seed);
    let mut script = Vec::new(alloc);
    for _ in 0..size {
        script.extend_from_slice(&blocks.next(alloc)?)?;
    }
    Ok(script)
}

// The first eight blocks of seed 1, drawn by a program in another language.
const DRAWN: &str = "(push 1)
(declare-const x String)
(declare-const y String)
(assert (str.in_re x (re.* (str.to_re \"aa\"))))
(assert (= (str.len x) 101))
(check-sat)
(pop 1)
(push 1)
(declare-const x String)
(declare-const y String)
(assert (str.in_re x (re.* (str.to_re \"aa\"))))
(assert (= (str.len x) 91))
(check-sat)
(pop 1)
(push 1)
(declare-const x String)
(declare-const y String)
(assert (= x (str.replace_all y \"<\" \"&lt;\")))
(assert (str.contains x \"<\"))
(check-sat)
(pop 1)
(push 1)
(declare-const x String)
(declare-const y String)
(assert (= x (str.replace_all y \"<\" \"&lt;\")))
(assert (str.contains x \"<\"))
(check-sat)
(pop 1)
(push 1)
(declare-const x String)
(declare-const y String)
(assert (str.in_re x ((_ re.^ 2) (str.to_re \"ab\"))))
(assert (= (str.len x) 4))
(check-sat)
(pop 1)
(push 1)
(declare-const x String)
(declare-const y String)
(assert (= x (str.++ y y)))
(assert (= (str.len x) 37))
(check-sat)
(pop 1)
(push 1)
(declare-const x String)
(declare-const y String)
(assert (str.in_re x ((_ re.^ 7) (str.to_re \"ab\"))))
(assert (= (str.len x) 14))
(check-sat)
(pop 1)
(push 1)
(declare-const x String)
(declare-const y String)
(assert (= x (str.++ y y)))
(assert (= (str.len x) 45))
(check-sat)
(pop 1)
";

#[test]
fn first_blocks_of_a_seed(rt: HostRuntime) -> Result<(), Fail> {
    assert!(rt; script_of(rt.alloc(), 1, 8)?.as_slice() == DRAWN.as_bytes());
    Ok(())
}

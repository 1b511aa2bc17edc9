//! Assumptions, named assertions and cores, through the whole program.
ghost use Rattle.std.specs.Prelude.{◌≤◌};

use smt_session::{Status, run};
use std::alloc::Global;
use std::process::Abort;
use std::test::Fail;
use std::thread::Threads;
use sv_io::{MemSink, MemSource, ProgramArguments};

// The same script over sources that give a byte, three, and all of it a read.
fn answer_of<R: Abort + Threads + Sync>(
    rt: &R,
    alloc: Global,
    script: &[u8],
    status: Status,
    taken: &[u8],
) -> Result<(), Fail> {
    for piece in [1, 3, 4096] {
        let words = ProgramArguments::new(alloc);
        let mut source = MemSource::new(None, script.to_vec(alloc)?, Vec::new(alloc), piece);
        let mut sink = MemSink::new(alloc, Vec::new(alloc), piece);
        let outcome = run(rt, alloc, &words, &mut source, &mut sink);
        assert!(rt; outcome.status == status);
        assert!(rt; sink.contents() == taken);
    }
    Ok(())
}

#[test]
fn assumptions_hold_for_one_check(rt: HostRuntime) -> Result<(), Fail> {
    let alloc = rt.alloc();
    for (script, status, taken) in [
        (
            b"(declare-const p Bool)(declare-const q Bool)(assert (or p q))(check-sat-assuming ((not p) (not q)))(get-unsat-core)(check-sat)".as_slice(),
            Status::Answered,
            b"unsat\n()\nsat\n".as_slice(),
        ),
        (
            b"(declare-const p Bool)(declare-const q Bool)(check-sat)(get-unsat-core)(check-sat-assuming ((and p q)))",
            Status::ErrorAnswered,
            b"sat\n(error \"no core\")\n(error \"shape\")\n",
        ),
        // none, a macro, one that isn't known, one of another sort, one with parameters
        (
            b"(declare-const p Bool)(define-fun m () Bool (not p))(check-sat-assuming ())(check-sat-assuming (p m))(check-sat-assuming (m (not p)))(get-value (p))",
            Status::Answered,
            b"sat\nunsat\nsat\n((p false))\n",
        ),
        (
            b"(declare-const n Int)(define-fun f ((b Bool)) Bool b)(check-sat-assuming (r))(check-sat-assuming (n))(check-sat-assuming (f))",
            Status::ErrorAnswered,
            b"(error \"unknown symbol\")\n(error \"sort\")\n(error \"arity\")\n",
        ),
        // at the most levels
        (
            b"(declare-const p Bool)(push 65535)(assert p)(check-sat-assuming ((not p)))(check-sat-assuming (p))(get-info :assertion-stack-levels)",
            Status::Answered,
            b"unsat\nsat\n(:assertion-stack-levels 65535)\n",
        ),
        // the model is of the check with its assumptions, and lasts until something changes
        (
            b"(declare-const p Bool)(check-sat-assuming (p))(get-model)(set-info :status sat)(get-value (p))(push 1)(get-value (p))",
            Status::ErrorAnswered,
            b"sat\n(\n  (define-fun p () Bool true)\n)\n((p true))\n(error \"no model\")\n",
        ),
    ] {
        answer_of(&rt, alloc, script, status, taken)?;
    }
    Ok(())
}

#[test]
fn cores_are_found(rt: HostRuntime) -> Result<(), Fail> {
    let alloc = rt.alloc();
    for (script, status, taken) in [
        (
            b"(declare-const p Bool)(declare-const q Bool)(assert (! p :named a))(assert (! (not p) :named b))(assert (! q :named c))(check-sat)(get-unsat-core)".as_slice(),
            Status::Answered,
            b"unsat\n(a b)\n".as_slice(),
        ),
        // after an assumption, of which the core is not
        (
            b"(declare-const p Bool)(declare-const q Bool)(assert (! q :named a))(assert (! (=> q (not p)) :named b))(assert (! (or p q) :named c))(check-sat-assuming (p))(get-unsat-core)(get-unsat-core)(check-sat)",
            Status::Answered,
            b"unsat\n(a b)\n(a b)\nsat\n",
        ),
        // a name on a level that is popped may be declared again, and is in no core
        (
            b"(declare-const p Bool)(push 1)(assert (! p :named a))(assert (! (not p) :named b))(check-sat)(get-unsat-core)(pop 1)(get-unsat-core)(check-sat)(assert (! (not p) :named a))(assert (! p :named |b c|))(check-sat)(get-unsat-core)",
            Status::ErrorAnswered,
            b"unsat\n(a b)\n(error \"no core\")\nsat\nunsat\n(a |b c|)\n",
        ),
        // a later assertion drops the core, and a name is a macro
        (
            b"(declare-const x String)(assert (! (= x \"ab\") :named a))(define-fun n () Bool (not a))(assert (! n :named b))(check-sat)(get-unsat-core)(assert a)(get-unsat-core)(check-sat)(get-unsat-core)",
            Status::ErrorAnswered,
            b"unsat\n(a b)\n(error \"no core\")\nunsat\n(b)\n",
        ),
        (
            b"(declare-const p Bool)(assert (! (or p (not p)) :named a))(check-sat)(get-value (a))(get-unsat-core)",
            Status::ErrorAnswered,
            b"sat\n((a true))\n(error \"no core\")\n",
        ),
        // an opaque assertion goes
        (
            b"(declare-const x String)(declare-const n Int)(assert (! (= n (str.to_code x)) :named o))(assert (! (= x \"a\") :named a))(assert (! (= x \"b\") :named b))(check-sat)(get-unsat-core)",
            Status::Answered,
            b"unsat\n(a b)\n",
        ),
        // names that stay with `unknown`, for what is left has an opaque assertion
        (
            b"(declare-const x String)(declare-const n Int)(assert (! (= x \"a\") :named a))(assert (! (= x \"b\") :named b))(assert (! (= n (str.to_code x)) :named o))(check-sat)(get-unsat-core)",
            Status::Answered,
            b"unsat\n(a b)\n",
        ),
        // nothing has a name
        (
            b"(assert false)(check-sat)(get-unsat-core)(reset-assertions)(get-unsat-core)",
            Status::ErrorAnswered,
            b"unsat\n()\n(error \"no core\")\n",
        ),
    ] {
        answer_of(&rt, alloc, script, status, taken)?;
    }
    Ok(())
}

#[test]
fn names_are_checked(rt: HostRuntime) -> Result<(), Fail> {
    let alloc = rt.alloc();
    for (script, status, taken) in [
        (
            b"(declare-const p Bool)(assert (! p :named p))(assert (! p :named))(assert (! p :named a :named b))(assert (! p :named 1))(assert (! p :named not))(assert (! b :named b))".as_slice(),
            Status::ErrorAnswered,
            b"(error \"declared\")\n(error \"shape\")\n(error \"shape\")\n(error \"shape\")\n(error \"reserved\")\n(error \"unknown symbol\")\n".as_slice(),
        ),
        // within a term, and beside other attributes, a name is read and ignored
        (
            b"(declare-const p Bool)(assert (not (! p :named a)))(assert (! p :note \"x\" :named c))(check-sat)(get-unsat-core)(get-value (a))",
            Status::ErrorAnswered,
            b"unsat\n(c)\n(error \"unknown symbol\")\n",
        ),
    ] {
        answer_of(&rt, alloc, script, status, taken)?;
    }
    Ok(())
}

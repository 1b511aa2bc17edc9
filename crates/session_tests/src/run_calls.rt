//! The program over bytes in memory, where calls of the source and the sink fail in turn.
ghost use Rattle.std.specs.Prelude.{◌≤◌};

use smt_session::{ProgramRun, Status, run};
use std::alloc::Global;
use std::process::{Abort, ExitCode};
use std::test::Fail;
use std::thread::Threads;
use sv_io::{MemSink, MemSource, ProgramArguments};

// A run without words over bytes in memory, where chosen calls fail.
fn run_over<R: Abort + Threads + Sync>(
    rt: &R,
    alloc: Global,
    script: &[u8],
    piece: usize,
    fails: (&[u64], &[u64]),
    status: Status,
    taken: &[u8],
) -> Result<ProgramRun, Fail>
    requires { 1 ≤ piece }
{
    let words = ProgramArguments::new(alloc);
    let mut source = MemSource::new(None, script.to_vec(alloc)?, fails.0.to_vec(alloc)?, piece);
    let mut sink = MemSink::new(alloc, fails.1.to_vec(alloc)?, piece);
    let outcome = run(rt, alloc, &words, &mut source, &mut sink);
    assert!(rt; outcome.status == status);
    assert!(rt; sink.contents() == taken);
    Ok(outcome)
}

// The same script over sources that give a byte, two, three, and all of it a read.
fn answer_of<R: Abort + Threads + Sync>(
    rt: &R,
    alloc: Global,
    script: &[u8],
    status: Status,
    taken: &[u8],
) -> Result<(), Fail> {
    for piece in [1, 2, 3, 4096] {
        run_over(rt, alloc, script, piece, (&[], &[]), status, taken)?;
    }
    Ok(())
}

#[test]
fn scripts_are_answered(rt: HostRuntime) -> Result<(), Fail> {
    let alloc = rt.alloc();
    for (script, status, taken) in [
        (b"".as_slice(), Status::Answered, b"".as_slice()),
        (
            b"(declare-const x String)(assert (str.in_re x (re.+ (re.range \"a\" \"c\"))))(check-sat)",
            Status::Answered,
            b"sat\n",
        ),
        (
            b"(pop 1)(check-sat)",
            Status::ErrorAnswered,
            b"(error \"no such level\")\nsat\n",
        ),
        (
            b"(push 2)(declare-const x Int)(pop 1)(assert (= x 1))(check-sat)(get-model)",
            Status::ErrorAnswered,
            b"(error \"unknown symbol\")\nsat\n(\n)\n",
        ),
        (
            b"(set-option :print-success true)(set-info :status sat)(set-logic QF_S)(echo \"a\"\"b\")(frobnicate)(exit)(check-sat)",
            Status::Answered,
            b"success\nsuccess\nsuccess\n\"a\"\"b\"\nunsupported\nsuccess\n",
        ),
        (
            b"(push 65535)(push 1)(get-info :assertion-stack-levels)",
            Status::ErrorAnswered,
            b"(error \"levels\")\n(:assertion-stack-levels 65535)\n",
        ),
        (
            b"(declare-const x String)(assert (str.in_re x ((_ re.^ 65536) re.allchar)))",
            Status::ErrorAnswered,
            b"(error \"index\")\n",
        ),
        (
            b"(declare-const x String)(check-sat)(assert (not (= x \"\")))(get-model)",
            Status::ErrorAnswered,
            b"sat\n(error \"no model\")\n",
        ),
    ] {
        answer_of(&rt, alloc, script, status, taken)?;
    }
    Ok(())
}

// Scripts whose verdicts are known.
#[test]
fn verdicts_are_those_that_are_known(rt: HostRuntime) -> Result<(), Fail> {
    let alloc = rt.alloc();
    for (script, status, taken) in [
        (
            b"(declare-const x String)(assert (= x \"a\"\"b\\u{10}\"))(check-sat)(get-value (x))".as_slice(),
            Status::Answered,
            b"sat\n((x \"a\"\"b\\u{10}\"))\n".as_slice(),
        ),
        (
            b"(declare-const x String)(declare-const y String)(assert (= x (str.replace \"a\" \"\" \"b\")))(assert (= y (str.replace_all \"a\" \"\" \"b\")))(check-sat)(get-value (x y))".as_slice(),
            Status::Answered,
            b"sat\n((x \"ba\") (y \"a\"))\n".as_slice(),
        ),
        (
            b"(declare-const x String)(assert (= x (str.replace_all \"aaa\" \"aa\" \"b\")))(check-sat)(get-model)".as_slice(),
            Status::Answered,
            b"sat\n(\n  (define-fun x () String \"ba\")\n)\n".as_slice(),
        ),
        (
            b"(declare-const x String)(declare-const n Int)(assert (str.in_re x (re.* (str.to_re \"aa\"))))(assert (= (str.len x) (+ (* 2 n) 1)))(check-sat)".as_slice(),
            Status::Answered,
            b"unsat\n".as_slice(),
        ),
        (
            b"(declare-const x String)(assert (str.in_re x (re.union (str.to_re \"a\") (re.++ (str.to_re \"bb\") (re.* (str.to_re \"ccc\"))))))(assert (= (str.len x) 4))(check-sat)".as_slice(),
            Status::Answered,
            b"unsat\n".as_slice(),
        ),
        (
            b"(declare-const x String)(declare-const y String)(assert (= x (str.++ y y)))(push)(assert (= (str.len x) 3))(check-sat)(pop)(assert (= x \"abab\"))(check-sat)(get-value (y))".as_slice(),
            Status::Answered,
            b"unsat\nsat\n((y \"ab\"))\n".as_slice(),
        ),
        (
            b"(define-transducer T (q) q ((q \"a\" \"a\" (\"0\") q) (q \"a\" \"a\" (\"1\") q)) ((q ())))(declare-const x String)(declare-const y String)(assert (T y x))(assert (str.in_re x (str.to_re \"0\")))(push)(assert (str.in_re x (str.to_re \"1\")))(check-sat)(pop)(check-sat)(get-value (y x))".as_slice(),
            Status::Answered,
            b"unsat\nsat\n((y \"a\") (x \"0\"))\n".as_slice(),
        ),
        (
            b"(declare-const x String)(assert (= x (str.++ x \"a\")))(check-sat)(get-info :reason-unknown)".as_slice(),
            Status::Answered,
            b"unknown\n(:reason-unknown (cube 0 fragment))\n".as_slice(),
        ),
        (
            b"(define-transducer C (q) q ((q \"a\" \"y\" ((in 1)) q)) ((q ())))(declare-const x String)(declare-const y String)(assert (C y x))(assert (= x \"bcd\"))(check-sat)(get-value (y))".as_slice(),
            Status::Answered,
            b"sat\n((y \"abc\"))\n".as_slice(),
        ),
        (
            b"(define-transducer C (q) q ((q \"a\" \"z\" ((in 196607)) q)) ((q ())))(declare-const x String)(declare-const y String)(assert (C y x))(assert (not (= y \"\")))(check-sat)".as_slice(),
            Status::Answered,
            b"unsat\n".as_slice(),
        ),
        (
            b"(define-transducer C (q) q ((q \"a\" \"a\" ((in (- 97))) q)) ((q ())))(declare-const x String)(declare-const y String)(assert (C y x))(assert (= y \"a\"))(check-sat)(get-value (x))".as_slice(),
            Status::Answered,
            b"sat\n((x \"\\u{0}\"))\n".as_slice(),
        ),
        (
            b"(declare-const x String)(assert (str.in_re x ((_ re.^ 32768) re.allchar)))(check-sat)(get-value ((str.len x)))".as_slice(),
            Status::Answered,
            b"sat\n(((str.len x) 32768))\n".as_slice(),
        ),
        (
            b"(define-fun b () RegLan (re.union (str.to_re \"a\") (str.to_re \"b\")))(define-fun r () RegLan (re.++ (re.* b) (str.to_re \"a\") ((_ re.^ 20) b)))(declare-const x String)(assert (not (str.in_re x r)))(push)(assert (= x \"ab\"))(check-sat)(pop)(assert (= x \"abbbbbbbbbbbbbbbbbbbb\"))(check-sat)".as_slice(),
            Status::Answered,
            b"sat\nunsat\n".as_slice(),
        ),
        (
            b"(declare-const x String)(push)(assert (str.in_re x (re.comp (re.* re.allchar))))(check-sat)(pop)(assert (str.in_re x ((_ re.^ 3) (str.to_re \"ab\"))))(check-sat)(get-value (x))".as_slice(),
            Status::Answered,
            b"unsat\nsat\n((x \"ababab\"))\n".as_slice(),
        ),
        (
            b"(declare-const n Int)(assert (<= n n))(check-sat)(get-value (n))".as_slice(),
            Status::Answered,
            b"sat\n((n 0))\n".as_slice(),
        ),
        (
            b"(declare-const x String)(declare-const y String)(assert (str.< x y))(check-sat)(assert (str.in_re x re.none))(check-sat)".as_slice(),
            Status::Answered,
            b"unknown\nunsat\n".as_slice(),
        ),
        (
            b"(declare-const n Int)(assert (= n 170141183460469231731687303715884105728))(push)(assert (= n 170141183460469231731687303715884105727))(check-sat)(get-value (n))(pop)(assert (= n (+ 170141183460469231731687303715884105727 170141183460469231731687303715884105727)))(check-sat)(get-info :reason-unknown)".as_slice(),
            Status::ErrorAnswered,
            b"(error \"number\")\nsat\n((n 170141183460469231731687303715884105727))\nunknown\n(:reason-unknown number-form)\n".as_slice(),
        ),
        (
            b"(declare-const x String)(push)(assert (= (str.len x) 4194303))(check-sat)(get-value ((str.len x)))(pop)(assert (= (str.len x) 4194304))(check-sat)(get-info :reason-unknown)".as_slice(),
            Status::Answered,
            b"sat\n(((str.len x) 4194303))\nunknown\n(:reason-unknown (cube 0 length))\n".as_slice(),
        ),
        (
            b"(declare-const x String)(declare-const y String)(declare-const n Int)(assert (<= (str.len x) 20))(assert (<= (str.len y) 20))(assert (<= 0 n 8))(assert (= (+ (str.len x) (str.len y)) (+ 41 n)))(check-sat)".as_slice(),
            Status::Answered,
            b"unsat\n".as_slice(),
        ),
        (
            b"(declare-const host String)(declare-const page String)(declare-const input String)(assert (str.in_re host (re.+ (re.union (re.range \"a\" \"z\") (str.to_re \".\")))))(assert (str.contains page \"<script\"))(push)(assert (= page (str.++ \"http://\" host \"/?q=\" (str.replace_all input \"<\" \"&lt;\"))))(check-sat)(pop)(assert (= page (str.++ \"http://\" host \"/?q=\" input)))(check-sat)(get-value ((str.contains page \"<script\")))".as_slice(),
            Status::Answered,
            b"unsat\nsat\n(((str.contains page \"<script\") true))\n".as_slice(),
        ),
        (
            b"(declare-const x String)(push)(assert (str.in_re x (re.comp (re.* re.allchar))))(check-sat)(pop)(assert (= x \"\\u{2FFFF}\"))(assert (str.in_re x re.allchar))(check-sat)(get-value (x))".as_slice(),
            Status::Answered,
            b"unsat\nsat\n((x \"\\u{2ffff}\"))\n".as_slice(),
        ),
        (
            b"(declare-const n Int)(declare-const x String)(assert (= n (- 5)))(assert (not (= x \"\")))(assert (not (str.contains x \"a\")))(assert (<= (str.len x) 1))(check-sat)(get-value (n (str.len x)))".as_slice(),
            Status::Answered,
            b"sat\n((n (- 5)) ((str.len x) 1))\n".as_slice(),
        ),
        (
            b"(declare-const x String)(declare-const y String)(assert (= x (str.replace_all y \"aaaa\" \"b\")))(assert (= y \"aaab\"))(assert (= (str.len x) 4))(check-sat)".as_slice(),
            Status::Answered,
            b"sat\n".as_slice(),
        ),
        (
            b"(declare-const m Int)(declare-const n Int)(assert (= m 170141183460469231731687303715884105727))(assert (= n (+ m 1)))(check-sat)(get-info :reason-unknown)".as_slice(),
            Status::Answered,
            b"unknown\n(:reason-unknown (cube 0 number-row))\n".as_slice(),
        ),
        (
            b"(declare-const x String)(declare-const y String)(assert (= x (str.++ y \"b\")))(assert (= x \"b\"))(check-sat)(get-value (y))".as_slice(),
            Status::Answered,
            b"sat\n((y \"\"))\n".as_slice(),
        ),
        (
            b"(declare-const n Int)(declare-const m Int)(assert (= (* 2 n) (+ (* 2 m) 1)))(check-sat)".as_slice(),
            Status::Answered,
            b"unsat\n".as_slice(),
        ),
        (
            b"(declare-const n Int)(declare-const m Int)(assert (< (* 3 n) (* 2 m)))(assert (< (* 2 m) (+ (* 3 n) 1)))(check-sat)".as_slice(),
            Status::Answered,
            b"unsat\n".as_slice(),
        ),
        (
            b"(declare-const n Int)(declare-const m Int)(assert (<= 0 n 64))(assert (<= 0 m 64))(assert (<= 1 (- (* 2 n) (* 2 m)) 1))(check-sat)".as_slice(),
            Status::Answered,
            b"unsat\n".as_slice(),
        ),
        (
            b"(declare-const n Int)(assert (= (- n 1) 170141183460469231731687303715884105727))(check-sat)(get-info :reason-unknown)".as_slice(),
            Status::Answered,
            b"unknown\n(:reason-unknown number-form)\n".as_slice(),
        ),
        (
            b"(declare-const x String)(assert (not (str.in_re x (re.++ re.all (str.to_re \"javascript:alert(1)\") re.all))))(assert (= (str.len x) 2))(check-sat)(get-value ((str.len x) (str.contains x \"javascript:alert(1)\")))".as_slice(),
            Status::Answered,
            b"sat\n(((str.len x) 2) ((str.contains x \"javascript:alert(1)\") false))\n".as_slice(),
        ),
    ] {
        answer_of(&rt, alloc, script, status, taken)?;
    }
    Ok(())
}

// Literals and syntax, with bytes that no text holds.
const READ: [(&[u8], Status, &[u8]); 45] = [
    (
        b"(assert (",
        Status::ErrorAnswered,
        b"(error \"incomplete\")\n",
    ),
    (
        b"(check-sat))(check-sat)",
        Status::ErrorAnswered,
        b"sat\n(error \"syntax close at 11\")\n",
    ),
    (
        b"(echo \"a\") x",
        Status::ErrorAnswered,
        b"\"a\"\n(error \"shape\")\n",
    ),
    // literals past ASCII and with control bytes
    (
        b"(check-sat)(get-value (\"\0\t\n\x7f\"))(get-value (\"\xc2\x80\xdf\xbf\"))(get-value (\"\xe0\xa0\x80\xed\x9f\xbf\xee\x80\x80\xef\xbf\xbf\"))(get-value (\"\xf0\x90\x80\x80\xf0\xaf\xbf\xbf\"))(get-value (\"caf\xc3\xa9 \xe2\x82\xac \xf0\x9f\x98\x80\"))(get-value (\"\\u\xc3\xa9 ~\"))",
        Status::Answered,
        b"sat\n((\"\0\t\n\x7f\" \"\\u{0}\\u{9}\\u{a}\\u{7f}\"))\n((\"\xc2\x80\xdf\xbf\" \"\\u{80}\\u{7ff}\"))\n((\"\xe0\xa0\x80\xed\x9f\xbf\xee\x80\x80\xef\xbf\xbf\" \"\\u{800}\\u{d7ff}\\u{e000}\\u{ffff}\"))\n((\"\xf0\x90\x80\x80\xf0\xaf\xbf\xbf\" \"\\u{10000}\\u{2ffff}\"))\n((\"caf\xc3\xa9 \xe2\x82\xac \xf0\x9f\x98\x80\" \"caf\\u{e9} \\u{20ac} \\u{1f600}\"))\n((\"\\u\xc3\xa9 ~\" \"\\u{5c}u\\u{e9} ~\"))\n",
    ),
    // syntax
    (b" \t\r\n", Status::Answered, b""),
    (
        b"a 0 1.50 #xFf #b01 |q q| :k \"l\"",
        Status::ErrorAnswered,
        b"(error \"shape\")\n(error \"shape\")\n(error \"shape\")\n(error \"shape\")\n(error \"shape\")\n(error \"shape\")\n(error \"shape\")\n(error \"shape\")\n",
    ),
    (b"(a (b) ())", Status::Answered, b"unsupported\n"),
    (
        b"(push 1)(pop 01)",
        Status::ErrorAnswered,
        b"(error \"syntax token at 13\")\n",
    ),
    (
        b"x#1",
        Status::ErrorAnswered,
        b"(error \"syntax token at 0\")\n",
    ),
    (
        b"1a",
        Status::ErrorAnswered,
        b"(error \"syntax token at 0\")\n",
    ),
    (
        b"1. ",
        Status::ErrorAnswered,
        b"(error \"syntax token at 0\")\n",
    ),
    (
        b"00.1",
        Status::ErrorAnswered,
        b"(error \"syntax token at 0\")\n",
    ),
    (
        b".5 -1 +",
        Status::ErrorAnswered,
        b"(error \"shape\")\n(error \"shape\")\n(error \"shape\")\n",
    ),
    (
        b"a #x",
        Status::ErrorAnswered,
        b"(error \"shape\")\n(error \"syntax token at 2\")\n",
    ),
    (
        b"#X1",
        Status::ErrorAnswered,
        b"(error \"syntax token at 0\")\n",
    ),
    (
        b"#b2",
        Status::ErrorAnswered,
        b"(error \"syntax token at 0\")\n",
    ),
    (
        b":",
        Status::ErrorAnswered,
        b"(error \"syntax token at 0\")\n",
    ),
    (
        b":1",
        Status::ErrorAnswered,
        b"(error \"syntax token at 0\")\n",
    ),
    (
        b"a:b",
        Status::ErrorAnswered,
        b"(error \"syntax token at 0\")\n",
    ),
    (
        b"|a\\",
        Status::ErrorAnswered,
        b"(error \"syntax token at 0\")\n",
    ),
    (
        b"(|a| |b\\c| ))",
        Status::ErrorAnswered,
        b"(error \"syntax token at 5\")\n",
    ),
    (
        b"|a|b|c|",
        Status::ErrorAnswered,
        b"(error \"shape\")\n(error \"shape\")\n(error \"shape\")\n",
    ),
    (b"|a", Status::ErrorAnswered, b"(error \"incomplete\")\n"),
    (
        b"ab\"c\"\"d\"e;f",
        Status::ErrorAnswered,
        b"(error \"shape\")\n(error \"shape\")\n(error \"shape\")\n",
    ),
    (b"\"\"", Status::ErrorAnswered, b"(error \"shape\")\n"),
    (
        b"\"a\"\"",
        Status::ErrorAnswered,
        b"(error \"incomplete\")\n",
    ),
    (b"\"a\"\"\"", Status::ErrorAnswered, b"(error \"shape\")\n"),
    (
        b"a;b\rc;d\ne;f",
        Status::ErrorAnswered,
        b"(error \"shape\")\n(error \"shape\")\n(error \"shape\")\n",
    ),
    (
        b"(a ; )",
        Status::ErrorAnswered,
        b"(error \"incomplete\")\n",
    ),
    (b"(a ; )\n)", Status::Answered, b"unsupported\n"),
    (
        b"a\x0b",
        Status::ErrorAnswered,
        b"(error \"syntax token at 0\")\n",
    ),
    (
        b"({",
        Status::ErrorAnswered,
        b"(error \"syntax token at 1\")\n",
    ),
    (
        b";\0\x80\xff\nx",
        Status::ErrorAnswered,
        b"(error \"shape\")\n",
    ),
    (
        b"|\0\x80\xff|",
        Status::ErrorAnswered,
        b"(error \"shape\")\n",
    ),
    (b"\"\0\"", Status::ErrorAnswered, b"(error \"shape\")\n"),
    (
        b"(\"\xf0\xb0\x80\x80\")",
        Status::ErrorAnswered,
        b"(error \"syntax literal at 1\")\n",
    ),
    (
        b"x \"\xff\"",
        Status::ErrorAnswered,
        b"(error \"shape\")\n(error \"syntax literal at 2\")\n",
    ),
    (
        b"x \"\xff",
        Status::ErrorAnswered,
        b"(error \"shape\")\n(error \"incomplete\")\n",
    ),
    (
        b"a\0",
        Status::ErrorAnswered,
        b"(error \"syntax token at 0\")\n",
    ),
    (
        b" a\x80",
        Status::ErrorAnswered,
        b"(error \"syntax token at 1\")\n",
    ),
    (
        b"1\0",
        Status::ErrorAnswered,
        b"(error \"syntax token at 0\")\n",
    ),
    (
        b"1.0\x80",
        Status::ErrorAnswered,
        b"(error \"syntax token at 0\")\n",
    ),
    (
        b"#x1\0",
        Status::ErrorAnswered,
        b"(error \"syntax token at 0\")\n",
    ),
    (
        b":a\xff",
        Status::ErrorAnswered,
        b"(error \"syntax token at 0\")\n",
    ),
    (
        b"(declare-const |a;\"(\r\n \x80| Int)(check-sat)(get-value ((+ |a;\"(\r\n \x80|\t1) (- |a;\"(\r\n \x80|;\"\n2)))",
        Status::Answered,
        b"sat\n(((+ |a;\"(\r\n \x80| 1) 1) ((- |a;\"(\r\n \x80| 2) (- 2)))\n",
    ),
];

#[test]
fn bytes_are_read_as_they_are(rt: HostRuntime) -> Result<(), Fail> {
    for (script, status, taken) in READ.as_slice() {
        answer_of(&rt, rt.alloc(), script, *status, taken)?;
    }
    Ok(())
}

// Names of assertions, and assumptions, with the fault of each that isn't taken.
const NAMED: [(&[u8], Status, &[u8]); 8] = [
    (
        b"(declare-const p Bool)(assert (! p :named a))(assert (! p :named a))(assert (! q :named a))(assert (! q :named p))(assert (! q :named and))(assert (! q :named let))(check-sat)(get-value (a))",
        Status::ErrorAnswered,
        b"(error \"declared\")\n(error \"declared\")\n(error \"declared\")\n(error \"reserved\")\n(error \"reserved\")\nsat\n((a true))\n",
    ),
    (
        b"(declare-const p Bool)(assert (! p :named))(assert (! p :named \"a\"))(assert (! p :named :named))(assert (! p :named a :named b))(assert (! p :named a :named))(assert (!))(assert (! p :named a) p)(assert (! q :named))(get-value (a))",
        Status::ErrorAnswered,
        b"(error \"shape\")\n(error \"shape\")\n(error \"shape\")\n(error \"shape\")\n(error \"shape\")\n(error \"shape\")\n(error \"shape\")\n(error \"shape\")\n(error \"unknown symbol\")\n",
    ),
    (
        b"(declare-const n Int)(assert (! a :named a))(assert (! n :named a))(assert (! (+ n n) :named a))(assert (! (= n a) :named |a|))(declare-const a Int)(assert (! (= n a) :named a))",
        Status::ErrorAnswered,
        b"(error \"unknown symbol\")\n(error \"sort\")\n(error \"sort\")\n(error \"unknown symbol\")\n(error \"declared\")\n",
    ),
    (
        b"(declare-const p Bool)(assert (! p :weight 1 :named a :pattern (p)))(assert (! (! a :named b) :note c))(assert b)(assert (and (! p :named c) a))(assert c)(assert (! p))(check-sat)",
        Status::ErrorAnswered,
        b"(error \"unknown symbol\")\n(error \"unknown symbol\")\nsat\n",
    ),
    (
        b"(declare-const p Bool)(push)(assert (! p :named a))(pop)(assert a)(assert (! (not p) :named a))(check-sat)(get-value (a p))",
        Status::ErrorAnswered,
        b"(error \"unknown symbol\")\nsat\n((a true) (p false))\n",
    ),
    (
        b"(check-sat-assuming)(check-sat-assuming p)(check-sat-assuming (p) (p))(check-sat-assuming ((and p p)))(check-sat-assuming ((not (not p))))(check-sat-assuming ((not p p)))(check-sat-assuming ((not)))(check-sat-assuming (1))(check-sat-assuming (\"a\"))(check-sat-assuming (p (and)))(get-unsat-core p)",
        Status::ErrorAnswered,
        b"(error \"shape\")\n(error \"shape\")\n(error \"shape\")\n(error \"shape\")\n(error \"shape\")\n(error \"shape\")\n(error \"shape\")\n(error \"shape\")\n(error \"shape\")\n(error \"shape\")\n(error \"shape\")\n",
    ),
    (
        b"(declare-const p Bool)(declare-const n Int)(define-fun k () Int 1)(define-fun f ((b Bool)) Bool b)(check-sat-assuming (q))(check-sat-assuming ((not q)))(check-sat-assuming (n))(check-sat-assuming ((not n)))(check-sat-assuming (k))(check-sat-assuming (f))(check-sat-assuming ((not f)))(check-sat-assuming (and))(check-sat-assuming (n q))(check-sat-assuming (n f))",
        Status::ErrorAnswered,
        b"(error \"unknown symbol\")\n(error \"unknown symbol\")\n(error \"sort\")\n(error \"sort\")\n(error \"sort\")\n(error \"arity\")\n(error \"arity\")\n(error \"arity\")\n(error \"unknown symbol\")\n(error \"arity\")\n",
    ),
    (
        b"(declare-const p Bool)(define-fun m () Bool (not p))(check-sat-assuming (p m))(check-sat-assuming ((not p) m))(check-sat-assuming ())(check-sat-assuming (true (not false)))(check-sat-assuming (|p| (|not| m)))",
        Status::Answered,
        b"unsat\nsat\nsat\nsat\nsat\n",
    ),
];

#[test]
fn names_and_assumptions_are_checked(rt: HostRuntime) -> Result<(), Fail> {
    for (script, status, taken) in NAMED.as_slice() {
        answer_of(&rt, rt.alloc(), script, *status, taken)?;
    }
    Ok(())
}

// A number in decimal digits.
fn push_number(alloc: Global, script: &mut Vec<u8>, number: u32) -> Result<(), Fail> {
    let digits = format!(in alloc; "{number}")?;
    script.extend_from_slice(digits.as_bytes())?;
    Ok(())
}

// The text, in which `#` stands for the number and `@` for the next one.
fn push_numbered(alloc: Global, script: &mut Vec<u8>, text: &str, number: u32) -> Result<(), Fail> {
    for &byte in text.as_bytes() {
        match byte {
            b'#' => push_number(alloc, script, number)?,
            b'@' => push_number(alloc, script, number.saturating_add(1))?,
            _ => script.push(byte)?,
        }
    }
    Ok(())
}

// Each text so many times, with the numbers from 0 on.
fn script_of(alloc: Global, parts: &[(&str, u32)]) -> Result<Vec<u8>, Fail> {
    let mut script = Vec::new(alloc);
    for &(text, count) in parts {
        for number in 0..count {
            push_numbered(alloc, &mut script, text, number)?;
        }
    }
    Ok(script)
}

#[test]
fn limits_are_told(rt: HostRuntime) -> Result<(), Fail> {
    let alloc = rt.alloc();
    let either = "(declare-const p# Bool)(declare-const q# Bool)(assert (or p# q#))";
    let bound = "(declare-const a0 Bool)(assert ";
    let pair = "(let ((a@ (and a# a#))) ";
    let why = ("(check-sat)(get-info :reason-unknown)", 1);
    for (parts, status, taken) in [
        (
            [("(", 1000)].as_slice(),
            Status::ErrorAnswered,
            b"(error \"incomplete\")\n".as_slice(),
        ),
        (
            &[("(", 1001)],
            Status::ErrorAnswered,
            b"(error \"syntax depth at 1000\")\n",
        ),
        (
            &[(bound, 1), (pair, 19), ("a19", 1), (")", 20)],
            Status::Answered,
            b"",
        ),
        (
            &[(bound, 1), (pair, 20), ("a20", 1), (")", 21)],
            Status::ErrorAnswered,
            b"(error \"size\")\n",
        ),
        (
            &[("(", 1000), (")", 1000)],
            Status::ErrorAnswered,
            b"(error \"shape\")\n",
        ),
        (
            &[(bound, 1), (pair, 19), ("(not a19)", 1), (")", 20)],
            Status::Answered,
            b"",
        ),
        (
            &[(bound, 1), (pair, 19), ("(not (not a19))", 1), (")", 20)],
            Status::ErrorAnswered,
            b"(error \"size\")\n",
        ),
        (
            &[(bound, 1), (pair, 900), ("a0", 1), (")", 901)],
            Status::ErrorAnswered,
            b"(error \"size\")\n",
        ),
        (
            &[
                ("(declare-const p Bool)(assert (let ((a ", 1),
                ("(not ", 500),
                ("p", 1),
                (")", 500),
                (")) ", 1),
                ("(not ", 500),
                ("a", 1),
                (")", 502),
            ],
            Status::Answered,
            b"",
        ),
        (
            &[
                ("(declare-const p Bool)(assert (let ((a ", 1),
                ("(not ", 500),
                ("p", 1),
                (")", 500),
                (")) ", 1),
                ("(not ", 501),
                ("a", 1),
                (")", 503),
            ],
            Status::ErrorAnswered,
            b"(error \"size\")\n",
        ),
        (
            &[
                ("(define-transducer T (q) q (", 1),
                ("(q \"a\" \"a\" () q)", 4096),
                (") (", 1),
                ("(q ())", 4096),
                ("))", 1),
            ],
            Status::Answered,
            b"",
        ),
        (
            &[
                ("(define-transducer T (q) q (", 1),
                ("(q \"a\" \"a\" () q)", 4097),
                (") ((q ())))", 1),
            ],
            Status::ErrorAnswered,
            b"(error \"transducer\")\n",
        ),
        (
            &[
                ("(define-transducer T (q) q () (", 1),
                ("(q ())", 4097),
                ("))", 1),
            ],
            Status::ErrorAnswered,
            b"(error \"transducer\")\n",
        ),
        (
            &[
                (
                    "(define-fun same ((x String)) String x)(assert (= \"a\" (let ((a0 \"a\")) ",
                    1,
                ),
                ("(let ((a@ (same (same (same a#))))) ", 900),
                ("a900", 1),
                (")", 903),
                ("(check-sat)", 1),
            ],
            Status::Answered,
            b"sat\n",
        ),
        (
            &[(either, 20), ("(check-sat)", 1)],
            Status::Answered,
            b"sat\n",
        ),
        (
            &[(either, 21), why],
            Status::Answered,
            b"unknown\n(:reason-unknown cubes)\n",
        ),
        (
            &[
                ("(declare-const x# String)(assert (<= (str.len x#) 1))", 65),
                why,
            ],
            Status::Answered,
            b"unknown\n(:reason-unknown (cube 0 wide))\n",
        ),
        (
            &[
                (
                    "(declare-const n Int)(declare-const m Int)(assert (<= 1 (+ (* 2 n) (* 2 m)) 1))",
                    1,
                ),
                why,
            ],
            Status::Answered,
            b"unknown\n(:reason-unknown (cube 0 branches))\n",
        ),
        (
            &[
                ("(declare-const y0 String)(assert (= y0 \"a\"))", 1),
                (
                    "(declare-const y@ String)(assert (= y@ (str.++ y# y#)))",
                    40,
                ),
                why,
            ],
            Status::Answered,
            b"unknown\n(:reason-unknown (cube 0 length))\n",
        ),
        (
            &[
                ("(declare-const y0 String)(assert (<= (str.len y0) 5))", 1),
                (
                    "(declare-const y@ String)(assert (= y@ (str.++ y# y#)))",
                    40,
                ),
                ("(assert (str.in_re y40 (re.+ (str.to_re \"aa\"))))", 1),
                why,
            ],
            Status::Answered,
            b"unknown\n(:reason-unknown (cube 0 length))\n",
        ),
        (
            &[
                (
                    "(declare-const x String)(assert (str.in_re x ((_ re.^ 600) ((_ re.^ 500) re.allchar))))",
                    1,
                ),
                why,
            ],
            Status::Answered,
            b"unknown\n(:reason-unknown (cube 0 states))\n",
        ),
    ] {
        let script = script_of(alloc, parts)?;
        run_over(&rt, alloc, &script, 4096, (&[], &[]), status, taken)?;
    }
    Ok(())
}

#[test]
fn faults_are_told(rt: HostRuntime) -> Result<(), Fail> {
    let alloc = rt.alloc();
    // the read behind the last byte: call 0 opens
    for (piece, call) in [(1, 27), (3, 10), (4096, 2)] {
        run_over(
            &rt,
            alloc,
            b"(check-sat)(check-sat)(che",
            piece,
            (&[call], &[]),
            Status::ReadFailed,
            b"sat\nsat\n",
        )?;
    }
    Ok(())
}

#[test]
fn each_status_has_its_exit_code(rt: HostRuntime) {
    for (status, code) in [
        (Status::Answered, 0),
        (Status::ErrorAnswered, 1),
        (Status::WrongWords, 2),
        (Status::ReadFailed, 3),
        (Status::WriteFailed, 4),
        (Status::NoMemory, 5),
    ] {
        assert!(rt; status.exit_code() == ExitCode::from(code));
    }
}

// Each call of the source and the sink in turn. Call 0 of the source opens it; those of the sink are a write and a
// flush in turn.
#[test]
fn each_call_may_fail(rt: HostRuntime) -> Result<(), Fail> {
    let alloc = rt.alloc();
    let script = b"(echo \"a\")(check-sat)(echo \"b\")";
    for (call, taken) in [
        (0, b"".as_slice()),
        (1, b""),
        (2, b""),
        (3, b"\"a\"\n"),
        (4, b"\"a\"\nsat\n"),
        (5, b"\"a\"\nsat\n\"b\"\n"),
    ] {
        run_over(
            &rt,
            alloc,
            script,
            8,
            (&[call], &[]),
            Status::ReadFailed,
            taken,
        )?;
    }
    // each reply is flushed before the next one, where a piece ends no item or one, and where it ends all
    for piece in [8, 4096] {
        for (call, taken) in [
            (0, b"".as_slice()),
            (1, b"\"a\"\n"),
            (2, b"\"a\"\n"),
            (3, b"\"a\"\nsat\n"),
            (4, b"\"a\"\nsat\n"),
            (5, b"\"a\"\nsat\n\"b\"\n"),
        ] {
            run_over(
                &rt,
                alloc,
                script,
                piece,
                (&[], &[call]),
                Status::WriteFailed,
                taken,
            )?;
        }
    }
    Ok(())
}

// A run with these words over a source that has this name and gives this script.
fn run_with<R: Abort + Threads + Sync>(
    rt: &R,
    alloc: Global,
    name: Option<&str>,
    script: &[u8],
    given: &[&str],
    status: Status,
    taken: &[u8],
) -> Result<(), Fail> {
    let mut words = ProgramArguments::new(alloc);
    for word in given {
        words.push(alloc, word)?;
    }
    let name = match name {
        Some(name) => Some(String::from_str(alloc, name)?),
        None => None,
    };
    let mut source = MemSource::new(name, script.to_vec(alloc)?, Vec::new(alloc), 4096);
    let mut sink = MemSink::new(alloc, Vec::new(alloc), 4096);
    let outcome = run(rt, alloc, &words, &mut source, &mut sink);
    assert!(rt; outcome.status == status);
    assert!(rt; sink.contents() == taken);
    Ok(())
}

#[test]
fn the_words_are_followed(rt: HostRuntime) -> Result<(), Fail> {
    let alloc = rt.alloc();
    let usage =
        b"(error \"usage: strsolve [--workers N] [FILE] | strsolve [--workers N] --generate SEED --size N\")\n";
    let echo = b"(echo \"a\")".as_slice();
    let eight =
        b"(declare-const x String)(assert (or (= x \"a\") (= x \"b\") (= x \"c\") (= x \"d\") (= x \"e\") (= x \"f\") (= x \"g\") (= x \"h\")))(assert (str.in_re x (str.to_re \"f\")))(check-sat)(get-value (x))".as_slice();
    let f = b"sat\n((x \"f\"))\n".as_slice();
    for (name, script, words, status, taken) in [
        (
            None,
            echo,
            [].as_slice(),
            Status::Answered,
            b"\"a\"\n".as_slice(),
        ),
        (
            Some("a.smt2"),
            echo,
            &["a.smt2"],
            Status::Answered,
            b"\"a\"\n",
        ),
        (Some("a.smt2"), echo, &["b.smt2"], Status::ReadFailed, b""),
        (
            Some("a.smt2"),
            echo,
            &["--workers", "4", "a.smt2"],
            Status::Answered,
            b"\"a\"\n",
        ),
        (None, eight, &["--workers", "1"], Status::Answered, f),
        (None, eight, &["--workers", "4"], Status::Answered, f),
        (
            None,
            echo,
            &["--generate", "1", "--size", "8"],
            Status::Answered,
            b"generated 8 sat 2 unsat 6 unknown 0\n",
        ),
        (
            None,
            echo,
            &["--generate", "65536", "--size", "8"],
            Status::Answered,
            b"generated 8 sat 8 unsat 0 unknown 0\n",
        ),
        (Some("other"), echo, &["--help"], Status::WrongWords, usage),
        (Some("other"), echo, &["a", "b"], Status::WrongWords, usage),
        (
            Some("other"),
            echo,
            &["--workers", "0"],
            Status::WrongWords,
            usage,
        ),
        (
            Some("other"),
            echo,
            &["--workers", "65"],
            Status::WrongWords,
            usage,
        ),
        (
            Some("other"),
            echo,
            &["--generate", "1"],
            Status::WrongWords,
            usage,
        ),
        (
            Some("other"),
            echo,
            &["--generate", "1", "--size", "0"],
            Status::WrongWords,
            usage,
        ),
        (
            Some("other"),
            echo,
            &["--generate", "1", "--size", "8", "f"],
            Status::WrongWords,
            usage,
        ),
        (
            Some("a"),
            echo,
            &["--workers=64", "a"],
            Status::Answered,
            b"\"a\"\n",
        ),
        (
            Some("a"),
            echo,
            &["a", "--workers", "+7"],
            Status::Answered,
            b"\"a\"\n",
        ),
        (
            Some("--workers"),
            echo,
            &["--", "--workers"],
            Status::Answered,
            b"\"a\"\n",
        ),
        (
            None,
            echo,
            &[
                "--size",
                "1",
                "--workers",
                "2",
                "--generate",
                "18446744073709551615",
            ],
            Status::Answered,
            b"generated 1 sat 0 unsat 1 unknown 0\n",
        ),
        (Some("other"), echo, &["-h"], Status::WrongWords, usage),
        (
            Some("other"),
            echo,
            &["--version"],
            Status::WrongWords,
            usage,
        ),
        (
            Some("other"),
            echo,
            &["--workers"],
            Status::WrongWords,
            usage,
        ),
        (
            Some("other"),
            echo,
            &["--workers", "-1"],
            Status::WrongWords,
            usage,
        ),
        (
            Some("other"),
            echo,
            &["--workers", "1", "--workers", "1"],
            Status::WrongWords,
            usage,
        ),
        (
            Some("other"),
            echo,
            &["--workers", "18446744073709551617"],
            Status::WrongWords,
            usage,
        ),
        (
            Some("other"),
            echo,
            &["--size", "8"],
            Status::WrongWords,
            usage,
        ),
        (
            Some("other"),
            echo,
            &["--generate", "1", "--size", "100001"],
            Status::WrongWords,
            usage,
        ),
        (
            Some("other"),
            echo,
            &["--generate", "x", "--size", "8"],
            Status::WrongWords,
            usage,
        ),
        (
            Some("other"),
            echo,
            &["--other", "1"],
            Status::WrongWords,
            usage,
        ),
    ] {
        run_with(&rt, alloc, name, script, words, status, taken)?;
    }
    Ok(())
}

ghost use Rattle.std.specs.Prelude.{◌≡◌, IfOk};

use crate::{Keyed, Pool, PoolNote, PoolValue};
use std::alloc::{AllocError, Global};
use std::marker::Model;
use std::sync::atomic::{AtomicU64, Ordering};
use std::test::Fail;

// Bytes that are all its letter. What it keeps goes by recursion on the bytes, so it is the
// invariant of a model and no ghost field.
#[derive(Drop)]
struct Row {
    letter: u8,
    bytes: Vec<u8>,
}

impl Model for Row {
    ghost use Rattle.std.specs.Prelude.{◌≡◌, ℕ, List, All};

    ghost Value = { ℕ × List ℕ };

    ghost view = { λ row. (row.letter, row.bytes.items) };

    ghost invariant = { λ row. All (λ byte. byte ≡ row.letter) row.bytes.items };
}

impl Keyed<u8> for Row {
    ghost use Rattle.std.specs.Prelude.{◌≡◌, All};
    ghost use Rattle.std.proofs.lemmas.Bool.{eqb-true};

    ghost key_of = { λ row. row.0 };

    ghost Fits = { λ key row. All (λ byte. byte ≡ key) row.1 };

    fn key(&self) -> &u8 {
        &self.letter
    }

    ghost exact = { λ one other same. eqb-true one other same };
}

impl Row {
    fn new(alloc: Global, letter: u8, bytes: usize) -> Result<Box<Row>, AllocError>
        ensures { IfOk result (λ row. row.value.0 ≡ letter) }
    {
        let bytes = Vec::from_elem(alloc, letter, bytes)?;
        Ok(Box::new(alloc, Row { letter, bytes })?)
    }
}

// Each call of a builder adds one to `built`.
fn count_and_build(built: &AtomicU64, alloc: Global, letter: u8) -> Result<Box<Row>, AllocError>
    ensures { IfOk result (λ row. row.value.0 ≡ letter) }
{
    built.fetch_add(1, Ordering::SeqCst);
    Row::new(alloc, letter, 1)
}

#[test]
fn a_builder_runs_only_where_the_cell_has_no_value_of_the_key(rt: HostRuntime) -> Result<(), Fail> {
    let alloc = rt.alloc();
    let pool = Pool::<u8, Row>::new(alloc, 2)?;
    let built = AtomicU64::new(0);
    let mut note = pool.note(1);
    for (letter, is_shared, builds) in [(7, true, 1), (7, true, 1), (8, false, 2), (7, true, 2)] {
        let found = pool.get(
            1,
            &letter,
            &mut note,
            || count_and_build(&built, alloc, letter),
        )?;
        let shared = matches!(found, PoolValue::Shared(_));
        assert!(rt; shared == is_shared && built.load(Ordering::SeqCst) == builds);
    }
    Ok(())
}

fn crosses<T: Send + Sync>() {}

fn moves<T: Send>() {}

#[test]
fn threads_share_pools_and_hand_on_notes() {
    crosses::<Pool<u8, Row>>();
    crosses::<PoolValue<'static, Row>>();
    moves::<PoolNote<Row>>();
}

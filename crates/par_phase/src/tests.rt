use crate::{Gate, Job, run_jobs};
use std::sync::atomic::{AtomicBool, AtomicU64, Ordering};
use std::test::Fail;

// Holds all jobs until the third of four has arrived, for so many turns at the most.
#[derive(Drop)]
struct Meeting {
    arrived: AtomicBool,
    met: AtomicBool,
    done: AtomicU64,
}

const TURNS: u64 = 1_000_000_000;

impl Gate for Meeting {
    fn arrive(&self, job: u64) {
        if job == 2 {
            self.arrived.store(true, Ordering::SeqCst);
            return;
        }
        for _ in 0..TURNS {
            if self.arrived.load(Ordering::SeqCst) {
                self.met.store(true, Ordering::SeqCst);
                return;
            }
        }
    }
}

// Counts itself as done, and tells whether the third job had arrived by then.
#[derive(Drop)]
struct Watched<'a>(&'a Meeting);

impl Job for Watched<'_> {
    type Out = bool;

    ghost use Rattle.std.specs.Prelude.{⊤};

    ghost Yields = { λ _ _. ⊤ };

    fn work(&self) -> bool {
        self.0.done.fetch_add(1, Ordering::SeqCst);
        self.0.arrived.load(Ordering::SeqCst)
    }
}

// Each arrives before its work, by its own number, and is done once: two workers have two jobs each.
#[test]
fn jobs_of_two_workers_are_under_way_at_once(rt: HostRuntime) -> Result<(), Fail> {
    let gate = Meeting {
        arrived: AtomicBool::new(false),
        met: AtomicBool::new(false),
        done: AtomicU64::new(0),
    };
    let jobs = [
        Watched(&gate),
        Watched(&gate),
        Watched(&gate),
        Watched(&gate),
    ];
    let in_time = run_jobs(&rt, rt.alloc(), &jobs, 2, &gate)?;
    assert!(rt; in_time.as_slice() == [true; 4].as_slice());
    assert!(rt; gate.met.load(Ordering::SeqCst));
    assert!(rt; gate.done.load(Ordering::SeqCst) == 4);
    Ok(())
}

//! A line of events, each of which is certified and then committed.
use anyhow::{Result, bail};
use certification::Certification;
use order_event::Event;
use std::alloc::Global;
use std::marker::Model;
use wsrep_base::{Judged, NoMemory};

/// A node's certification, which has committed all that it has certified.
#[derive(Drop)]
pub struct Line {
    certification: Certification,
    number: u64,
}

impl Model for Line {
    ghost use Rattle.std.specs.Prelude.{ℕ};
    ghost use Rattle.bench_certify.specs.Line.{Runs};

    ghost Value = { ℕ };

    ghost view = { λ l. l.number };

    ghost invariant = { λ l. Runs l.number l.certification };
}

impl Line {
    /// Before the first event.
    pub fn new(alloc: Global) -> Result<Line, NoMemory> {
        Ok(Line {
            certification: Certification::new(alloc)?,
            number: 0,
        })
    }

    /// The number of the last event.
    pub fn number(&self) -> u64 {
        self.number
    }

    /// How many entries the index has.
    pub fn entries(&self) -> u64 {
        self.certification.entries()
    }

    /// Certifies the next event, and commits it.
    pub fn put(&mut self, event: &Event) -> Result<Judged> {
        let Some(next) = self.number.checked_add(1) else {
            bail!("there are too many events");
        };
        let told = self.certification.certify(event)?;
        self.certification.commit(next);
        self.number = next;
        Ok(told.judged)
    }
}

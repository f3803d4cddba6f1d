ghost use Rattle.std.specs.Prelude.{◌≡◌, ◌<◌, [], ◌∷◌, Some, IfSome, MatchOption};
ghost use Rattle.std.specs.List.{slice_get};
ghost use Rattle.script_text.specs.Load.{inserts, opening, closing, load_steps};
ghost use Rattle.script_text.specs.LoadPlaces.{part_steps, steps_behind, steps_left, entered};

use crate::rounds::{Generator, Round, account, asks, does};
use order_event::{Act, Step};
use row_model::{Call, Row};
use std::marker::Model;

/// The steps of a generated schedule of three nodes, in order. It takes no memory.
#[derive(Drop)]
pub struct LoadSteps {
    place: LoadPlace,
}

impl Model for LoadSteps {
    ghost use Rattle.std.specs.Prelude.{List};
    ghost use Rattle.order_event.specs.declared.step.Step.{Step};
    ghost use Rattle.script_text.specs.LoadPlaces.{steps_left};

    ghost Value = { List Step };

    ghost view = { λ steps. steps_left steps.place };
}

impl LoadSteps {
    /// The steps of so many transactions, drawn from the seed.
    pub fn new(seed: u64, count: u64) -> LoadSteps
        ensures { result ≡ load_steps seed count }
    {
        LoadSteps {
            place: LoadPlace {
                part: Part::Opening,
                given: 0,
                draws: Generator { number: seed },
                begun: 0,
                count,
            },
        }
    }

    /// The next step. None behind the last.
    pub fn next(&mut self) -> Option<Step>
        ensures { MatchOption result ((self.old ≡ []) × (self.new ≡ []))
            (λ step. self.old ≡ step ∷ self.new) }
    {
        self.place.next()
    }
}

// How far the steps were given.
#[derive(Clone, Copy, Debug)]
struct LoadPlace {
    part: Part,
    // The steps of the part that were given.
    given: u8,
    draws: Generator,
    // The rounds that have begun, and how many there are.
    begun: u64,
    count: u64,
}

#[derive(Clone, Copy, Debug)]
enum Part {
    Opening,
    Round(Round),
    Closing,
}

impl LoadPlace {
    fn next(&mut self) -> Option<Step>
        ensures { MatchOption result ((steps_left self.old ≡ []) × (steps_left self.new ≡ []))
            (λ step. steps_left self.old ≡ step ∷ steps_left self.new) }
    {
        match self.part.step(self.given) {
            Some(step) => {
                self.given += 1;
                Some(step)
            }
            None => self.turn(),
        }
    }

    // Goes to the next part, and gives its first step.
    fn turn(&mut self) -> Option<Step>
        ensures { MatchOption result ((steps_behind self.old ≡ []) × (self.new ≡ self.old))
            (λ step. steps_behind self.old ≡ step ∷ steps_left self.new) }
    {
        match self.part {
            Part::Closing => None,
            _ if self.begun < self.count => {
                self.begun += 1;
                let round = Round::of(self.begun, &mut self.draws);
                self.enter(Part::Round(round))
            }
            _ => self.enter(Part::Closing),
        }
    }

    // Goes to this part, and gives its first step.
    fn enter(&mut self, part: Part) -> Option<Step>
        ensures first { result ≡ slice_get (part_steps part) 0 }
        ensures place { self.new ≡ entered self.old part }
    {
        self.part = part;
        self.given = 1;
        self.part.step(0)
    }
}

impl Part {
    // The step of the part at that place, from 0.
    fn step(&self, place: u8) -> Option<Step>
        ensures step { result ≡ slice_get (part_steps self.now) place }
        ensures within { IfSome result (λ step. place < 73) }
    {
        match self {
            Part::Opening => opening_step(place),
            Part::Round(round) => round.step(place),
            Part::Closing => closing_step(place),
        }
    }
}

// The step of the opening at that place.
#[tactic(auto, unfolding(crate::specs::Load::opening))]
fn opening_step(place: u8) -> Option<Step>
    ensures step { result ≡ slice_get opening place }
    ensures within { IfSome result (λ step. place < 73) }
{
    match place {
        0 => Some(does(Act::Drain, 1)),
        1 => Some(does(Act::Drain, 2)),
        2 => Some(does(Act::Drain, 3)),
        3 => Some(asks(1, 1, Call::Begin(0))),
        4..=67 => inserts(place - 4),
        68 => Some(asks(1, 1, Call::Commit)),
        69 => Some(does(Act::Drain, 1)),
        70 => Some(asks(1, 1, Call::Poll)),
        71 => Some(does(Act::Drain, 2)),
        72 => Some(does(Act::Drain, 3)),
        _ => None,
    }
}

// Inserts the row of that number.
fn inserts(number: u8) -> Option<Step>
    ensures { result ≡ Some (inserts number) }
{
    Some(asks(1, 1, Call::Insert(account(number), Row::of(&[0])?)))
}

// The step of the closing at that place.
fn closing_step(place: u8) -> Option<Step>
    ensures step { result ≡ slice_get closing place }
    ensures within { IfSome result (λ step. place < 6) }
{
    match place {
        0..=2 => Some(does(Act::Drain, place + 1)),
        3..=5 => Some(does(Act::Drain, place - 2)),
        _ => None,
    }
}

ghost use Rattle.std.specs.Prelude.{◌≡◌, ◌<◌, IfSome};
ghost use Rattle.std.specs.List.{slice_get};
ghost use Rattle.script_text.specs.Load.{next_number, drawn, number_at, round_of};
ghost use Rattle.script_text.specs.Load.{asks, does, account, set_to, round_steps};
ghost use Rattle.script_text.specs.LoadPlaces.{report_at};

use itoa::Buffer;
use order_event::{Act, Step};
use row_model::{Call, RowId};

// Each number is the one before, times the first of these, plus the second, modulo 2^64.
const MULTIPLIER: u64 = 6_364_136_223_846_793_005;

const INCREMENT: u64 = 1_442_695_040_888_963_407;

// A generator of numbers, at one of them.
#[derive(Clone, Copy, Debug)]
pub(crate) struct Generator {
    pub(crate) number: u64,
}

impl Generator {
    // Goes to the next number, and draws from it one below `bound`.
    #[tactic(auto, unfolding(crate::specs::Load::next_number, crate::specs::Load::drawn))]
    fn draw(&mut self, bound: u64) -> u64
        requires { 0 < bound }
        ensures drawn { result ≡ drawn bound (next_number self.old.number) }
        ensures below { result < bound }
        ensures next { self.new.number ≡ next_number self.old.number }
    {
        self.number = self.number.wrapping_mul(MULTIPLIER).wrapping_add(INCREMENT);
        (self.number >> 33) % bound
    }
}

// A step of a session.
pub(crate) fn asks(node: u8, session: u8, call: Call) -> Step
    ensures { result ≡ asks node session call }
{
    Step {
        node,
        act: Act::Client(session, call),
    }
}

// A step of a node.
pub(crate) fn does(act: Act, node: u8) -> Step
    ensures { result ≡ does act node }
{
    Step { node, act }
}

// The row of that number.
pub(crate) fn account(number: u8) -> RowId
    ensures { result ≡ account number }
{
    let mut buffer = Buffer::new();
    let digits = buffer.format(number).as_bytes();
    let mut row = [0; 16];
    row[0] = b'r';
    row[1..1 + digits.len()].copy_from_slice(digits);
    RowId {
        table: *b"acct\0\0\0\0\0\0\0\0\0\0\0\0",
        row,
    }
}

// One transaction: a session of a node sets two rows.
#[derive(Clone, Copy, Debug)]
pub(crate) struct Round {
    node: u8,
    session: u8,
    first: u8,
    second: u8,
    // After how many changes a fragment is sent; 0 sends none.
    unit: u64,
    // The node that drains behind it.
    drained: u8,
    // Which round it is, from 1.
    number: u64,
}

impl Round {
    pub(crate) fn of(number: u64, draws: &mut Generator) -> Round
        ensures round { result ≡ round_of number draws.old.number }
        ensures behind { draws.new.number ≡ number_at 6 draws.old.number }
    {
        let node = 1 + draws.draw(3) as u8;
        let session = 1 + draws.draw(4) as u8;
        let first = draws.draw(64) as u8;
        let second = draws.draw(64) as u8;
        let unit = if draws.draw(8) == 0 { 1 } else { 0 };
        let drained = 1 + draws.draw(3) as u8;
        Round {
            node,
            session,
            first,
            second,
            unit,
            drained,
            number,
        }
    }

    // The step of the round at that place, from 0.
    pub(crate) fn step(&self, place: u8) -> Option<Step>
        ensures step { result ≡ slice_get (round_steps self.now) place }
        ensures within { IfSome result (λ step. place < 9) }
    {
        match place {
            0 => Some(self.asks(Call::Poll)),
            1 => Some(self.asks(Call::Begin(self.unit))),
            2 => Some(self.sets(self.first)),
            3 => Some(self.sets(self.second)),
            4 => Some(self.asks(Call::Commit)),
            5 => Some(does(Act::Drain, self.drained)),
            6 => self.reports(1),
            7 => self.reports(2),
            8 => self.reports(3),
            _ => None,
        }
    }

    fn asks(&self, call: Call) -> Step
        ensures { result ≡ asks self.now.node self.now.session call }
    {
        asks(self.node, self.session, call)
    }

    // An update of one row: its first column becomes the number of the round.
    fn sets(&self, row: u8) -> Step
        ensures { result ≡ asks self.now.node self.now.session (set_to self.now.number row) }
    {
        let mut change = [None; 8];
        change[0] = Some(self.number);
        self.asks(Call::Update(account(row), change))
    }

    // At every 16th round each node reports.
    fn reports(&self, node: u8) -> Option<Step>
        ensures { result ≡ report_at self.now.number node }
    {
        if self.number % 16 == 0 {
            Some(does(Act::Report, node))
        } else {
            None
        }
    }
}

// Demand 3 tied to the code: what a list of calls comes to, performed one after the other by the engine's public calls.
#![tactic(auto)]

ghost use Rattle.std.specs.Prelude.{◌≡◌, ◌+◌, ◌≤◌, ◌<◌, ◌^◌, map, length};
ghost use Rattle.model.specs.Calls.{units_of};
ghost use Rattle.model.specs.Perform.{answer_of, frame_of, perform, start};
ghost use Rattle.drive.specs.Calls.{call_of, configuration};
ghost use Rattle.drive.specs.Numbers.{numbered_call, calls_of};
ghost use Rattle.drive.specs.Demanded.{Demanded};

use model::{Answer, Reply, State};

// One call of the engine, on the state that the last one left.
#[derive(Clone, Copy, Debug, PartialEq, Eq)]
pub enum Call {
    Publish(usize),
    Run(u32),
    Room,
    Restart,
}

// Makes a call. (`tracing::ask` makes those of a trace, and promises by their ops.)
fn answer(call: Call, ring: &[u32], s: State, frame: &mut [u8]) -> Answer
    ensures answer { result ≡ answer_of ring.now (call_of call) (start s frame.old) }
    ensures frame { frame.new ≡ frame_of ring.now (call_of call) (start s frame.old) }
{
    match call {
        Call::Publish(position) => engine::publish(s, position),
        Call::Run(budget) => engine::run(ring, s, frame, budget),
        Call::Room => engine::room(s),
        Call::Restart => engine::restart(s),
    }
}

// The units that a reply reports.
fn units(reply: Reply) -> u32
    ensures { result ≡ units_of reply }
{
    match reply {
        Reply::Refused(_) | Reply::Accepted { .. } => 0,
        Reply::Ran { units, .. } => units,
    }
}

// The state after a list of calls, and the sum of the units that they reported.
#[derive(Clone, Copy)]
pub struct Driven {
    pub state: State,
    pub sum: u64,
}

impl Driven {
    // Performs one call more.
    pub fn perform(&mut self, call: Call, ring: &[u32], frame: &mut [u8])
        requires small { self.old.sum + 4294967295 < 2 ^ 64 }
        ensures performed { configuration self.new frame.new ≡ perform (record { ring = ring.now; call = call_of call }) (configuration self.old frame.old) }
        ensures counted { self.new.sum ≤ self.old.sum + 4294967295 }
    {
        let answer = answer(call, ring, self.state, frame);
        self.state = answer.state;
        self.sum += u64::from(units(answer.reply));
    }
}

// The call that three numbers stand for.
fn numbered_call(kind: u8, position: usize, budget: u32) -> Call
    ensures { call_of result ≡ numbered_call kind position budget }
{
    match kind {
        0 => Call::Publish(position),
        1 => Call::Run(budget),
        2 => Call::Room,
        _ => Call::Restart,
    }
}

// Performs a list of calls, each getting what the last one left: call i is of kind kinds[i], a publishing of positions[i] or a
// run with budgets[i]. What it returns has arrived, as demand 3 says: (a) always, (b) and (c) where its hypotheses hold. (C has no
// enum to hand over and no list of them, and there is no memory to make one in.)
pub fn drive(
    kinds: &[u8],
    positions: &[usize],
    budgets: &[u32],
    ring: &[u32],
    s: State,
    frame: &mut [u8],
) -> Driven
    requires positions { length kinds.now ≤ length positions.now }
    requires budgets { length kinds.now ≤ length budgets.now }
    requires few { length kinds.now ≤ 4294967295 }
    ensures { Demanded ring.now s frame.old (calls_of kinds.now positions.now budgets.now (length kinds.now) 0) (configuration result frame.new) }
{
    let mut driven = Driven { state: s, sum: 0 };
    for i in 0..kinds.len() {
        driven.perform(
            numbered_call(kinds[i], positions[i], budgets[i]),
            ring,
            frame,
        );
    }
    driven
}

// The same of a list of `Call`s.
pub fn drive_calls(calls: &[Call], ring: &[u32], s: State, frame: &mut [u8]) -> Driven
    requires { length calls.now ≤ 4294967295 }
    ensures { Demanded ring.now s frame.old (map call_of calls.now) (configuration result frame.new) }
{
    let mut driven = Driven { state: s, sum: 0 };
    for call in calls {
        driven.perform(*call, ring, frame);
    }
    driven
}

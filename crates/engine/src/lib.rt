// The five calls: setup, publish, run, restart and asking for room. Each answers, for every input whatever, what the
// definition of its name in the crate `model` says.
#![tactic(auto, unfolding(model::specs::Calls::unfit, model::specs::Refusals::first))]

ghost use Rattle.std.specs.Prelude.{◌≡◌, ◌<◌};
ghost use Rattle.model.specs.Refusals.{first};
ghost use Rattle.model.specs.Numbers.{number, number_of_check};
ghost use Rattle.model.specs.Calls.{publish_rules, run_rules, restart_rules, room_rules, fresh_state, setup, publish, restart, ask_room, run, run_frame};
ghost use Rattle.model.specs.Ring.{room};
ghost use Rattle.model.specs.declared.Reply.TheVariants.{Accepted, Refused};

use model::{Answer, Core, Place, REGISTERS, Refusal, Reply, State, TABLE};

// ---- answers

// What an accepted call but a run replies of a state with this core and write pointer. It is not handed the state, nor are the checks
// below by value: a state is large, and each call is to copy it once.
fn accepted(c: Core, write: usize) -> Reply
    requires read_in { c.read < c.ringlength }
    requires write_in { write < c.ringlength }
    ensures { result ≡ Accepted (room c.ringlength c.read write) }
{
    Reply::Accepted {
        room: ring::room_left(c.ringlength, c.read, write),
    }
}

// What a refused call replies: a number, as the refusal table has them, since the definitions of the calls (`Calls.number_of`,
// `Table.Given`) and all that is proved of them speak of numbers.
fn refused(refusal: Refusal) -> Reply
    ensures { result ≡ Refused (number refusal) }
{
    Reply::Refused(u32::from(refusal))
}

// ---- setup, publish, restart, asking for room

fn fresh(ringlength: usize, framelength: usize) -> State
    ensures { result ≡ fresh_state ringlength framelength }
{
    State {
        core: Core {
            registers: [0; REGISTERS],
            read: 0,
            ringlength,
            framelength,
            completion: 0,
            stop: 0,
            place: Place::Idle,
        },
        table: [0; TABLE],
        write: 0,
    }
}

// A new engine for a ring of so many words and a frame memory of so many bytes.
pub fn setup(ringlength: usize, framelength: usize) -> Answer
    ensures { result ≡ setup ringlength framelength }
{
    match fitness::check_lengths(ringlength, framelength) {
        Ok(()) => {
            let state = fresh(ringlength, framelength);
            Answer {
                state,
                reply: accepted(state.core, state.write),
            }
        }
        Err(refusal) => Answer {
            state: fresh(0, 0),
            reply: refused(refusal),
        },
    }
}

// What refuses asking for room, and first of all every other call on a state: that it is unfit.
fn check_room(s: &State) -> Result<(), Refusal>
    ensures { number_of_check result ≡ first (room_rules s.now) }
{
    if fitness::is_unfit(s.core, s.write) {
        Err(Refusal::UnfitState)
    } else {
        Ok(())
    }
}

fn check_publish(s: &State, p: usize) -> Result<(), Refusal>
    ensures { number_of_check result ≡ first (publish_rules s.now p) }
{
    check_room(s)?;
    ring::check_position(s.core.ringlength, s.core.read, s.write, p)
}

// Publishes a position: the words before it are the engine's to read.
pub fn publish(s: State, p: usize) -> Answer
    ensures { result ≡ publish s p }
{
    match check_publish(&s, p) {
        Ok(()) => Answer {
            state: State { write: p, ..s },
            reply: accepted(s.core, p),
        },
        Err(refusal) => Answer {
            state: s,
            reply: refused(refusal),
        },
    }
}

fn check_restart(s: &State) -> Result<(), Refusal>
    ensures { number_of_check result ≡ first (restart_rules s.now) }
{
    check_room(s)?;
    if s.core.stop == 0 {
        Err(Refusal::NotStopped)
    } else {
        Ok(())
    }
}

// Clears the stop number of a stopped engine and drops the words that wait.
pub fn restart(s: State) -> Answer
    ensures { result ≡ restart s }
{
    match check_restart(&s) {
        Ok(()) => {
            let core = Core {
                read: s.write,
                stop: 0,
                ..s.core
            };
            Answer {
                state: State { core, ..s },
                reply: accepted(core, s.write),
            }
        }
        Err(refusal) => Answer {
            state: s,
            reply: refused(refusal),
        },
    }
}

// Asks for the room.
pub fn room(s: State) -> Answer
    ensures { result ≡ ask_room s }
{
    match check_room(&s) {
        Ok(()) => Answer {
            state: s,
            reply: accepted(s.core, s.write),
        },
        Err(refusal) => Answer {
            state: s,
            reply: refused(refusal),
        },
    }
}

// ---- run

// Of a run that is lent a ring and a frame memory of these lengths.
fn check_run(s: &State, ringlength: usize, framelength: usize) -> Result<(), Refusal>
    ensures { number_of_check result ≡ first (run_rules s.now ringlength framelength) }
{
    check_room(s)?;
    if ringlength != s.core.ringlength || framelength != s.core.framelength {
        Err(Refusal::LentLength)
    } else {
        Ok(())
    }
}

// Does units, as many as the budget has, and reports how many they were and why it ends. The lookup table is copied out of the
// state and lent to the units, and put into the state that is handed back.
pub fn run(ring: &[u32], s: State, frame: &mut [u8], budget: u32) -> Answer
    ensures { (result ≡ run ring.now s frame.old budget) × (frame.new ≡ run_frame ring.now s frame.old budget) }
{
    if let Err(refusal) = check_run(&s, ring.len(), frame.len()) {
        return Answer {
            state: s,
            reply: refused(refusal),
        };
    }
    let mut table = s.table;
    let turn = units::do_units(s.core, s.write, ring, &mut table, frame, budget);
    let core = turn.core;
    Answer {
        state: State { core, table, ..s },
        reply: Reply::Ran {
            word: units::word_of(core, s.write, ring),
            units: turn.used,
            room: ring::room_left(core.ringlength, core.read, s.write),
        },
    }
}

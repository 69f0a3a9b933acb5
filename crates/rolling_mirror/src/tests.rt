//! A long session beside a plain model that executes everything in time order, and commands at the
//! edges of the window.

ghost use Rattle.std.specs.Prelude.{◌+◌, ◌*◌, ◌%◌, ◌^◌, ◌≤◌};

use crate::{Arrival, RollingMirror};
use game_trait::{Act, Command, Game, MirrorId, Number, Tick};
use stagger_clock::Stagger;
use std::alloc::Global;
use std::fmt::Debug;
use std::process::Abort;

// A game whose world is a sum in which the order of what is executed counts.
#[derive(Clone, Copy, Debug, PartialEq)]
struct Sum {
    value: u32,
}

impl Game for Sum {
    ghost rules = { record {
      apply = λ w x. record { value = ((w.value * 31) % 2 ^ 32 + x.number) % 2 ^ 32 };
      beat = λ w. record { value = (w.value + 1) % 2 ^ 32 };
    } };

    fn apply(&mut self, x: &Command) {
        self.value = self.value.wrapping_mul(31).wrapping_add(x.number);
    }

    fn beat(&mut self) {
        self.value = self.value.wrapping_add(1);
    }

    fn set_from(&mut self, other: &Sum) {
        *self = *other;
    }

    fn twin(&self) -> Sum {
        *self
    }
}

// The delays of the copies, the window, and how many ticks a mirror keeps behind its base.
const DELAYS: [Tick; 3] = [0, 5, 20];

const WINDOW: Tick = 256;

const KEEP: Tick = 64;

// How many ticks a long session lasts. In each round no command comes at the last ticks, so that all
// copies have executed the same then.
const SESSION: Tick = 100_000;

const ROUND: Tick = 1_000;

const PAUSE: Tick = 50;

// Asserts that two values, of a place, are the same. A call of it is proved much faster than the macro.
fn assert_same<T: Copy + PartialEq + Debug, P: Copy + Debug>(
    rt: &impl Abort,
    found: T,
    due: T,
    place: P,
) {
    assert_eq!(rt; found, due, "{place:?}");
}

// A mirror with room for so many commands, that keeps so many ticks.
#[tactic(auto, unfolding(sync_model::specs::Lists::last_of))]
fn mirror_of(rt: &impl Abort, alloc: Global, room: u32, keep: Tick) -> RollingMirror<Sum>
    requires { room ≤ 1024 }
{
    let plan = Stagger::try_new(&DELAYS, WINDOW).expect(rt, "a plan");
    RollingMirror::new(alloc, &Sum { value: 0 }, &[plan], room, keep).expect(rt, "memory")
}

fn opened(rt: &impl Abort, alloc: Global) -> RollingMirror<Sum> {
    mirror_of(rt, alloc, 1_024, KEEP)
}

fn go(time: Tick, from: MirrorId, number: Number) -> Command {
    Command {
        time,
        from,
        number,
        player: 0,
        act: Act::Go,
    }
}

// The world in time order up to a tick, and the commands that are due from there on.
#[derive(Drop)]
struct Plain {
    at: Tick,
    world: Sum,
    waiting: Vec<Command>,
}

impl Plain {
    fn new(alloc: Global) -> Plain {
        Plain {
            at: 0,
            world: Sum { value: 0 },
            waiting: Vec::new(alloc),
        }
    }

    // Executes a tick: its commands by sender and number.
    fn execute(&mut self, tick: Tick) {
        self.waiting
            .sort_unstable_by_key(|x| (x.time, x.from, x.number));
        for x in self.waiting.iter() {
            if x.time == tick {
                self.world.apply(x);
            }
        }
        self.world.beat();
        self.waiting.retain(|x| x.time > tick);
    }

    // Executes all ticks before this one.
    fn execute_until(&mut self, tick: Tick) {
        for at in self.at..tick {
            self.execute(at);
        }
        self.at = tick;
    }
}

// The last copy's clock.
fn last_clock(rt: &impl Abort, mirror: &RollingMirror<Sum>) -> Tick {
    assert!(rt; mirror.copies() == 3);
    mirror.copy_clock(2)
}

// Asserts that the last copy has the world in time order.
fn assert_last(rt: &impl Abort, mirror: &RollingMirror<Sum>, plain: &mut Plain) {
    plain.execute_until(last_clock(rt, mirror));
    assert!(rt; mirror.copies() == 3);
    assert_same(rt, mirror.world(2), plain.world, ("tick", plain.at));
}

// Asserts that copy 0 has the world in time order, where no command waits.
fn assert_first(rt: &impl Abort, mirror: &RollingMirror<Sum>, plain: &Plain) {
    assert!(rt; plain.waiting.is_empty());
    assert!(rt; mirror.copies() == 3);
    let mut world = plain.world;
    for _ in plain.at..mirror.copy_clock(0) {
        world.beat();
    }
    assert_same(rt, mirror.world(0), world, ("tick", plain.at));
}

// A command of a new name arrives: it is late where it is older than the last copy's clock.
fn bring(rt: &impl Abort, mirror: &mut RollingMirror<Sum>, plain: &mut Plain, x: &Command) {
    let bound = last_clock(rt, mirror);
    match mirror.arrive(x) {
        Arrival::Taken { .. } => {
            assert_same(rt, x.time < bound, false, ("late", x.time));
            plain.waiting.push(*x).expect(rt, "memory");
        }
        other => {
            assert_same(rt, x.time < bound, true, ("late", x.time));
            assert_same(rt, other, Arrival::Late { bound }, ("tick", x.time));
        }
    }
}

// A drawn number below 34.
fn drawn(nth: u32) -> u32 {
    nth.wrapping_mul(2_654_435_761) / 65_536 % 34
}

// A tick of a session: its turn, and then a command that is due up to 8 ticks ahead or 25 behind.
fn play_tick(rt: &impl Abort, mirror: &mut RollingMirror<Sum>, plain: &mut Plain, tick: Tick) {
    let _replies = mirror.turn();
    assert_same(rt, mirror.clock(), tick.saturating_add(1), "the clock");
    if tick % ROUND < ROUND - PAUSE {
        let time = tick.saturating_add(drawn(tick)).saturating_sub(25);
        bring(rt, mirror, plain, &go(time, (tick % 4) as u8, tick));
    }
    assert_last(rt, mirror, plain);
    if tick % ROUND == ROUND - 1 {
        assert_first(rt, mirror, plain);
    }
}

// Through more than a thousand times that the mirror forgets, its last copy has the world in time
// order, and its first one too where nothing more comes.
#[test]
fn a_hundred_thousand_ticks(rt: HostRuntime) {
    let mut mirror = opened(&rt, rt.alloc());
    let mut plain = Plain::new(rt.alloc());
    for tick in 0..SESSION {
        play_tick(&rt, &mut mirror, &mut plain, tick);
    }
    assert!(rt; mirror.base() > SESSION - WINDOW);
}

// Asserts that this was answered to a command.
fn assert_arrival(rt: &impl Abort, found: Arrival, due: Arrival) {
    assert!(rt; found == due);
}

// A command of each tick fills the room long before the window is full. The tick behind forgets what the
// last copy has run, and there is room again.
#[test]
fn a_full_mirror_forgets(rt: HostRuntime) {
    let mut mirror = mirror_of(&rt, rt.alloc(), 32, WINDOW);
    for tick in 0..32 {
        let _replies = mirror.turn();
        let x = go(tick + 1, 0, tick);
        assert_arrival(&rt, mirror.arrive(&x), Arrival::Taken { repaired: 0 });
    }
    let x = go(32, 1, 0);
    assert!(rt; mirror.base() == 0);
    assert_arrival(&rt, mirror.arrive(&x), Arrival::Full);
    let _replies = mirror.turn();
    assert!(rt; mirror.base() == 12);
    assert_arrival(&rt, mirror.arrive(&x), Arrival::Taken { repaired: 0 });
}

// After so many commands a mirror's names come again: these were forgotten long before.
const NAMES: u32 = 500;

// A command of a name that was forgotten is taken, and executed at its time, each time that the names went
// round.
#[test]
fn names_go_round(rt: HostRuntime) {
    let mut mirror = opened(&rt, rt.alloc());
    let mut plain = Plain::new(rt.alloc());
    for tick in 0..4 * NAMES {
        let x = go(tick, 0, tick % NAMES);
        assert_arrival(&rt, mirror.arrive(&x), Arrival::Taken { repaired: 0 });
        plain.waiting.push(x).expect(&rt, "memory");
        let _replies = mirror.turn();
        assert_last(&rt, &mirror, &mut plain);
    }
}

// Right after the mirror forgot, commands come that are due a tick before the base, at it and one
// behind it, at the window's last tick and at its end.
fn assert_edges(rt: &impl Abort, mirror: &mut RollingMirror<Sum>, plain: &mut Plain) {
    let base = mirror.base();
    let end = base.saturating_add(WINDOW);
    let before = go(base.saturating_sub(1), 0, base);
    assert_same(
        rt,
        mirror.arrive(&before),
        Arrival::Late { bound: base },
        "before the base",
    );
    for (from, time) in [
        (1, base),
        (2, base.saturating_add(1)),
        (3, end.saturating_sub(1)),
    ] {
        let x = go(time, from, base);
        bring(rt, mirror, plain, &x);
        assert_same(rt, mirror.arrive(&x), Arrival::Repeat, x);
    }
    assert_same(
        rt,
        mirror.arrive(&go(end, 4, base)),
        Arrival::Far { end },
        "the end",
    );
}

// Each copy makes a step.
fn step_each(rt: &impl Abort, mirror: &mut RollingMirror<Sum>) {
    for copy in 0..3 {
        assert!(rt; copy < mirror.copies());
        let _stepped = mirror.step(copy);
    }
}

// Every answer at the moment at which the mirror forgets, and a name that was forgotten: its command
// is late.
#[test]
fn commands_at_the_edges_of_the_window(rt: HostRuntime) {
    let mut mirror = opened(&rt, rt.alloc());
    let mut plain = Plain::new(rt.alloc());
    let mut passed = 0;
    for _ in 0..400 {
        let base = mirror.base();
        let _ticked = mirror.tick();
        if mirror.base() > base {
            assert_edges(&rt, &mut mirror, &mut plain);
            passed = base;
        }
        step_each(&rt, &mut mirror);
        assert_last(&rt, &mirror, &mut plain);
    }
    assert!(rt; passed > 0);
    let bound = last_clock(&rt, &mirror);
    let late = mirror.arrive(&go(passed, 1, passed));
    assert_same(
        &rt,
        late,
        Arrival::Late { bound },
        "a name that was forgotten",
    );
}

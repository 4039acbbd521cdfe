//! The part of a job that is put aside while a line of immediate mode runs.

ghost use Rattle.std.specs.Prelude.{◌≡◌, IfOk, OnOk};
ghost use Rattle.basic_eval.specs.Acting.{seen};
ghost use Rattle.basic_interpreter.specs.Setting.{kept_of, set_apart, with_kept};

use crate::settings::{NO_HOME, fresh_limits};
use basic_eval::{Running, Spot, Stack};
use basic_values::{Int, NoMemory};
use error_trap::Trap;
use program_model::{Frame, Home};
use std::marker::Model;
use std::mem;

/// The limits, the trap, the return places, and what runs of the program that ran last.
#[derive(Drop)]
pub(crate) struct Aside {
    limits: Vec<(Int, Int)>,
    trap: Trap,
    returns: Stack<Spot>,
    home: Home,
    frames: Stack<Frame>,
}

impl Model for Aside {
    ghost use Rattle.basic_interpreter.specs.Setting as setting;

    ghost Value = { setting.PutAside };

    ghost view = { λ aside. record {
      limits = aside.limits.items;
      trap = aside.trap;
      returns = aside.returns;
      home = aside.home;
      frames = aside.frames;
    } };
}

impl Aside {
    /// Begins a line with this many FORs: puts aside what it does not share with the program.
    pub(crate) fn set_apart(state: &mut Running, loops: usize) -> Result<Aside, NoMemory>
        ensures kept { IfOk result (λ aside. aside ≡ kept_of (seen state.old)) }
        ensures state { OnOk result (seen state.new ≡ set_apart loops (seen state.old)) }
    {
        let limits = fresh_limits(state.alloc, loops)?;
        let aside = Aside {
            limits: mem::replace(&mut state.limits, limits),
            trap: state.trap,
            returns: mem::replace(&mut state.returns, Stack::new(state.alloc)),
            home: state.home,
            frames: mem::replace(&mut state.frames, Stack::new(state.alloc)),
        };
        state.trap.handler = None;
        state.trap.place = 0;
        state.line = 0;
        state.home = NO_HOME;
        Ok(aside)
    }

    /// Ends the line: puts back what was put aside.
    pub(crate) fn put_back(self, state: &mut Running)
        ensures { seen state.new ≡ with_kept self (seen state.old) }
    {
        let Aside {
            limits,
            trap,
            returns,
            home,
            frames,
        } = self;
        state.limits = limits;
        state.trap = trap;
        state.returns = returns;
        state.home = home;
        state.frames = frames;
    }
}

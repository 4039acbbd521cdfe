//! The parts of a walk over a statement, and the visitor to which they are shown.

ghost use Rattle.std.specs.Prelude.{◌≡◌, OnOk};
ghost use Rattle.statement_walk.specs.Walk.{StatementPart};
ghost use Rattle.statement_walk.specs.Views.{part_seen};

use basic_tree::{Expr, Statement, Target};

/// A statement without others inside, or a line number that means a GOTO.
#[derive(Clone, Copy)]
pub enum Simple<'a> {
    Statement(&'a Statement),
    Line(u16),
}

/// An expression, or the target of a store.
#[derive(Clone, Copy)]
pub enum Expression<'a> {
    Tree(&'a Expr),
    Target(&'a Target),
}

/// A part of a statement.
#[derive(Clone, Copy)]
pub enum Part<'a> {
    Simple(Simple<'a>),
    Expression(Expression<'a>),
    /// A FOR modifier.
    Loop,
}

/// A visitor, to which the parts of a statement are shown.
pub trait Visitor {
    /// Why it ends the walk.
    type Stop;

    /// Its state after a part.
    ghost after: { Self → StatementPart → Self };

    /// Visits a part.
    fn visit(&mut self, part: Part<'_>) -> Result<(), Self::Stop>
        ensures { OnOk result (self.new ≡ after self.old (part_seen part.entry)) };
}

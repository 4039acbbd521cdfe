//! The precedences of expressions, from an atom to a whole expression.

ghost use Rattle.std.specs.Prelude.{◌≡◌, ◌-◌};
ghost use Rattle.basic_tree.specs.GrammarTables.{operator_level};
ghost use Rattle.basic_expr.specs.Precedences.{IsRight, level_number};

use basic_tree::Operator;

/// How tightly the operands of an expression bind, from the most tightly on.
///
/// The order is that of the grammar's precedence levels: an atom is precedence level 0, a whole
/// expression precedence level 11.
#[derive(Clone, Copy, PartialEq, Eq)]
pub enum Precedence {
    Atom,
    Power,
    /// Signs before an operand.
    Sign,
    Product,
    Sum,
    Relation,
    Not,
    And,
    Or,
    Xor,
    Imp,
    Eqv,
}

/// The precedence of a whole expression.
pub(crate) const LOOSEST: Precedence = Precedence::Eqv;

/// Returns the next higher precedence, which is that of the operands; that of an atom is its own.
pub(crate) fn tighter(precedence: Precedence) -> Precedence
    ensures { level_number result ≡ level_number precedence - 1 }
{
    match precedence {
        Precedence::Atom | Precedence::Power => Precedence::Atom,
        Precedence::Sign => Precedence::Power,
        Precedence::Product => Precedence::Sign,
        Precedence::Sum => Precedence::Product,
        Precedence::Relation => Precedence::Sum,
        Precedence::Not => Precedence::Relation,
        Precedence::And => Precedence::Not,
        Precedence::Or => Precedence::And,
        Precedence::Xor => Precedence::Or,
        Precedence::Imp => Precedence::Xor,
        Precedence::Eqv => Precedence::Imp,
    }
}

/// Returns the precedence of an operator.
pub(crate) fn precedence_of(operator: Operator) -> Precedence
    ensures { level_number result ≡ operator_level operator }
{
    match operator {
        Operator::Power => Precedence::Power,
        Operator::Times | Operator::Divided => Precedence::Product,
        Operator::Plus | Operator::Minus => Precedence::Sum,
        Operator::And => Precedence::And,
        Operator::Or => Precedence::Or,
        Operator::Xor => Precedence::Xor,
        Operator::Imp => Precedence::Imp,
        Operator::Eqv => Precedence::Eqv,
    }
}

/// Returns the precedence of what follows an operator, or `None` for an exponent.
pub(crate) fn right_precedence(operator: Operator) -> Option<Precedence>
    ensures { IsRight operator result }
{
    match operator {
        Operator::Power => None,
        Operator::Times | Operator::Divided => Some(Precedence::Sign),
        Operator::Plus | Operator::Minus => Some(Precedence::Product),
        Operator::And => Some(Precedence::Not),
        Operator::Or => Some(Precedence::And),
        Operator::Xor => Some(Precedence::Or),
        Operator::Imp => Some(Precedence::Xor),
        Operator::Eqv => Some(Precedence::Imp),
    }
}

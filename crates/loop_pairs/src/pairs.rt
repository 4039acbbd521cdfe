//! The FORs that are closed.

ghost use Rattle.std.specs.Prelude.{◌≡◌, map, IfOk, OnOk};
ghost use Rattle.basic_tree.specs.StatementViews.{statement_of};
ghost use Rattle.program_model.specs.Program.{Program, statements_of, bodies_of, pairs_of};
ghost use Rattle.loop_pairs.specs.Pairs.{pair_seen, PairsOn};

use crate::opens::{OpenLoop, Opens};
use crate::tables::entry_at;
use basic_tree::Statement;
use basic_values::NoMemory;
use std::alloc::Global;

/// A FOR and the NEXT that closes it, by their numbers.
#[derive(Clone, Copy)]
pub struct Pair {
    pub opening: usize,
    pub closing: usize,
}

/// Returns the FORs of a program that are closed, with their NEXTs, in the order of the NEXTs. The
/// caller gives the statements of the program, and the body of each.
pub fn pairs_in(
    alloc: Global,
    statements: &[&Statement],
    bodies: &[Option<usize>],
) -> Result<Vec<Pair>, NoMemory>
    ensures { IfOk result (λ pairs. (program : Program)
        → map (λ r. statement_of r.now) statements.now ≡ statements_of program
        → bodies.now ≡ bodies_of program → map pair_seen pairs.items ≡ pairs_of program) }
{
    let mut pairs = Vec::new(alloc);
    let mut opens = Opens::new(alloc);
    for (m, statement) in statements.iter().enumerate() {
        pass(&mut pairs, &mut opens, m, entry_at(bodies, m), statement)?;
    }
    Ok(pairs)
}

/// Passes the m-th statement, which is in this body: a FOR is opened, and a NEXT closes one.
fn pass(
    pairs: &mut Vec<Pair>,
    opens: &mut Opens,
    m: usize,
    body: Option<usize>,
    statement: &Statement,
) -> Result<(), NoMemory>
    ensures { OnOk result (PairsOn pairs.old.items opens.old m body
        (statement_of statement.now) pairs.new.items opens.new) }
{
    match statement {
        Statement::For { variable, .. } => opens.push(OpenLoop {
            number: m,
            variable: *variable,
            body,
        }),
        Statement::Next(variable) => match opens.close(*variable, body) {
            None => Ok(()),
            Some(opening) => {
                pairs.push(Pair {
                    opening,
                    closing: m,
                })?;
                Ok(())
            }
        },
        _ => Ok(()),
    }
}

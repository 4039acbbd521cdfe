//! The elements of lists.

ghost use Rattle.std.specs.Prelude.{◌≡◌, ℕ, ◌+◌, ◌<◌, ◌≤◌, length};
ghost use Rattle.grammar_machine.specs.MachineStack.{Targets, Shapes, FileShapes, Lines, Channels};
ghost use Rattle.grammar_machine.specs.MachineStack.{FieldParts, ShapeItem, FileItem, NameItem};
ghost use Rattle.grammar_machine.specs.MachineStack.{LineItem};
ghost use Rattle.grammar_machine.specs.MachineForms.{shape_form, size_form};
ghost use Rattle.statement_lists.specs.Items.{channel_item, names_wanted, part_item, target_item};
ghost use Rattle.statement_parts.specs.ParsedForms.{Parts, FlatParts, FlatPartsFrom};
ghost use Rattle.statement_lists.specs.ListForms.{field_name_form, second_form};

use crate::lists::Element;
use basic_expr::{Failure, Words};
use basic_tree::{CloseChannel, FieldPart, FileShape, Keyword, Name, Shape, Sign, Target, Want};
use statement_parts::{
    Literal, Read, closing, expression, if_sign, literal, name, opening, take_key, target,
};
use std::alloc::Global;

/// Reads the name of an array and its bounds.
#[tactic(auto, using(statement_parts::proofs::Steps::leading))]
fn shape(words: &Words<'_>, from: usize, levels: usize) -> Result<Read<Shape>, Failure>
    requires { from ≤ length words.now }
    ensures { Parts levels words.now from shape_form (λ x g. g x) result }
{
    let Read {
        value: name,
        end: named,
    } = name(words, from, Want::Either)?;
    let opened = opening(words, named, levels)?;
    let Read {
        value: first,
        end: bounded,
    } = literal(words, opened, Literal::Bound)?;
    let Read {
        value: second,
        end: twice,
    } = second_bound(words, bounded)?;
    let end = closing(words, twice, levels)?;
    Ok(Read {
        value: Shape {
            name,
            first,
            second,
        },
        end,
    })
}

/// Reads a comma and a second bound, if they are there.
#[tactic(auto, using(statement_parts::proofs::Steps::leading))]
fn second_bound(words: &Words<'_>, from: usize) -> Result<Read<Option<u16>>, Failure>
    requires { from ≤ length words.now }
    ensures { FlatPartsFrom words.now from second_form (λ x g. g x) result }
{
    if if_sign(words, from, Sign::Comma) {
        let Read { value: second, end } = literal(words, from + 1, Literal::Bound)?;
        return Ok(Read {
            value: Some(second),
            end,
        });
    }
    Ok(Read {
        value: None,
        end: from,
    })
}

/// Reads the size of the elements of a string array, if it is there.
#[tactic(auto, using(statement_parts::proofs::Steps::leading))]
fn size(words: &Words<'_>, from: usize, text: bool) -> Result<Read<Option<u16>>, Failure>
    requires { from ≤ length words.now }
    ensures { FlatPartsFrom words.now from (size_form text) (λ x g. g x) result }
{
    if text {
        if if_sign(words, from, Sign::Equal) {
            let Read { value: bytes, end } = literal(words, from + 1, Literal::Size)?;
            return Ok(Read {
                value: Some(bytes),
                end,
            });
        }
        return Ok(Read {
            value: None,
            end: from,
        });
    }
    Ok(Read {
        value: None,
        end: from,
    })
}

/// Reads AS and the string variable of a part of FIELD.
#[tactic(auto, using(statement_parts::proofs::Steps::leading))]
fn field_name(words: &Words<'_>, from: usize) -> Result<Read<Name>, Failure>
    requires { from ≤ length words.now }
    ensures { FlatParts words.now from field_name_form (λ x g. g x) result }
{
    let named = take_key(words, from, Keyword::As)?;
    name(words, named, Want::Text)
}

impl Element for Target {
    ghost sequence = { λ w. Targets w };

    ghost item = { target_item };

    fn has_room(_want: Want, _count: usize) -> bool {
        true
    }

    fn parse(
        alloc: Global,
        words: &Words<'_>,
        from: usize,
        want: Want,
        levels: usize,
    ) -> Result<Read<Target>, Failure> {
        target(alloc, words, from, want, levels)
    }
}

impl Element for Shape {
    ghost sequence = { λ w. Shapes };

    ghost item = { λ s. ShapeItem s };

    fn has_room(_want: Want, _count: usize) -> bool {
        true
    }

    fn parse(
        _alloc: Global,
        words: &Words<'_>,
        from: usize,
        _want: Want,
        levels: usize,
    ) -> Result<Read<Shape>, Failure> {
        shape(words, from, levels)
    }
}

impl Element for FileShape {
    ghost sequence = { λ w. FileShapes };

    ghost item = { λ s. FileItem s };

    fn has_room(_want: Want, _count: usize) -> bool {
        true
    }

    #[tactic(auto, using(statement_parts::proofs::Steps::leading))]
    fn parse(
        _alloc: Global,
        words: &Words<'_>,
        from: usize,
        _want: Want,
        levels: usize,
    ) -> Result<Read<FileShape>, Failure> {
        let Read {
            value: shape,
            end: shaped,
        } = shape(words, from, levels)?;
        let Read { value: size, end } = size(words, shaped, shape.name.text)?;
        Ok(Read {
            value: FileShape { shape, size },
            end,
        })
    }
}

/// Names: of arrays if numbers are expected, else of parameters.
impl Element for Name {
    ghost sequence = { names_wanted };

    ghost item = { λ name. NameItem name };

    fn has_room(want: Want, count: usize) -> bool {
        match want {
            Want::Number => true,
            Want::Text | Want::Either => count < 5,
        }
    }

    fn parse(
        _alloc: Global,
        words: &Words<'_>,
        from: usize,
        want: Want,
        _levels: usize,
    ) -> Result<Read<Name>, Failure> {
        match want {
            Want::Number => name(words, from, Want::Number),
            Want::Text | Want::Either => name(words, from, Want::Either),
        }
    }
}

impl Element for u16 {
    ghost sequence = { λ w. Lines };

    ghost item = { λ n. LineItem n };

    fn has_room(_want: Want, _count: usize) -> bool {
        true
    }

    fn parse(
        _alloc: Global,
        words: &Words<'_>,
        from: usize,
        _want: Want,
        _levels: usize,
    ) -> Result<Read<u16>, Failure> {
        literal(words, from, Literal::LineNumber)
    }
}

impl Element for CloseChannel {
    ghost sequence = { λ w. Channels };

    ghost item = { channel_item };

    fn has_room(_want: Want, _count: usize) -> bool {
        true
    }

    #[tactic(auto, using(statement_parts::proofs::Steps::leading))]
    fn parse(
        alloc: Global,
        words: &Words<'_>,
        from: usize,
        _want: Want,
        levels: usize,
    ) -> Result<Read<CloseChannel>, Failure> {
        if if_sign(words, from, Sign::Hash) {
            let Read { value: number, end } = expression(
                alloc,
                words,
                from + 1,
                Want::Number,
                levels,
            )?;
            return Ok(Read {
                value: CloseChannel { hash: true, number },
                end,
            });
        }
        let Read { value: number, end } = expression(alloc, words, from, Want::Number, levels)?;
        Ok(Read {
            value: CloseChannel {
                hash: false,
                number,
            },
            end,
        })
    }
}

impl Element for FieldPart {
    ghost sequence = { λ w. FieldParts };

    ghost item = { part_item };

    fn has_room(_want: Want, _count: usize) -> bool {
        true
    }

    #[tactic(auto, using(statement_parts::proofs::Steps::leading))]
    fn parse(
        alloc: Global,
        words: &Words<'_>,
        from: usize,
        _want: Want,
        levels: usize,
    ) -> Result<Read<FieldPart>, Failure> {
        let Read {
            value: width,
            end: widened,
        } = expression(alloc, words, from, Want::Number, levels)?;
        match field_name(words, widened) {
            Ok(Read { value: name, end }) => Ok(Read {
                value: FieldPart { width, name },
                end,
            }),
            // If a `?` dropped a tree, the proof would go through all its forms.
            Err(failure) => {
                drop(width);
                Err(failure)
            }
        }
    }
}

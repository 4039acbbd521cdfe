//! What was read of a statement, by kinds.

ghost use Rattle.std.specs.Prelude.{◌≡◌, [], ◌++◌, ◌∷◌, OnErr, OnOk, Some, map, option_map};
ghost use Rattle.basic_tree.specs.TreeViews.{tree_of};
ghost use Rattle.statement_rows.specs.declared.part.Part.TheVariants as part;
ghost use Rattle.statement_rows.specs.Slots.{HasNoExpression, added, behind_first};
ghost use Rattle.statement_rows.specs.Slots.{first_option, first_tree, nothing_read};
ghost use Rattle.statement_rows.specs.Slots.{part_of, slots_of};

use crate::part::{Part, Source};
use basic_tree::{
    CloseChannel, Expr, FieldPart, FileShape, MatrixValue, Name, OpenFor, Prompt, Separator,
    Series, Shape, Target,
};
use basic_values::{NoMemory, Text};
use statement_lists::Assigned;
use statement_operands::OpenOptions;
use statement_parts::LoopRange;
use std::alloc::Global;
use std::mem;

/// What was read: the expressions in order, and the last part of each other kind. A kind that no
/// piece gave has a default.
#[derive(Drop)]
pub struct Slots {
    pub values: Vec<Expr>,
    pub options: Vec<Option<Expr>>,
    pub mark: bool,
    pub variable: Name,
    pub number: u16,
    pub perhaps_line: Option<u16>,
    pub purpose: OpenFor,
    pub prompt: Option<Prompt>,
    pub separator: Option<Separator>,
    pub matrix: MatrixValue,
    pub targets: Series<Target>,
    pub channels: Series<CloseChannel>,
    pub fields: Series<FieldPart>,
    pub lines: Series<u16>,
    pub items: Series<Text>,
    pub arrays: Series<Name>,
    pub shapes: Series<Shape>,
    pub file_shapes: Series<FileShape>,
}

impl Slots {
    /// Returns empty slots.
    pub fn new(alloc: Global) -> Slots
        ensures { slots_of result ≡ nothing_read }
    {
        Slots {
            values: Vec::new(alloc),
            options: Vec::new(alloc),
            mark: false,
            variable: Name {
                letter: b'A',
                digit: None,
                text: false,
            },
            number: 0,
            perhaps_line: None,
            purpose: OpenFor::Either,
            prompt: None,
            separator: None,
            matrix: MatrixValue::Zero,
            targets: Series::from_vec(Vec::new(alloc)),
            channels: Series::from_vec(Vec::new(alloc)),
            fields: Series::from_vec(Vec::new(alloc)),
            lines: Series::from_vec(Vec::new(alloc)),
            items: Series::from_vec(Vec::new(alloc)),
            arrays: Series::from_vec(Vec::new(alloc)),
            shapes: Series::from_vec(Vec::new(alloc)),
            file_shapes: Series::from_vec(Vec::new(alloc)),
        }
    }

    /// Adds one more part, or none. If memory runs out, no expression is left.
    #[tactic(auto)]
    pub fn add(&mut self, part: Option<Part>) -> Result<(), NoMemory>
        ensures added { OnOk result (slots_of self.new ≡
            added (slots_of self.old) (option_map part_of part)) }
        ensures memory { OnErr result (HasNoExpression (slots_of self.new)) }
    {
        let added = self.put(part);
        if added.is_err() {
            self.values.clear();
            self.options.clear();
        }
        added
    }

    // The parts that need memory have functions of their own: each early exit in this match is slow
    // to prove.
    #[tactic(auto)]
    fn put(&mut self, part: Option<Part>) -> Result<(), NoMemory>
        ensures { OnOk result (slots_of self.new ≡
            added (slots_of self.old) (option_map part_of part)) }
    {
        match part {
            None => {}
            Some(Part::Value(value)) => return add_value(&mut self.values, value),
            Some(Part::Perhaps(value)) => return add_option(&mut self.options, value),
            Some(Part::OpenOptions(options)) => return self.add_open_options(options),
            Some(Part::Source(source)) => return self.add_source(source),
            Some(Part::Range(range)) => return self.add_range(range),
            Some(Part::Assigned(assigned)) => return self.add_assigned(assigned),
            Some(Part::Mark(mark)) => self.mark = mark,
            Some(Part::Variable(name)) => self.variable = name,
            Some(Part::Number(number)) => self.number = number,
            Some(Part::PerhapsLine(line)) => self.perhaps_line = line,
            Some(Part::Purpose(purpose)) => self.purpose = purpose,
            Some(Part::PerhapsSeparator(separator)) => self.separator = separator,
            Some(Part::Matrix(matrix)) => self.matrix = matrix,
            Some(Part::Targets(targets)) => self.targets = targets,
            Some(Part::Channels(channels)) => self.channels = channels,
            Some(Part::Fields(fields)) => self.fields = fields,
            Some(Part::Lines(lines)) => self.lines = lines,
            Some(Part::Items(items)) => self.items = items,
            Some(Part::Arrays(arrays)) => self.arrays = arrays,
            Some(Part::Shapes(shapes)) => self.shapes = shapes,
            Some(Part::FileShapes(shapes)) => self.file_shapes = shapes,
        }
        Ok(())
    }

    /// Adds the options of OPEN.
    #[tactic(auto)]
    fn add_open_options(&mut self, options: OpenOptions) -> Result<(), NoMemory>
        ensures { OnOk result (slots_of self.new ≡
            added (slots_of self.old) (Some (part_of (part.OpenOptions options)))) }
    {
        add_option(&mut self.options, options.record_size)?;
        add_option(&mut self.options, options.cluster_size)?;
        add_option(&mut self.options, options.mode)
    }

    /// Adds the channel or the prompt of INPUT.
    #[tactic(auto)]
    fn add_source(&mut self, source: Source) -> Result<(), NoMemory>
        ensures { OnOk result (slots_of self.new ≡
            added (slots_of self.old) (Some (part_of (part.Source source)))) }
    {
        self.prompt = source.prompt;
        add_option(&mut self.options, source.channel)
    }

    /// Adds the variable of a loop and its values.
    #[tactic(auto)]
    fn add_range(&mut self, range: LoopRange) -> Result<(), NoMemory>
        ensures { OnOk result (slots_of self.new ≡
            added (slots_of self.old) (Some (part_of (part.Range range)))) }
    {
        self.variable = range.variable;
        add_value(&mut self.values, range.start)?;
        add_value(&mut self.values, range.limit)?;
        add_option(&mut self.options, range.step)
    }

    /// Adds targets and their value.
    #[tactic(auto)]
    fn add_assigned(&mut self, assigned: Assigned) -> Result<(), NoMemory>
        ensures { OnOk result (slots_of self.new ≡
            added (slots_of self.old) (Some (part_of (part.Assigned assigned)))) }
    {
        self.targets = assigned.targets;
        add_value(&mut self.values, assigned.value)
    }
}

/// Adds one more expression.
#[tactic(auto, using(crate::proofs::SlotSteps::adding))]
fn add_value(values: &mut Vec<Expr>, value: Expr) -> Result<(), NoMemory>
    ensures { OnOk result (map tree_of values.new.items ≡
        map tree_of values.old.items ++ tree_of value ∷ []) }
{
    values.push(value)?;
    Ok(())
}

/// Adds one more optional expression.
#[tactic(auto, using(crate::proofs::SlotSteps::adding))]
fn add_option(options: &mut Vec<Option<Expr>>, value: Option<Expr>) -> Result<(), NoMemory>
    ensures { OnOk result (map (option_map tree_of) options.new.items ≡
        map (option_map tree_of) options.old.items ++ option_map tree_of value ∷ []) }
{
    options.push(value)?;
    Ok(())
}

/// Removes and returns the first of the expressions.
#[tactic(auto, using(crate::proofs::SlotSteps::taking))]
pub fn next_value(values: &mut Vec<Expr>) -> Expr
    ensures first { tree_of result ≡ first_tree (map tree_of values.old.items) }
    ensures others { map tree_of values.new.items ≡ behind_first (map tree_of values.old.items) }
{
    if values.is_empty() {
        return Expr::Literal(0);
    }
    values.remove(0)
}

/// Removes and returns the first of the optional expressions.
#[tactic(auto, using(crate::proofs::SlotSteps::taking))]
pub fn next_option(options: &mut Vec<Option<Expr>>) -> Option<Expr>
    ensures first { option_map tree_of result ≡
        first_option (map (option_map tree_of) options.old.items) }
    ensures others { map (option_map tree_of) options.new.items ≡
        behind_first (map (option_map tree_of) options.old.items) }
{
    if options.is_empty() {
        return None;
    }
    options.remove(0)
}

/// Removes the list from what was read, and returns it.
// This replaces a move out of the slots, after which every other part would be dropped by itself.
pub fn taken<T>(alloc: Global, list: &mut Series<T>) -> Series<T>
    ensures { result ≡ list.old }
{
    mem::replace(list, Series::from_vec(Vec::new(alloc)))
}

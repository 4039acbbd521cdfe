//! The execution of one instruction.

ghost use Rattle.std.specs.Prelude.{◌≡◌, ◌-◌, false};
ghost use Rattle.polish_code.specs.Walk.{item_act};
ghost use Rattle.basic_eval.specs.Acting.{Acts, alone, is_call, is_ask, is_sys, seen, told};

use crate::exits::{Exit, Move};
use crate::spots::Spot;
use crate::stack::Stack;
use crate::state::Running;
use crate::values::{take_truth, wrapped};
use basic_tree::Function;
use basic_values::{Text, Trouble};
use polish_code::Item;
use program_model::Value;

impl Running {
    /// Executes an instruction that calls no function of the program and asks nothing. `behind` is
    /// the number of instructions up to and including it. Returns the move that it leads to. If
    /// that is out, the state has the reason; if memory ran out, nothing more is claimed. The work
    /// of each instruction stays out of line, so that this call has no frame of its own.
    #[inline(always)]
    pub fn step(
        &mut self,
        words: &[Text],
        behind: usize,
        item: &Item,
        stack: &mut Stack<Value>,
    ) -> Move
        requires call { is_call item.now ≡ false }
        requires ask { is_ask item.now ≡ false }
        ensures { Acts
            (item_act (alone words.now) behind item.now stack.old (seen self.old))
            (seen self.new) (told self.new.exit stack.new result) }
    {
        match item {
            Item::Start(_) => Move::To(behind.saturating_sub(1)),
            Item::Arrive(home) => {
                self.run_at(*home);
                Move::Pass(0)
            }
            Item::Number(number) => self.push_number(wrapped(*number), stack),
            Item::Quoted(text) => self.quote(text, stack),
            Item::Load(name) => self.load(name, stack),
            Item::LoadElement { name, count } => self.load_element(name, *count as usize, stack),
            Item::Apply { function, count } => self.apply(*function, *count as usize, stack),
            Item::Negate => self.negate(stack),
            Item::Complement => self.complement(stack),
            Item::Operate(operator) => self.operate(*operator, stack),
            Item::Compare(relation) => self.relate(*relation, stack),
            Item::Store(name) => self.store(name, stack),
            Item::StoreElement { name, count } => self.store_element(name, *count as usize, stack),
            Item::Discard => {
                stack.drop_last(1);
                Move::Pass(0)
            }
            Item::Answer => self.answer_last(stack),
            Item::PrintValue => self.print_value(stack),
            Item::PrintTab => self.print_tab(stack),
            Item::Zone => self.next_zone(),
            Item::EndLine => self.end_line(),
            Item::TestOutput => self.test_output(stack),
            Item::TabText => self.tab_text(stack),
            Item::ZoneText => self.zone_text(stack),
            Item::Call { .. }
            | Item::Ask(_)
            | Item::LoadFileElement { .. }
            | Item::StoreFileElement { .. }
            | Item::WriteOn
            | Item::WriteUsing { .. }
            | Item::LineOn
            | Item::AskItems { .. }
            | Item::AskLine => unreachable!(),
            Item::Split(count) => self.split(*count as usize, stack),
            Item::TakeItem => self.take_item(words, stack),
            Item::Judge(is_text) => self.judge(*is_text, stack),
            Item::Restore => {
                self.item = 0;
                Move::Pass(0)
            }
            Item::Jump(to) => Move::To(*to as usize),
            Item::JumpIf(to) => {
                if take_truth(stack) {
                    Move::To(*to as usize)
                } else {
                    Move::Pass(0)
                }
            }
            Item::Skip(count) => Move::Pass(*count as usize),
            Item::SkipUnless(count) => Move::Pass(if take_truth(stack) {
                0
            } else {
                *count as usize
            }),
            Item::SkipIf(count) => Move::Pass(if take_truth(stack) {
                *count as usize
            } else {
                0
            }),
            Item::BackIf(count) => {
                if take_truth(stack) {
                    Move::To(back(behind, *count))
                } else {
                    Move::Pass(0)
                }
            }
            Item::BackUnless(count) => {
                if take_truth(stack) {
                    Move::Pass(0)
                } else {
                    Move::To(back(behind, *count))
                }
            }
            Item::Open {
                variable,
                place,
                to,
            } => self.open_or_go(variable, *place as usize, *to as usize, stack),
            Item::OpenOrSkip {
                variable,
                place,
                count,
            } => self.open_or_skip(variable, *place as usize, *count as usize, stack),
            Item::Step {
                variable,
                place,
                to,
            } => self.turn_or_pass(variable, *place as usize, *to as usize),
            Item::StepBack {
                variable,
                place,
                count,
            } => self.turn_or_pass(variable, *place as usize, back(behind, *count)),
            Item::Gosub { home, to } => self.go_sub(behind, home, *to as usize),
            Item::Return => self.go_back(),
            Item::OnGoto(places) => self.on_goto(places.as_slice(), stack),
            Item::OnGosub { home, places } => {
                self.on_gosub(behind, home, places.as_slice(), stack)
            }
            Item::OnError(line) => self.set_handler(*line),
            Item::Resume(to) => self.resume(*to),
            Item::Stop(home) => {
                self.go_out(Trouble::Refused(Exit::Stopped(Spot::new(behind, *home))))
            }
            Item::End => self.go_out(Trouble::Refused(Exit::Ended)),
            Item::Chain => self.chain(stack),
            Item::Justify { side, name } => self.justify(*side, name, stack),
            Item::JustifyBy { side, name, by } => self.justify_by(*side, name, by),
            Item::Matrix(act) => self.matrix(words, act, stack),
            Item::Leave => Move::Away,
        }
    }
}

/// Returns the place `count` instructions back.
#[inline(always)]
pub(crate) fn back(behind: usize, count: u32) -> usize
    ensures { result ≡ behind - 1 - count }
{
    behind.saturating_sub(1).saturating_sub(count as usize)
}

/// Returns whether an instruction calls a function of the program.
#[inline(always)]
pub fn is_call(item: &Item) -> bool
    ensures { result ≡ is_call item.now }
{
    match item {
        Item::Call { .. } => true,
        _ => false,
    }
}

/// Returns whether an instruction may ask the monitor or take a key line.
#[inline(always)]
pub fn is_ask(item: &Item) -> bool
    ensures { result ≡ is_ask item.now }
{
    match item {
        Item::Ask(_)
        | Item::LoadFileElement { .. }
        | Item::StoreFileElement { .. }
        | Item::WriteOn
        | Item::WriteUsing { .. }
        | Item::LineOn
        | Item::AskItems { .. }
        | Item::AskLine => true,
        Item::Apply { function, .. } => is_sys(*function),
        _ => false,
    }
}

/// Returns whether a function asks the monitor.
#[inline(always)]
pub fn is_sys(function: Function) -> bool
    ensures { result ≡ is_sys function }
{
    match function {
        Function::Sys => true,
        _ => false,
    }
}

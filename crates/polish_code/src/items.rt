//! The instructions of a program's bytecode. Places are numbers of instructions, from 0.

use basic_tree::{Function, Name, Operator, Relation, Series};
use basic_values::Text;
use program_model::{FileAct, Home, MatrixAct};
use record_fields::Side;
use virtual_arrays::VirtualShape;

/// An instruction. Values are on a stack, with the last one on top.
#[derive(Drop)]
pub enum Item {
    /// A statement begins: one of a line, or one inside another.
    Start(Home),
    /// The value of a function of one line is computed from here on.
    Arrive(Home),
    Number(u16),
    Quoted(Text),
    Load(Name),
    /// Loads an array element, by this many subscripts.
    LoadElement {
        name: Name,
        count: u32,
    },
    /// Loads an element of an array in a file.
    LoadFileElement {
        array: VirtualShape,
        count: u32,
    },
    /// Applies a function of the language to this many arguments.
    Apply {
        function: Function,
        count: u32,
    },
    /// Calls a function of the program with this many arguments. If it has a DEF, its body has a
    /// place.
    Call {
        function: Name,
        parameters: Series<Name>,
        count: u32,
        body: Option<u32>,
    },
    Negate,
    Complement,
    Operate(Operator),
    Compare(Relation),
    /// Stores a value: the one on top, or for an element the one below the subscripts. It stays on
    /// the stack.
    Store(Name),
    StoreElement {
        name: Name,
        count: u32,
    },
    StoreFileElement {
        array: VirtualShape,
        count: u32,
    },
    Discard,
    /// Sets the result of the running function.
    Answer,
    PrintValue,
    PrintTab,
    Zone,
    EndLine,
    /// Tests the channel of PRINT #, which is on the stack below the items. Each item is then
    /// written to it.
    TestOutput,
    /// Gives the bytes that move to a column, or to the next zone.
    TabText,
    ZoneText,
    WriteOn,
    /// Writes this many values by PRINT USING; the format is below them.
    WriteUsing {
        count: u32,
        ends_line: bool,
    },
    /// Takes a key line. Its items are then on the stack, the first one on top.
    AskItems {
        prompt: Text,
        count: u32,
    },
    AskLine,
    /// Reads a line of the channel that is on the stack. Its items are then on the stack, the first
    /// one on top.
    LineOn,
    Split(u32),
    /// The next item of DATA.
    TakeItem,
    /// Makes a value of an item, a string (true) or a number.
    Judge(bool),
    Restore,
    Jump(u32),
    JumpIf(u32),
    /// Skips this many instructions: always, unless the value is true, or if it is true.
    Skip(u32),
    SkipUnless(u32),
    SkipIf(u32),
    /// Goes this many instructions back: if the value is true, or unless it is true.
    BackIf(u32),
    BackUnless(u32),
    /// Begins a loop; the place is that of its FOR among all FORs. If the loop has no turn, goes to
    /// a place, or skips instructions.
    Open {
        variable: Name,
        place: u32,
        to: u32,
    },
    OpenOrSkip {
        variable: Name,
        place: u32,
        count: u32,
    },
    /// Goes to the next turn: to a place, or this many instructions back.
    Step {
        variable: Name,
        place: u32,
        to: u32,
    },
    StepBack {
        variable: Name,
        place: u32,
        count: u32,
    },
    Gosub {
        home: Home,
        to: u32,
    },
    Return,
    OnGoto(Series<u32>),
    OnGosub {
        home: Home,
        places: Series<u32>,
    },
    /// The handler's line.
    OnError(Option<u16>),
    Resume(Option<u32>),
    Stop(Home),
    End,
    /// Chains to another program: its name is below the line number, which is 0 if there is none.
    Chain,
    /// LSET or RSET: of the last value, or of what another variable contains.
    Justify {
        side: Side,
        name: Name,
    },
    JustifyBy {
        side: Side,
        name: Name,
        by: Name,
    },
    /// Does a statement on files; it takes its operands off the stack.
    Ask(FileAct),
    /// Does a statement of MAT; it takes the factor of an array off the stack, if there is one.
    Matrix(MatrixAct),
    /// Leaves the body of a function.
    Leave,
}

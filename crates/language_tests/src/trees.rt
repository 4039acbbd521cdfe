//! A tree in words: one arm for each form of the grammar.

use basic_tree::{
    ChainLine, Clause, CloseChannel, Expr, FieldPart, FileShape, Function, Line, MatrixValue,
    Modifier, Name, OpenFor, Operator, PrintChannel, PrintItem, Printed, Prompt, Relation,
    Separator, Shape, Statement, Target, UsingItem,
};
use basic_values::Text;

/// The words of a tree that are still expected. A function that puts a word there need not ask each
/// time whether it was the next one.
struct Told {
    rest: &'static [u8],
    is_other: bool,
}

impl Told {
    fn put(&mut self, word: &str) {
        self.bytes(word.as_bytes())
    }

    fn bytes(&mut self, bytes: &[u8]) {
        if self.rest.starts_with(bytes) {
            self.rest = &self.rest[bytes.len()..];
        } else {
            self.is_other = true;
        }
    }

    fn byte(&mut self, byte: u8) {
        match self.rest.split_first() {
            Some((first, rest)) if *first == byte => self.rest = rest,
            _ => self.is_other = true,
        }
    }

    /// Puts the last digit of a number.
    fn digit(&mut self, number: u16) {
        self.byte(b'0' + (number % 10) as u8)
    }
}

/// Puts the bytes of a string, between bars.
fn put_bytes(out: &mut Told, bytes: &[u8]) {
    out.byte(b'|');
    out.bytes(bytes);
    out.byte(b'|')
}

fn put_name(out: &mut Told, name: &Name) {
    out.byte(name.letter);
    if let Some(digit) = name.digit {
        out.byte(digit);
    }
    out.put(if name.text { "$" } else { "%" })
}

fn put_number(out: &mut Told, number: u16) {
    if number > 9999 {
        out.digit(number / 10000);
    }
    if number > 999 {
        out.digit(number / 1000);
    }
    if number > 99 {
        out.digit(number / 100);
    }
    if number > 9 {
        out.digit(number / 10);
    }
    out.digit(number)
}

/// Puts a word, and a name after it.
fn put_named(out: &mut Told, word: &str, name: &Name) {
    out.put(word);
    put_name(out, name)
}

/// Puts a word, and an expression after it.
fn put_worded(out: &mut Told, word: &str, tree: &Expr) {
    out.put(word);
    put_expr(out, tree)
}

/// Puts a word and an expression after it, if there is one.
fn put_behind(out: &mut Told, word: &str, tree: &Option<Expr>) {
    if let Some(tree) = tree {
        put_worded(out, word, tree);
    }
}

fn function_word(function: Function) -> &'static str {
    match function {
        Function::Len => "Len",
        Function::Ascii => "Ascii",
        Function::Left => "Left",
        Function::Right => "Right",
        Function::Mid => "Mid",
        Function::Instr => "Instr",
        Function::Chr => "Chr",
        Function::Space => "Space",
        Function::StringOf => "StringOf",
        Function::Num1 => "Num1",
        Function::Num => "Num",
        Function::Val => "Val",
        Function::CvtToText => "CvtToText",
        Function::CvtToNumber => "CvtToNumber",
        Function::Swap => "Swap",
        Function::Abs => "Abs",
        Function::Sgn => "Sgn",
        Function::Xlate => "Xlate",
        Function::Pos => "Pos",
        Function::Err => "Err",
        Function::Erl => "Erl",
        Function::Recount => "Recount",
        Function::Sys => "Sys",
    }
}

fn operator_word(operator: Operator) -> &'static str {
    match operator {
        Operator::Power => " Power ",
        Operator::Times => " Times ",
        Operator::Divided => " Divided ",
        Operator::Plus => " Plus ",
        Operator::Minus => " Minus ",
        Operator::And => " And ",
        Operator::Or => " Or ",
        Operator::Xor => " Xor ",
        Operator::Imp => " Imp ",
        Operator::Eqv => " Eqv ",
    }
}

fn relation_word(relation: Relation) -> &'static str {
    match relation {
        Relation::Equal => " Equal ",
        Relation::Same => " Same ",
        Relation::Less => " Less ",
        Relation::Greater => " Greater ",
        Relation::LessOrEqual => " LessOrEqual ",
        Relation::GreaterOrEqual => " GreaterOrEqual ",
        Relation::Different => " Different ",
    }
}

/// Puts an expression, with brackets around each operation.
#[cycle(expressions)]
fn put_expr(out: &mut Told, tree: &Expr) {
    match tree {
        Expr::Literal(number) => put_number(out, *number),
        Expr::Quoted(text) => put_bytes(out, text.as_bytes()),
        Expr::Variable(name) => put_name(out, name),
        Expr::Element {
            name,
            first,
            second,
        } => {
            put_name(out, name);
            put_between(out, "[", first, "");
            if let Some(second) = second {
                put_between(out, ",", second, "");
            }
            out.put("]")
        }
        Expr::Function {
            function,
            arguments,
        } => {
            out.put(function_word(*function));
            put_arguments(out, arguments.as_slice())
        }
        Expr::Call { name, arguments } => {
            put_named(out, "FN", name);
            put_arguments(out, arguments.as_slice())
        }
        Expr::Parenthesized(inner) => put_between(out, "(", inner, ")"),
        Expr::Negative(inner) => put_between(out, "[-", inner, "]"),
        Expr::Positive(inner) => put_between(out, "[+", inner, "]"),
        Expr::Not(inner) => put_between(out, "[Not ", inner, "]"),
        Expr::Operation {
            left,
            operator,
            right,
        } => {
            put_between(out, "[", left, operator_word(*operator));
            put_between(out, "", right, "]")
        }
        Expr::Relation {
            left,
            relation,
            right,
        } => {
            put_between(out, "[", left, relation_word(*relation));
            put_between(out, "", right, "]")
        }
    }
}

/// Puts an expression between two strings.
#[cycle(expressions)]
fn put_between(out: &mut Told, front: &str, tree: &Expr, end: &str) {
    out.put(front);
    put_expr(out, tree);
    out.put(end)
}

#[cycle(expressions)]
fn put_arguments(out: &mut Told, arguments: &[Expr]) {
    out.put("[");
    for argument in arguments {
        put_expr(out, argument);
        out.put(",");
    }
    out.put("]")
}

// Parts of statements

fn put_target(out: &mut Told, target: &Target) {
    match target {
        Target::Variable(name) => put_name(out, name),
        Target::Element {
            name,
            first,
            second,
        } => {
            put_name(out, name);
            out.put("[");
            put_expr(out, first);
            put_behind(out, ",", second);
            out.put("]")
        }
    }
}

fn put_targets(out: &mut Told, targets: &[Target]) {
    for target in targets {
        out.put(" ");
        put_target(out, target);
    }
}

fn put_shape(out: &mut Told, shape: &Shape) {
    put_name(out, &shape.name);
    out.put("[");
    put_number(out, shape.first);
    if let Some(second) = shape.second {
        out.put(",");
        put_number(out, second);
    }
    out.put("]")
}

fn put_file_shape(out: &mut Told, shape: &FileShape) {
    put_shape(out, &shape.shape);
    if let Some(size) = shape.size {
        out.put("=");
        put_number(out, size);
    }
}

fn put_separator(out: &mut Told, separator: Separator) {
    out.put(match separator {
        Separator::Comma => ",",
        Separator::Semicolon => ";",
    })
}

fn put_printed(out: &mut Told, printed: &Printed) {
    match printed {
        Printed::Value(tree) => put_worded(out, " ", tree),
        Printed::Tab(tree) => put_worded(out, " TAB ", tree),
    }
}

fn put_print_channel(out: &mut Told, channel: &PrintChannel) {
    put_worded(out, " #", &channel.number);
    if channel.comma {
        out.put(",");
    }
}

fn put_print(
    out: &mut Told,
    channel: &Option<PrintChannel>,
    items: &[PrintItem],
    last: &Option<Printed>,
) {
    out.put("PRINT");
    if let Some(channel) = channel {
        put_print_channel(out, channel);
    }
    for item in items {
        put_printed(out, &item.printed);
        put_separator(out, item.separator);
    }
    if let Some(printed) = last {
        put_printed(out, printed);
    }
}

fn put_input(out: &mut Told, channel: &Option<Expr>, prompt: &Option<Prompt>, targets: &[Target]) {
    out.put("INPUT");
    put_behind(out, " #", channel);
    if let Some(prompt) = prompt {
        out.put(" ");
        put_bytes(out, prompt.text.as_bytes());
        put_separator(out, prompt.separator);
    }
    put_targets(out, targets)
}

fn put_range(out: &mut Told, variable: &Name, from: &Expr, to: &Expr, step: &Option<Expr>) {
    put_set(out, "FOR ", variable, from);
    put_worded(out, " TO ", to);
    put_behind(out, " STEP ", step)
}

fn put_lines(out: &mut Told, word: &str, lines: &[u16]) {
    out.put(word);
    for line in lines {
        out.put(" ");
        put_number(out, *line);
    }
}

/// Puts a word, and a line number or nothing.
fn put_line(out: &mut Told, word: &str, line: Option<u16>) {
    out.put(word);
    if let Some(line) = line {
        out.put(" ");
        put_number(out, line);
    }
}

fn put_chain(out: &mut Told, program: &Expr, line: &Option<ChainLine>) {
    put_worded(out, "CHAIN ", program);
    if let Some(line) = line {
        put_worded(out, if line.word { " LINE " } else { " " }, &line.number);
    }
}

fn put_purpose(out: &mut Told, purpose: OpenFor) {
    match purpose {
        OpenFor::Input => out.put(" FOR INPUT"),
        OpenFor::Output => out.put(" FOR OUTPUT"),
        OpenFor::Either => {}
    }
}

fn put_channels(out: &mut Told, channels: &[CloseChannel]) {
    out.put("CLOSE");
    for channel in channels {
        put_worded(out, if channel.hash { " #" } else { " " }, &channel.number);
    }
}

fn put_fields(out: &mut Told, channel: &Expr, parts: &[FieldPart]) {
    put_worded(out, "FIELD #", channel);
    for part in parts {
        put_worded(out, " ", &part.width);
        put_named(out, " AS ", &part.name);
    }
}

fn put_record(out: &mut Told, word: &str, channel: &Expr, record: &Option<Expr>) {
    put_worded(out, word, channel);
    put_behind(out, " RECORD ", record)
}

/// Puts a word, a name, `=` and a value.
fn put_set(out: &mut Told, word: &str, name: &Name, value: &Expr) {
    put_named(out, word, name);
    put_worded(out, "=", value)
}

fn put_def(out: &mut Told, function: &Name, parameters: &[Name], value: &Option<Expr>) {
    put_named(out, "DEF FN", function);
    for parameter in parameters {
        put_named(out, " ", parameter);
    }
    put_behind(out, " = ", value)
}

fn put_let(out: &mut Told, word: bool, targets: &[Target], value: &Expr) {
    out.put(if word { "LET" } else { "SET" });
    put_targets(out, targets);
    put_worded(out, " = ", value)
}

fn put_modifier(out: &mut Told, modifier: &Modifier) {
    match modifier {
        Modifier::If(tree) => put_worded(out, " IF ", tree),
        Modifier::Unless(tree) => put_worded(out, " UNLESS ", tree),
        Modifier::While(tree) => put_worded(out, " WHILE ", tree),
        Modifier::Until(tree) => put_worded(out, " UNTIL ", tree),
        Modifier::For {
            variable,
            from,
            to,
            step,
        } => {
            out.put(" ");
            put_range(out, variable, from, to, step)
        }
    }
}

fn put_goto(out: &mut Told, apart: bool, line: u16) {
    put_line(out, if apart { "GO TO" } else { "GOTO" }, Some(line))
}

fn put_gosub(out: &mut Told, apart: bool, line: u16) {
    put_line(out, if apart { "GO SUB" } else { "GOSUB" }, Some(line))
}

fn put_on(out: &mut Told, selector: &Expr, word: &str, lines: &[u16]) {
    put_worded(out, "ON ", selector);
    put_lines(out, word, lines)
}

fn put_open(out: &mut Told, file: &Expr, purpose: OpenFor, hash: bool, channel: &Expr) {
    put_worded(out, "OPEN ", file);
    put_purpose(out, purpose);
    put_worded(out, if hash { " AS FILE #" } else { " AS FILE " }, channel)
}

fn put_sizes(out: &mut Told, record: &Option<Expr>, cluster: &Option<Expr>, mode: &Option<Expr>) {
    put_behind(out, " RECORDSIZE ", record);
    put_behind(out, " CLUSTERSIZE ", cluster);
    put_behind(out, " MODE ", mode)
}

fn put_rename(out: &mut Told, old: &Expr, new: &Expr) {
    put_worded(out, "NAME ", old);
    put_worded(out, " AS ", new)
}

fn put_data(out: &mut Told, items: &[Text]) {
    out.put("DATA");
    for item in items {
        out.put(" ");
        put_bytes(out, item.as_bytes());
    }
}

fn put_dim(out: &mut Told, shapes: &[Shape]) {
    out.put("DIM");
    for shape in shapes {
        out.put(" ");
        put_shape(out, shape);
    }
}

fn put_dim_file(out: &mut Told, channel: u16, shapes: &[FileShape]) {
    out.put("DIM #");
    put_number(out, channel);
    for shape in shapes {
        out.put(" ");
        put_file_shape(out, shape);
    }
}

fn put_input_line(out: &mut Told, channel: &Option<Expr>, variable: &Name) {
    out.put("INPUT LINE");
    put_behind(out, " #", channel);
    put_named(out, " ", variable)
}

fn put_read(out: &mut Told, targets: &[Target]) {
    out.put("READ");
    put_targets(out, targets)
}

// Statements

/// Puts loops, jumps, and statements of one word.
fn put_jump(out: &mut Told, statement: &Statement) -> bool {
    match statement {
        Statement::For {
            variable,
            from,
            to,
            step,
        } => put_range(out, variable, from, to, step),
        Statement::Next(name) => put_named(out, "NEXT ", name),
        Statement::FnEnd => out.put("FNEND"),
        Statement::Restore => out.put("RESTORE"),
        Statement::Return => out.put("RETURN"),
        Statement::Stop => out.put("STOP"),
        Statement::End => out.put("END"),
        Statement::Goto { apart, line } => put_goto(out, *apart, *line),
        Statement::Gosub { apart, line } => put_gosub(out, *apart, *line),
        Statement::OnGoto { selector, lines } => put_on(out, selector, " GOTO", lines.as_slice()),
        Statement::OnGosub { selector, lines } => put_on(out, selector, " GOSUB", lines.as_slice()),
        Statement::OnErrorGoto(line) => put_line(out, "ON ERROR GOTO", *line),
        Statement::Resume(line) => put_line(out, "RESUME", *line),
        Statement::Chain { program, line } => put_chain(out, program, line),
        Statement::Sleep(tree) => put_worded(out, "SLEEP ", tree),
        _ => return false,
    }
    true
}

/// Puts statements on files and channels.
fn put_file(out: &mut Told, statement: &Statement) -> bool {
    match statement {
        Statement::Open {
            file,
            purpose,
            hash,
            channel,
            record_size,
            cluster_size,
            mode,
        } => {
            put_open(out, file, *purpose, *hash, channel);
            put_sizes(out, record_size, cluster_size, mode);
        }
        Statement::Close(channels) => put_channels(out, channels.as_slice()),
        Statement::Get { channel, record } => put_record(out, "GET #", channel, record),
        Statement::Put { channel, record } => put_record(out, "PUT #", channel, record),
        Statement::Unlock(channel) => put_worded(out, "UNLOCK #", channel),
        Statement::Field { channel, parts } => put_fields(out, channel, parts.as_slice()),
        Statement::Lset { variable, value } => put_set(out, "LSET ", variable, value),
        Statement::Rset { variable, value } => put_set(out, "RSET ", variable, value),
        Statement::Kill(file) => put_worded(out, "KILL ", file),
        Statement::Rename { old, new } => put_rename(out, old, new),
        _ => return false,
    }
    true
}

/// Puts statements that declare, assign, print or read values.
fn put_value(out: &mut Told, statement: &Statement) -> bool {
    match statement {
        Statement::Data(items) => put_data(out, items.as_slice()),
        Statement::Dim(shapes) => put_dim(out, shapes.as_slice()),
        Statement::DimFile { channel, shapes } => put_dim_file(out, *channel, shapes.as_slice()),
        Statement::Def {
            function,
            parameters,
            value,
        } => put_def(out, function, parameters.as_slice(), value),
        Statement::Let {
            word,
            targets,
            value,
        } => put_let(out, *word, targets.as_slice(), value),
        Statement::Result { function, value } => put_set(out, "FN", function, value),
        Statement::Print {
            channel,
            items,
            last,
        } => put_print(out, channel, items.as_slice(), last),
        Statement::Input {
            channel,
            prompt,
            targets,
        } => put_input(out, channel, prompt, targets.as_slice()),
        Statement::InputLine { channel, variable } => put_input_line(out, channel, variable),
        Statement::Read(targets) => put_read(out, targets.as_slice()),
        _ => return false,
    }
    true
}

fn put_using(
    out: &mut Told,
    channel: &Option<Expr>,
    format: &Expr,
    values: &[UsingItem],
    last: &Option<Expr>,
) {
    out.put("PRINT");
    put_behind(out, " #", channel);
    put_worded(out, " USING ", format);
    for item in values {
        put_worded(out, " ", &item.value);
        put_separator(out, item.separator);
    }
    put_behind(out, " ", last)
}

/// Puts two arrays with a sign between them.
fn put_pair(out: &mut Told, left: &Name, sign: u8, right: &Name) {
    put_name(out, left);
    out.byte(sign);
    put_name(out, right)
}

fn put_matrix(out: &mut Told, value: &MatrixValue) {
    match value {
        MatrixValue::Zero => out.put("ZER"),
        MatrixValue::One => out.put("CON"),
        MatrixValue::Identity => out.put("IDN"),
        MatrixValue::Copy(name) => put_name(out, name),
        MatrixValue::Sum(left, right) => put_pair(out, left, b'+', right),
        MatrixValue::Difference(left, right) => put_pair(out, left, b'-', right),
        MatrixValue::Product(left, right) => put_pair(out, left, b'*', right),
        MatrixValue::Scaled { factor, matrix } => {
            put_worded(out, "(", factor);
            put_named(out, ")*", matrix)
        }
        MatrixValue::Transposed(name) => put_named(out, "TRN ", name),
    }
}

fn put_mat_read(out: &mut Told, names: &[Name]) {
    out.put("MAT READ");
    for name in names {
        put_named(out, " ", name);
    }
}

fn put_mat_print(out: &mut Told, matrix: &Name, separator: Option<Separator>) {
    put_named(out, "MAT PRINT ", matrix);
    if let Some(separator) = separator {
        put_separator(out, separator);
    }
}

fn put_mat_let(out: &mut Told, target: &Name, value: &MatrixValue) {
    put_named(out, "MAT ", target);
    out.put("=");
    put_matrix(out, value)
}

/// Puts PRINT USING and statements on whole arrays.
fn put_array(out: &mut Told, statement: &Statement) -> bool {
    match statement {
        Statement::PrintUsing {
            channel,
            format,
            values,
            last,
        } => put_using(out, channel, format, values.as_slice(), last),
        Statement::MatRead(names) => put_mat_read(out, names.as_slice()),
        Statement::MatPrint { matrix, separator } => put_mat_print(out, matrix, *separator),
        Statement::MatLet { target, value } => put_mat_let(out, target, value),
        _ => return false,
    }
    true
}

/// Puts a statement that contains no other statement.
fn put_simple(out: &mut Told, statement: &Statement) {
    if !(put_jump(out, statement) || put_file(out, statement) || put_array(out, statement)) {
        put_value(out, statement);
    }
}

/// Puts a word, and a clause in braces after it.
#[cycle(statements)]
fn put_clause(out: &mut Told, word: &str, clause: &Clause) {
    out.put(word);
    match clause {
        Clause::Line(line) => put_number(out, *line),
        Clause::Statement(statement) => put_statement(out, statement),
    }
    out.put("}")
}

/// Puts a statement, with braces around statements inside it.
#[cycle(statements)]
fn put_statement(out: &mut Told, statement: &Statement) {
    match statement {
        Statement::IfThen {
            condition,
            clause,
            otherwise,
        } => {
            put_worded(out, "IF ", condition);
            put_clause(out, " THEN {", clause);
            if let Some(clause) = otherwise {
                put_clause(out, " ELSE {", clause);
            }
        }
        Statement::IfGoto {
            condition,
            line,
            otherwise,
        } => {
            put_worded(out, "IF ", condition);
            put_line(out, " GOTO", Some(*line));
            if let Some(clause) = otherwise {
                put_clause(out, " ELSE {", clause);
            }
        }
        Statement::Modified {
            statement,
            modifier,
        } => {
            out.put("{");
            put_statement(out, statement);
            out.put("}");
            put_modifier(out, modifier)
        }
        other => put_simple(out, other),
    }
}

/// Returns whether the statements of a line, each after a colon, are put as these words.
pub(crate) fn is_told(line: &Line, words: &'static str) -> bool {
    let mut out = Told {
        rest: words.as_bytes(),
        is_other: false,
    };
    for statement in line.statements.as_slice() {
        out.byte(b':');
        put_statement(&mut out, statement);
    }
    let Told { rest, is_other } = out;
    rest.is_empty() && !is_other
}

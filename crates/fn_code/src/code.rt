use cv_keys::Schema;
use cv_values::{Seq, Text};
use fn_tree::{BinaryOp, Builtin, CompareOp, Kind, UnaryOp};

/// Where an operand is.
#[derive(Clone, Copy, Debug, PartialEq, Eq)]
pub enum Source {
    /// On top of the stack, from where it is taken.
    Top,
    /// In the variable of this number, where it stays.
    Slot(u64),
}

/// One instruction. A stack has the values that aren't used yet, the last one on top; variables are
/// numbered in the order in which they were declared. Jumps count the instructions that are left out. What
/// goes back or begins a function costs one unit, so that each run ends.
#[derive(Debug, Drop)]
pub enum Instr {
    /// One unit of cost.
    Spend,
    /// A value goes onto the stack.
    Int(i64),
    Str(Text),
    Truth(bool),
    Null,
    /// A copy of a variable's value goes onto the stack.
    Load(u64),
    /// The top becomes a new variable.
    Declare,
    /// The top becomes a variable's value.
    Store(u64),
    /// The top is dropped.
    Discard,
    /// Only so many variables are kept.
    Forget(u64),
    /// Goes on behind so many instructions.
    Jump(u64),
    /// Takes a truth value, and where it is false goes on behind so many instructions.
    Branch(u64),
    /// Where the truth value on top is this one, it stays and the run goes on behind so many
    /// instructions; else it is dropped.
    Decide(bool, u64),
    /// The top has to be a truth value.
    AsTruth,
    /// Takes an array, whose items are to come in turn.
    Items,
    /// Ends one turn of a loop. For one unit of cost the next item becomes a new variable, and the run goes
    /// on so many instructions before this one; where there is none, the loop is over.
    Turn(u64),
    /// Calls the function of a number with so many values, for one unit of cost.
    Call(u64, u64),
    /// Gives the top back to the caller.
    Return,
    /// Ends the run with the string on top.
    Throw,
    /// Ends the run with a `TypeError`.
    Fail,
    /// An array of so many values.
    Array(u64),
    /// An object of values under these names.
    Object(Seq<Text>),
    Builtin(Builtin, Seq<Source>),
    Field(Source, Text),
    Item(Source, Source),
    Unary(UnaryOp, Source),
    Binary(BinaryOp, Source, Source),
    /// Reads the rows of an index, by its table's number and its own, with bounds by these operators;
    /// downwards or not, up to a limit that is on top or without one.
    Scan {
        table: u16,
        index: u16,
        bounds: Seq<CompareOp>,
        desc: bool,
        limited: bool,
    },
    /// The top has to be a number of rows.
    AsLimit,
    Get,
    Now,
    /// Inserts the object on top into the table of a number.
    Insert(u16),
    Delete,
    Patch,
    Replace,
}

/// Where the code of a function begins.
#[derive(Debug, Drop)]
pub struct Entry {
    pub kind: Kind,
    pub udf: Text,
    pub params: Seq<Text>,
    pub at: u64,
}

/// The code of a module: its tables, its functions in order, and all their instructions.
#[derive(Drop)]
pub struct Code {
    pub schema: Schema,
    pub entries: Seq<Entry>,
    pub instrs: Seq<Instr>,
}

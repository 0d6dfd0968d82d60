ghost use Rattle.std.specs.Prelude.{◌≡◌, IfOk};
ghost use Rattle.fn_tree.specs.SyntaxViews.{expr_view, form_view, bound_view, stmt_view, act_view};
ghost use Rattle.fn_tree.specs.SyntaxTree as plain;

use cv_values::{Memory, Text};
use std::alloc::Global;

/// A name in a text: its place in bytes, what it says, and whether it was written as a string.
#[derive(Debug, Drop)]
pub struct Named {
    pub at: u64,
    pub text: Text,
    pub quoted: bool,
}

/// A module: its tables, then its functions, in the order of the text.
#[derive(Drop)]
pub struct Module {
    pub tables: Vec<TableDecl>,
    pub functions: Vec<Function>,
}

/// A table with its declared indexes.
#[derive(Debug, Drop)]
pub struct TableDecl {
    pub name: Named,
    pub indexes: Vec<IndexDecl>,
}

/// An index with its fields.
#[derive(Debug, Drop)]
pub struct IndexDecl {
    pub name: Named,
    pub fields: Vec<Named>,
}

/// What a function is.
#[derive(Clone, Copy, Debug, PartialEq, Eq)]
pub enum Kind {
    Query,
    Mutation,
    Helper,
}

/// A function. `udf` is its path, or a helper's name; `at` is the place of that.
#[derive(Drop)]
pub struct Function {
    pub kind: Kind,
    pub udf: Text,
    pub params: Vec<Named>,
    pub body: Vec<Stmt>,
    pub at: u64,
}

/// A statement, with the place of its first token.
#[cycle(stmt)]
#[derive(Drop)]
pub struct Stmt {
    pub at: u64,
    pub form: StmtForm,
}

/// What a statement is.
#[cycle(stmt)]
#[derive(Drop)]
pub enum StmtForm {
    Let(Named, Expr),
    Assign(Named, Expr),
    Eval(Expr),
    If(Expr, Vec<Stmt>, Option<Vec<Stmt>>),
    For(Named, Expr, Vec<Stmt>),
    Return(Expr),
    Throw(Expr),
}

/// An expression, with the place of its first token.
#[cycle(expr)]
#[derive(Drop)]
pub struct Expr {
    pub at: u64,
    pub form: Box<ExprForm>,
}

/// What an expression is. Round brackets stay in the tree, as a group.
#[cycle(expr)]
#[derive(Drop)]
pub enum ExprForm {
    Int(i64),
    Str(Text),
    True,
    False,
    Null,
    Var(Text),
    Call(Text, Vec<Expr>),
    Builtin(Builtin, Vec<Expr>),
    Array(Vec<Expr>),
    Object(Vec<(Named, Expr)>),
    Group(Expr),
    Scan {
        table: Named,
        index: Named,
        bounds: Vec<BoundExpr>,
        desc: bool,
        take: Option<Expr>,
    },
    Count(Named),
    Get(Expr),
    Now,
    Insert(Named, Expr),
    Delete(Expr),
    Patch(Expr, Expr),
    Replace(Expr, Expr),
    Field(Expr, Named),
    Item(Expr, Expr),
    Unary(UnaryOp, Expr),
    Binary(BinaryOp, Expr, Expr),
}

/// A bound of a scan: a field compared with a value.
#[cycle(expr)]
#[derive(Drop)]
pub struct BoundExpr {
    pub field: Named,
    pub op: CompareOp,
    pub value: Expr,
}

/// A comparison.
#[derive(Clone, Copy, Debug, PartialEq, Eq)]
pub enum CompareOp {
    Equal,
    NotEqual,
    Less,
    LessEqual,
    Greater,
    GreaterEqual,
}

/// An operator before its operand.
#[derive(Clone, Copy, Debug, PartialEq, Eq)]
pub enum UnaryOp {
    Negate,
    Not,
}

/// An operator between two operands.
#[derive(Clone, Copy, Debug, PartialEq, Eq)]
pub enum BinaryOp {
    Or,
    And,
    Compare(CompareOp),
    Add,
    Subtract,
    Multiply,
    Divide,
    Remainder,
}

/// An operation that is called by a reserved word.
#[derive(Clone, Copy, Debug, PartialEq, Eq)]
pub enum Builtin {
    Len,
    Has,
    Push,
    Set,
    Without,
    Slice,
    Range,
    Show,
    Keys,
}

impl Expr {
    /// The expression of a form at a place, with the form in memory of its own.
    pub fn new(alloc: Global, at: u64, form: ExprForm) -> Result<Expr, Memory>
        ensures { IfOk result (λ e. expr_view e ≡ plain.expr at (form_view form)) }
    {
        Ok(Expr {
            at,
            form: Box::new(alloc, form)?,
        })
    }
}

impl BoundExpr {
    /// The bound that compares a field with a value.
    pub fn new(field: Named, op: CompareOp, value: Expr) -> BoundExpr
        ensures { bound_view result ≡ (field, op, expr_view value) }
    {
        BoundExpr { field, op, value }
    }
}

impl Stmt {
    /// The statement of a form at a place.
    pub fn new(at: u64, form: StmtForm) -> Stmt
        ensures { stmt_view result ≡ plain.stmt at (act_view form) }
    {
        Stmt { at, form }
    }
}

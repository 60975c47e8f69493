//! The syntax tree of a module (Language Manual, appendix on syntax): one variant for each production of the grammar in
//! docs/LANGUAGE.md, with runs of operators and of suffixes as lists, so that no tree is nested deeper than the grammar's
//! limit. A place is kept where a refusal of the checker may need it.

pub use held_trees::mesa_base::Relation;
use held_trees::mesa_base::{Boxed, Bytes, Identifier, Identifiers, List, Place, Placed};

/// A name, or a name of an interface: `x`, `I.x`.
#[derive(Drop)]
pub struct QualifiedName {
    pub first: Identifier,
    pub second: Option<Identifier>,
}

/// What stands behind one key, as in `[x: 1, y: 2]`.
#[derive(Drop)]
pub struct Keyed<T> {
    pub key: Identifier,
    pub item: T,
}

/// What stands behind labels: the type of fields, a declaration, or the statement of an exit.
#[derive(Drop)]
pub struct Labeled<L, T> {
    pub labels: L,
    pub item: T,
}

/// The items of a bracket list, in order or each with its key.
#[derive(Drop)]
pub enum Entries<T> {
    Nothing,
    InOrder(List<T>),
    ByKey(List<Keyed<T>>),
}

/// Which signals an arm takes: all, none but a passing jump, or those named.
#[derive(Drop)]
pub enum Labels {
    Any(Place),
    Unwind(Place),
    Signals(List<QualifiedName>),
}

/// How a loop was left: by one of these labels, or at its end.
#[derive(Drop)]
pub enum RepeatLabels {
    Named(Identifiers),
    Finished(Place),
}

/// The operators whose runs associate to the left.
#[derive(Clone, Copy)]
pub enum Operator {
    Or,
    And,
    Add,
    Subtract,
    Multiply,
    Divide,
    Modulo,
}

#[derive(Clone, Copy)]
pub enum Sign {
    Positive,
    Negative,
}

#[derive(Clone, Copy)]
pub enum Access {
    Public,
    Private,
}

/// What an interval's bounds are of, where a type says so: `INTEGER [0..9]`.
#[derive(Drop)]
pub enum TypeBase {
    Unsaid,
    OfInteger(Place),
    OfCardinal(Place),
    OfCharacter(Place),
    OfName(QualifiedName),
}

pub type TypeExps = List<TypeExp>;

pub type Exprs = List<Expr>;

pub type Operations = List<Operation>;

pub type Suffixes = List<Suffix>;

pub type Arms = List<Arm>;

pub type Tests = List<Test>;

pub type Cases = List<Case>;

pub type Statements = List<Statement>;

pub type Local = Labeled<Identifiers, PlainItem>;

pub type Locals = List<Local>;

pub type Exit = Labeled<Identifiers, Statement>;

pub type Exits = List<Exit>;

pub type Repeat = Labeled<RepeatLabels, Statement>;

pub type Repeats = List<Repeat>;
/// The arms of a catch phrase, at its `!` or ENABLE.
pub type Phrase = Placed<Arms>;
/// Values in brackets, at the bracket.
pub type ListExpr = Placed<Entries<Expr>>;

/// A type as it is written.
#[cycle(syntax)]
#[derive(Drop)]
pub enum TypeExp {
    Integer(Place),
    Cardinal(Place),
    /// At the word LONG.
    LongInteger(Place),
    LongCardinal(Place),
    Boolean(Place),
    Character(Place),
    String(Place),
    Called(QualifiedName),
    Enumeration(Place, Identifiers),
    Subrange(TypeBase, Interval),
    Array(Place, Boxed<TypeExp>, Boxed<TypeExp>),
    Record(Place, FieldList),
}

/// The fields of a record or the parameters of a procedure, with names or without.
#[cycle(syntax)]
#[derive(Drop)]
pub enum FieldList {
    WithNames(List<Labeled<Identifiers, TypeExp>>),
    Unnamed(TypeExps),
}

/// From one bound to another, at its bracket; an open end leaves its bound out.
#[cycle(syntax)]
#[derive(Drop)]
pub struct Interval {
    pub place: Place,
    pub is_open_below: bool,
    pub low: Boxed<Expr>,
    pub high: Boxed<Expr>,
    pub is_open_above: bool,
}

/// An expression. A run has one operator or more, all of one level, each with the operand to its right.
#[cycle(syntax)]
#[derive(Drop)]
pub enum Expr {
    Run(Boxed<Expr>, Operations),
    Not(Place, Boxed<Expr>),
    /// Negated where NOT stands before the relation.
    Compare {
        left: Boxed<Expr>,
        is_negated: bool,
        relation: Relation,
        place: Place,
        right: Boxed<Expr>,
    },
    /// Negated where NOT stands before IN.
    Within {
        value: Boxed<Expr>,
        is_negated: bool,
        place: Place,
        interval: Interval,
    },
    Signed(Sign, Place, Boxed<Expr>),
    NumberLiteral(Place, u32),
    CharacterLiteral(Place, u8),
    StringLiteral(Place, Bytes),
    Truth(Place, bool),
    Parenthesis(Place, Boxed<Expr>),
    Reference(Left),
    Constructor(ListExpr),
    Raised(Boxed<Raise>),
}

/// An operator of a run, where it stands, and the operand to its right.
#[cycle(syntax)]
#[derive(Drop)]
pub struct Operation {
    pub operator: Operator,
    pub place: Place,
    pub right: Expr,
}

/// A name with what follows it: fields, and brackets that index, call or construct.
#[cycle(syntax)]
#[derive(Drop)]
pub struct Left {
    pub name: Identifier,
    pub suffixes: Suffixes,
}

#[cycle(syntax)]
#[derive(Drop)]
pub enum Suffix {
    Field(Identifier),
    Applied(Brackets),
}

/// Values in brackets with a catch phrase, at the bracket.
#[cycle(syntax)]
#[derive(Drop)]
pub struct Brackets {
    pub place: Place,
    pub items: Entries<Expr>,
    pub catch: Option<Phrase>,
}

/// A raise, at its word; only ERROR may stand without a name.
#[cycle(syntax)]
#[derive(Drop)]
pub enum Raise {
    SignalRaise(Place, QualifiedName, Option<Brackets>),
    ErrorRaise(Place, QualifiedName, Option<Brackets>),
    UnnamedError(Place),
}

/// An arm of a catch phrase.
#[cycle(syntax)]
#[derive(Drop)]
pub struct Arm {
    pub labels: Labels,
    pub body: Statement,
}

/// A statement, at its first token, but a loop, which is at its DO; `first_place` gives the first token's place for each.
#[cycle(syntax)]
#[derive(Drop)]
pub enum Statement {
    Null(Place),
    Nested(Block),
    Assign(Left, Expr),
    Extract(Place, Entries<Left>, Expr),
    Call(Left),
    RaiseStatement(Boxed<Raise>),
    If(Place, Expr, Boxed<Statement>, Option<Boxed<Statement>>),
    Select(Place, Expr, Cases, Option<Boxed<Statement>>),
    Loop(Boxed<Control>, Place, Option<Phrase>, Statements, Repeats),
    ExitLoop(Place),
    NextTurn(Place),
    Goto(Place, Identifier),
    Return(Place, Option<ListExpr>),
    Resume(Place, Option<ListExpr>),
    Reject(Place),
    Retry(Place),
    Continue(Place),
}

/// What stands before a loop's DO.
#[cycle(syntax)]
#[derive(Drop)]
pub struct Control {
    pub count: Option<Count>,
    pub condition: Option<Condition>,
}

#[cycle(syntax)]
#[derive(Drop)]
pub enum Count {
    For {
        place: Place,
        variable: Identifier,
        is_decreasing: bool,
        interval: Interval,
    },
    Through(Place, Interval),
}

#[cycle(syntax)]
#[derive(Drop)]
pub enum Condition {
    While(Place, Expr),
    Until(Place, Expr),
}

#[cycle(syntax)]
#[derive(Drop)]
pub struct Case {
    pub tests: Tests,
    pub body: Statement,
}

#[cycle(syntax)]
#[derive(Drop)]
pub enum Test {
    Value(Expr),
    Compared {
        is_negated: bool,
        relation: Relation,
        place: Place,
        right: Expr,
    },
    Inside {
        is_negated: bool,
        place: Place,
        interval: Interval,
    },
}

/// A block, at its BEGIN or brace.
#[cycle(syntax)]
#[derive(Drop)]
pub struct Block {
    pub place: Place,
    pub enable: Option<Phrase>,
    pub locals: Locals,
    pub statements: Statements,
    pub exits: Exits,
}

/// A type, variable or constant as it is declared.
#[cycle(syntax)]
#[derive(Drop)]
pub enum PlainItem {
    TypeIs(TypeExp),
    Variable(TypeExp),
    Initial(TypeExp, Expr),
    Constant(TypeExp, Expr),
}

/// Parameters and results of a procedure or signal; None for none, with or without brackets.
#[derive(Drop)]
pub struct Head {
    pub takes: Option<FieldList>,
    pub gives: Option<FieldList>,
}

/// What a declaration of a program declares its names to be.
#[derive(Drop)]
pub enum Declared {
    Procedure(Head, Block),
    Signal(Head),
    Error(Option<FieldList>),
    Data(PlainItem),
}

/// Names that are declared together.
#[derive(Drop)]
pub struct Declaration {
    pub names: Identifiers,
    pub access: Option<Access>,
    pub declared: Declared,
}

pub type Declarations = List<Declaration>;

/// What stands between the BEGIN and END of a program, behind OPEN.
#[derive(Drop)]
pub struct Inner {
    pub enable: Option<Phrase>,
    pub declarations: Declarations,
    pub statements: Statements,
    pub exits: Exits,
}

/// What an interface declares names to be.
#[derive(Drop)]
pub enum Defined {
    ProcedureItem(Head),
    SignalItem(Head),
    ErrorItem(Option<FieldList>),
    TypeItem(TypeExp),
    ConstantItem(TypeExp, Expr),
}

pub type Definitions = List<Labeled<Identifiers, Defined>>;

/// A program or an interface, at its word.
#[derive(Drop)]
pub enum ModuleKind {
    Program {
        place: Place,
        imports: Identifiers,
        exports: Identifiers,
        opens: Identifiers,
        inner: Inner,
    },
    Interface {
        place: Place,
        opens: Identifiers,
        definitions: Definitions,
    },
}

/// An interface that a module names, the string that says its file and where that stands, and the names of the interface
/// that the module may use.
#[derive(Drop)]
pub struct DirectoryItem {
    pub name: Identifier,
    pub file_place: Place,
    pub file: Bytes,
    pub used: Option<Identifiers>,
}

pub type Directory = List<DirectoryItem>;

#[derive(Drop)]
pub struct Module {
    pub directory: Directory,
    pub name: Identifier,
    pub kind: ModuleKind,
}

// Operators, numbered in the Rust's order, and their tests.
#![tactic(auto)]

ghost use Rattle.std.specs.Prelude.{◌≡◌};
ghost use Rattle.operator.specs.Operators.{coded_of, is_comparison, is_logical_op, is_carried};

#[derive(Clone, Copy, Debug, PartialEq, Eq)]
pub enum Operator {
    Add,
    And,
    Atan2,
    Default,
    Div,
    Eql,
    Mod,
    Mul,
    Pow,
    Sub,
    Gt,
    Gte,
    If,
    IfNot,
    Lt,
    Lte,
    NotEq,
    Or,
    Unless,
}

// A byte that stands for no operator.
#[derive(Clone, Copy, Debug, PartialEq, Eq)]
pub struct UnknownOperator(pub u8);

impl Operator {
    // The label under which a series' name is listed, looked up and set.
    pub const METRIC_NAME: [u8; 8] = *b"__name__";

    pub const MAX_SERIES: usize = 512;

    pub const MAX_POINTS: usize = 1024;

    pub const MAX_TAGS: usize = 32;

    // The labels of a query's list.
    pub const MAX_LISTED: usize = 32;

    pub const MAX_LABEL_BYTES: usize = 65535;

    // The bytes of a vector's sizes, at the start of its label part.
    pub const SIZES_LENGTH: usize = 18;

    // The latest start of a grid, in milliseconds: 2 to the 52nd.
    pub const MAX_START: usize = 4503599627370496;

    // The longest step of a grid, in milliseconds: a day.
    pub const MAX_STEP: usize = 86400000;

    // The most overlapping places that a merge may allow.
    pub const MAX_ALLOWANCE: usize = 8;

    pub fn is_comparison(self) -> bool
        ensures { result ≡ is_comparison self }
    {
        matches!(
            self,
            Operator::Eql
                | Operator::Gt
                | Operator::Gte
                | Operator::Lt
                | Operator::Lte
                | Operator::NotEq
        )
    }

    pub fn is_logical_op(self) -> bool
        ensures { result ≡ is_logical_op self }
    {
        matches!(
            self,
            Operator::And
                | Operator::Default
                | Operator::If
                | Operator::IfNot
                | Operator::Or
                | Operator::Unless
        )
    }

    // Whether calls run the operator: no quote takes a power or an angle.
    pub fn is_carried(self) -> bool
        ensures { result ≡ is_carried self }
    {
        !matches!(self, Operator::Atan2 | Operator::Pow)
    }
}

// An operator by the byte of a query that stands for it.
impl TryFrom<u8> for Operator {
    type Error = UnknownOperator;

    ghost try_from_gives = { λ b r. r ≡ coded_of b };

    fn try_from(b: u8) -> Result<Self, UnknownOperator> {
        match b {
            0 => Ok(Operator::Add),
            1 => Ok(Operator::And),
            2 => Ok(Operator::Atan2),
            3 => Ok(Operator::Default),
            4 => Ok(Operator::Div),
            5 => Ok(Operator::Eql),
            6 => Ok(Operator::Mod),
            7 => Ok(Operator::Mul),
            8 => Ok(Operator::Pow),
            9 => Ok(Operator::Sub),
            10 => Ok(Operator::Gt),
            11 => Ok(Operator::Gte),
            12 => Ok(Operator::If),
            13 => Ok(Operator::IfNot),
            14 => Ok(Operator::Lt),
            15 => Ok(Operator::Lte),
            16 => Ok(Operator::NotEq),
            17 => Ok(Operator::Or),
            18 => Ok(Operator::Unless),
            _ => Err(UnknownOperator(b)),
        }
    }
}

// The constant table that a query's operator byte indexes.
ghost use Rattle.std.specs.Prelude.{◌≡◌};
ghost use Rattle.std.specs.Option.{option_map};
ghost use Rattle.query.specs.operator_table.Table.{said, table_row};

// A row of the table.
#[derive(Clone, Copy)]
pub(crate) struct OperatorRow {
    pub spelling: &'static str,
    pub comparison: bool,
    pub logical: bool,
    pub carried: bool,
}

const OPERATORS: [OperatorRow; 19] = [
    OperatorRow {
        spelling: "+",
        comparison: false,
        logical: false,
        carried: true,
    },
    OperatorRow {
        spelling: "and",
        comparison: false,
        logical: true,
        carried: true,
    },
    OperatorRow {
        spelling: "atan2",
        comparison: false,
        logical: false,
        carried: false,
    },
    OperatorRow {
        spelling: "default",
        comparison: false,
        logical: true,
        carried: true,
    },
    OperatorRow {
        spelling: "/",
        comparison: false,
        logical: false,
        carried: true,
    },
    OperatorRow {
        spelling: "==",
        comparison: true,
        logical: false,
        carried: true,
    },
    OperatorRow {
        spelling: "%",
        comparison: false,
        logical: false,
        carried: true,
    },
    OperatorRow {
        spelling: "*",
        comparison: false,
        logical: false,
        carried: true,
    },
    OperatorRow {
        spelling: "^",
        comparison: false,
        logical: false,
        carried: false,
    },
    OperatorRow {
        spelling: "-",
        comparison: false,
        logical: false,
        carried: true,
    },
    OperatorRow {
        spelling: ">",
        comparison: true,
        logical: false,
        carried: true,
    },
    OperatorRow {
        spelling: ">=",
        comparison: true,
        logical: false,
        carried: true,
    },
    OperatorRow {
        spelling: "if",
        comparison: false,
        logical: true,
        carried: true,
    },
    OperatorRow {
        spelling: "ifnot",
        comparison: false,
        logical: true,
        carried: true,
    },
    OperatorRow {
        spelling: "<",
        comparison: true,
        logical: false,
        carried: true,
    },
    OperatorRow {
        spelling: "<=",
        comparison: true,
        logical: false,
        carried: true,
    },
    OperatorRow {
        spelling: "!=",
        comparison: true,
        logical: false,
        carried: true,
    },
    OperatorRow {
        spelling: "or",
        comparison: false,
        logical: true,
        carried: true,
    },
    OperatorRow {
        spelling: "unless",
        comparison: false,
        logical: true,
        carried: true,
    },
];

// The table's row for an operator byte; a byte above 18 has none.
pub(crate) fn operator_row(b: u8) -> Option<OperatorRow>
    ensures { option_map said result ≡ table_row b }
{
    OPERATORS.get(usize::from(b)).copied()
}

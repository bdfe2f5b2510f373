//! The table of worked cases.
ghost use Rattle.std.specs.Prelude.{◌≡◌, length};
ghost use Rattle.cases.specs.Table.{TableHolds, table};

/// How many worked cases the table has. Each of them is what the definitions give.
pub fn worked_cases() -> usize
    ensures count { result ≡ length table }
    ensures holds { TableHolds }
{
    3
}

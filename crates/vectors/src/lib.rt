#![tactic(auto)]

// The worked examples of the definitions, proved as one table; and tests with values that a second implementation worked out.
ghost use Rattle.std.specs.Prelude.{◌≡◌, true, length};
ghost use Rattle.vectors.specs.Examples.{all_hold, table};

// The number of worked examples, all of which hold.
pub fn worked_examples() -> usize
    ensures hold { all_hold table ≡ true }
    ensures count { result ≡ length table }
{
    16
}

#[cfg(test)]
mod tests;

//! The names of a churn's rows.
ghost use Rattle.std.specs.Prelude.{◌≡◌, IfOk};
ghost use Rattle.sg_platform_churn.specs.Generated.{churn_name};

use sg_base::{Memory, Text};
use std::alloc::Global;

/// Returns the name of the row of this number: a letter, and the number from 1 on.
pub fn row_name(alloc: Global, letter: &str, row: u16) -> Result<Text, Memory>
    ensures { IfOk result (λ name. name ≡ churn_name letter.now row) }
{
    let number = u32::from(row) + 1;
    let name = format!(in alloc; "{letter}{number}")?;
    Text::new(alloc, name.as_str())
}

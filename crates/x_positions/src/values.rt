//! Positions and ranges as JSON.

ghost use Rattle.std.specs.Prelude.{◌≡◌, IfOk};
ghost use Rattle.serde_json.specs.View.{view};
ghost use Rattle.x_positions.specs.PositionData.{position_data, range_data};

use crate::positions::Position;
use crate::range::Range;
use serde_json::{Value, json};
use std::alloc::{AllocError, Global};

/// A range, as LSP writes it.
///
/// # Errors
///
/// [`AllocError`] where the value could not grow.
pub fn range_value(alloc: Global, range: &Range) -> Result<Value, AllocError>
    ensures { IfOk result (λ v. view v ≡ range_data range.now.start range.now.end) }
{
    let start = position_value(alloc, &range.start)?;
    let end = position_value(alloc, &range.end)?;
    json!(in alloc; {"start": start, "end": end})
}

fn position_value(alloc: Global, position: &Position) -> Result<Value, AllocError>
    ensures { IfOk result (λ v. view v ≡ position_data position.now) }
{
    let line = position.line;
    let character = position.character;
    json!(in alloc; {"line": line, "character": character})
}

//! Levels, as columns keep them.
ghost use Rattle.std.specs.Prelude.{◌≡◌, IfOk, pos};
ghost use Rattle.opc_names.specs.Authority.{level_rank};
ghost use Rattle.sqlite.specs.Order.{column};
ghost use Rattle.sqlite.specs.declared.types.Value.TheVariants.{Int};
ghost use Rattle.opc_names.specs.declared.level.Level.{Level as TheLevel};

use opc_names::level::Level;
use opc_store_schema::columns::value_in;
use opc_store_schema::faults::unreadable;
use opc_terms::store_fault::StoreFault;
use sqlite::Row;

pub(crate) fn rank_of(level: Level) -> u32
    ensures { result ≡ level_rank level }
{
    match level {
        Level::None => 0,
        Level::Read => 1,
        Level::Update => 2,
        Level::Control => 3,
        Level::Alter => 4,
    }
}

pub(crate) fn level_in(row: &Row, at: usize) -> Result<Level, StoreFault>
    ensures { (level : TheLevel) → column row.now at ≡ Int (pos (level_rank level)) → IfOk result (λ v. v ≡ level) }
{
    match value_in::<u32>(row, at)? {
        0 => Ok(Level::None),
        1 => Ok(Level::Read),
        2 => Ok(Level::Update),
        3 => Ok(Level::Control),
        4 => Ok(Level::Alter),
        // Only damaged tables have another number.
        _ => Err(unreadable()),
    }
}

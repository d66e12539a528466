//! The laws of what tables represent.
ghost use Rattle.opc_store_schema.specs.Laws.{TablesDetermineTheState};

/// Tables represent one state alone: no two states have the same rows.
pub fn tables_determine_the_state()
    ensures { TablesDetermineTheState }
{}

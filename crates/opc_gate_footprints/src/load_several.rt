//! Parts of a board that has the rows of one unit or one user, or several rows.
ghost use Rattle.std.specs.Prelude.{◌≡◌, true};
ghost use Rattle.opc_board.specs.History.{without_history};
ghost use Rattle.opc_board.specs.Footprint.{HasLeaving};
ghost use Rattle.opc_state.specs.Asked.{Loads};
ghost use Rattle.opc_gate_footprints.specs.BoardKeys.{HasMasters, HasConsolesOf};
ghost use Rattle.opc_gate_footprints.specs.Loading.{IsUnitOf, LoadsFirst, LoadsMore};

use crate::load_one::{load_console, load_device, load_unit, load_unit_once};
use opc_board::board::BoardRows;
use opc_board::replies::session_of;
use opc_board::rows::UnitRow;
use opc_names::name::{ConsoleName, Device, UnitName, UserId};
use opc_state::tables::Tables;
use opc_terms::store_fault::StoreFault;
use std::alloc::Global;

/// Adds a unit, which may be loaded already, and the devices that it has.
pub(crate) fn load_leaving<T: Tables>(
    tables: &mut T,
    alloc: Global,
    part: &mut BoardRows,
    name: &UnitName,
    loaded: Option<UnitRow>,
) -> Result<(), StoreFault>
    ensures { Loads T.meaning tables.old tables.new result
        (λ s _. IsUnitOf s loaded
        → LoadsFirst s part.old part.new (λ footprint. HasLeaving footprint (without_history s.board) name.now)) }
{
    part.devices = tables.devices_of(alloc, name)?;
    load_unit_once(tables, part, name, loaded)
}

/// Adds a console, and two masters if there are that many.
pub(crate) fn load_varied<T: Tables>(
    tables: &mut T,
    alloc: Global,
    part: &mut BoardRows,
    name: &ConsoleName,
) -> Result<(), StoreFault>
    ensures { Loads T.meaning tables.old tables.new result
        (λ s _. LoadsFirst s part.old part.new
        (λ footprint. (footprint.consoles name.now ≡ true) × HasMasters footprint (without_history s.board))) }
{
    part.consoles = tables.masters(alloc)?;
    load_console(tables, part, name)
}

/// Adds a user's session, and the consoles where the user is logged on.
pub(crate) fn load_addressed<T: Tables>(
    tables: &mut T,
    alloc: Global,
    part: &mut BoardRows,
    user: &UserId,
) -> Result<(), StoreFault>
    ensures { Loads T.meaning tables.old tables.new result
        (λ s _. LoadsFirst s part.old part.new
        (λ footprint. (footprint.units user.now ≡ true) × HasConsolesOf footprint (without_history s.board) user.now)) }
{
    part.consoles = tables.consoles_of(alloc, user)?;
    load_unit(tables, part, &session_of(user))
}

pub(crate) fn load_swapped<T: Tables>(
    tables: &mut T,
    part: &mut BoardRows,
    from: &Device,
    to: &Device,
) -> Result<(), StoreFault>
    ensures { Loads T.meaning tables.old tables.new result
        (λ s _. LoadsMore s part.old part.new
        (λ footprint. (footprint.devices from.now ≡ true) × (footprint.devices to.now ≡ true))) }
{
    load_device(tables, part, from)?;
    load_device(tables, part, to)
}

pub(crate) fn load_taken<T: Tables>(
    tables: &mut T,
    part: &mut BoardRows,
    number: &Device,
    name: &UnitName,
) -> Result<(), StoreFault>
    ensures { Loads T.meaning tables.old tables.new result
        (λ s _. LoadsMore s part.old part.new
        (λ footprint. (footprint.devices number.now ≡ true) × (footprint.units name.now ≡ true))) }
{
    load_device(tables, part, number)?;
    load_unit(tables, part, name)
}

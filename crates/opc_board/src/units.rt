//! Units that come, change and leave.
ghost use Rattle.std.specs.Prelude.{◌≡◌, MatchResult, None, Some};
ghost use Rattle.opc_board.specs.declared.fault.BoardFault.TheVariants.{NoUnit};
ghost use Rattle.opc_board.specs.Invariants.{unit_at};
ghost use Rattle.opc_board.specs.Outcome.{ComesTo, ComesToOrNoMemory};
ghost use Rattle.opc_board.specs.Units.{
  freed,
  is_tsu,
  without_unit,
  cancel as cancel_outcome,
  cancel_user as cancel_user_outcome,
  force as force_outcome,
  job_end as job_end_outcome,
  job_in as job_in_outcome,
  start as start_outcome,
  stop as stop_outcome,
  modify as modify_outcome,
};

use crate::board::Board;
use crate::fault::BoardFault;
use crate::rows::{DeviceRow, UnitKind, UnitRow};
use crate::text::KeptText;
use opc_names::name::UnitName;

impl UnitKind {
    pub(crate) fn is_tsu(&self) -> bool
        ensures { result ≡ is_tsu self.now }
    {
        matches!(self, UnitKind::Tsu)
    }
}

impl DeviceRow {
    // The device, free if the unit had it.
    fn freed(self, name: &UnitName) -> DeviceRow
        ensures { result ≡ freed name.now self }
    {
        match self.unit {
            Some(holder) if holder == *name => DeviceRow { unit: None, ..self },
            // Another unit has the device, or none.
            _ => self,
        }
    }
}

impl Board {
    pub(crate) fn unit(&self, name: &UnitName) -> Result<&UnitRow, BoardFault>
        ensures { MatchResult result
            (λ unit. unit_at self.now name.now ≡ Some unit.now)
            (λ fault. (unit_at self.now name.now ≡ None) × (fault ≡ NoUnit)) }
    {
        match self.rows.units.find(name) {
            Some(unit) => Ok(unit),
            None => Err(BoardFault::NoUnit),
        }
    }

    // The unit leaves the board and frees its devices.
    fn take_out(&mut self, name: &UnitName)
        ensures { self.new ≡ without_unit name.now self.old }
    {
        self.rows.units.remove(name);
        self.rows.devices.change_all(|device| device.freed(name));
    }

    pub(crate) fn cancel(&mut self, name: &UnitName) -> Result<(), BoardFault>
        ensures { ComesTo self.old self.new (cancel_outcome name.now self.old) result }
    {
        let unit = self.unit(name)?;
        if unit.kind.is_tsu() {
            return Err(BoardFault::WrongKind);
        }
        if !unit.cancelable {
            return Err(BoardFault::NonCancelable);
        }
        self.take_out(name);
        Ok(())
    }

    pub(crate) fn cancel_user(&mut self, name: &UnitName) -> Result<(), BoardFault>
        ensures { ComesTo self.old self.new (cancel_user_outcome name.now self.old) result }
    {
        let unit = self.unit(name)?;
        if !unit.kind.is_tsu() {
            return Err(BoardFault::WrongKind);
        }
        if !unit.cancelable {
            return Err(BoardFault::NonCancelable);
        }
        self.take_out(name);
        Ok(())
    }

    pub(crate) fn force(&mut self, name: &UnitName) -> Result<(), BoardFault>
        ensures { ComesTo self.old self.new (force_outcome name.now self.old) result }
    {
        let unit = self.unit(name)?;
        if unit.cancelable {
            return Err(BoardFault::Cancelable);
        }
        self.take_out(name);
        Ok(())
    }

    pub(crate) fn job_end(&mut self, name: &UnitName) -> Result<(), BoardFault>
        ensures { ComesTo self.old self.new (job_end_outcome name.now self.old) result }
    {
        self.unit(name)?;
        self.take_out(name);
        Ok(())
    }

    pub(crate) fn job_in(
        &mut self,
        name: UnitName,
        kind: UnitKind,
        cancelable: bool,
    ) -> Result<(), BoardFault>
        ensures { ComesToOrNoMemory self.old self.new (job_in_outcome name kind cancelable self.old) result }
    {
        if self.rows.halted {
            return Err(BoardFault::Halted);
        }
        if self.rows.units.find(&name).is_some() {
            return Err(BoardFault::UnitExists);
        }
        self.rows.units.insert(UnitRow {
            name,
            kind,
            cancelable,
            stopping: false,
            last_text: None,
        })?;
        Ok(())
    }

    pub(crate) fn start(&mut self, member: UnitName, id: UnitName) -> Result<(), BoardFault>
        ensures { ComesToOrNoMemory self.old self.new (start_outcome member id self.old) result }
    {
        self.job_in(id, UnitKind::Stc { member }, true)
    }

    pub(crate) fn stop(&mut self, name: &UnitName) -> Result<(), BoardFault>
        ensures { ComesTo self.old self.new (stop_outcome name.now self.old) result }
    {
        let unit = self.unit(name)?;
        if unit.kind.is_tsu() {
            return Err(BoardFault::WrongKind);
        }
        self.rows.units.change(
            name,
            |unit| UnitRow {
                stopping: true,
                ..unit
            },
        );
        Ok(())
    }

    pub(crate) fn modify(&mut self, name: &UnitName, text: KeptText) -> Result<(), BoardFault>
        ensures { ComesTo self.old self.new (modify_outcome name.now text self.old) result }
    {
        let unit = self.unit(name)?;
        if unit.kind.is_tsu() {
            return Err(BoardFault::WrongKind);
        }
        self.rows.units.change(
            name,
            |unit| UnitRow {
                last_text: Some(text),
                ..unit
            },
        );
        Ok(())
    }
}

//! Devices that are added and change.
ghost use Rattle.std.specs.Prelude.{◌≡◌, IfOk};
ghost use Rattle.opc_board.specs.declared.fault.BoardFault.TheVariants.{NoDevice};
ghost use Rattle.opc_board.specs.Invariants.{IsHeldRightly, device_at};
ghost use Rattle.opc_board.specs.Outcome.{ComesTo, ComesToOrNoMemory, found};
ghost use Rattle.opc_board.specs.Devices.{
  with_device,
  vary_online as vary_online_outcome,
  vary_offline as vary_offline_outcome,
  mount as mount_outcome,
  unload as unload_outcome,
  swap as swap_outcome,
  attach as attach_outcome,
  allocate as allocate_outcome,
  free as free_outcome,
};

use crate::board::Board;
use crate::fault::BoardFault;
use crate::rows::DeviceRow;
use opc_names::name::{Device, UnitName, Volume};

impl Board {
    fn device(&self, number: &Device) -> Result<DeviceRow, BoardFault>
        ensures row { result ≡ found NoDevice (device_at self.now number.now) }
        ensures held { IfOk result (IsHeldRightly self.now.units) }
    {
        match self.rows.devices.find(number) {
            Some(device) => Ok(*device),
            None => Err(BoardFault::NoDevice),
        }
    }

    // Puts a row in place of the one of its number.
    fn put_device(&mut self, row: DeviceRow)
        requires { IsHeldRightly self.old.units row }
        ensures { self.new ≡ with_device row self.old }
    {
        self.rows.devices.change(&row.number, |_| row);
    }

    pub(crate) fn vary_online(&mut self, number: &Device) -> Result<(), BoardFault>
        ensures { ComesTo self.old self.new (vary_online_outcome number.now self.old) result }
    {
        let device = self.device(number)?;
        if device.online {
            return Err(BoardFault::DeviceState);
        }
        self.put_device(DeviceRow {
            online: true,
            ..device
        });
        Ok(())
    }

    pub(crate) fn vary_offline(&mut self, number: &Device) -> Result<(), BoardFault>
        ensures { ComesTo self.old self.new (vary_offline_outcome number.now self.old) result }
    {
        let device = self.device(number)?;
        if !device.online {
            return Err(BoardFault::DeviceState);
        }
        if device.unit.is_some() {
            return Err(BoardFault::DeviceInUse);
        }
        self.put_device(DeviceRow {
            online: false,
            ..device
        });
        Ok(())
    }

    pub(crate) fn mount(&mut self, number: &Device, volume: Volume) -> Result<(), BoardFault>
        ensures { ComesTo self.old self.new (mount_outcome number.now volume self.old) result }
    {
        let device = self.device(number)?;
        if !device.online {
            return Err(BoardFault::DeviceState);
        }
        if device.volume.is_some() {
            return Err(BoardFault::DeviceState);
        }
        self.put_device(DeviceRow {
            volume: Some(volume),
            ..device
        });
        Ok(())
    }

    pub(crate) fn unload(&mut self, number: &Device) -> Result<(), BoardFault>
        ensures { ComesTo self.old self.new (unload_outcome number.now self.old) result }
    {
        let device = self.device(number)?;
        if device.volume.is_none() {
            return Err(BoardFault::NoVolume);
        }
        if device.unit.is_some() {
            return Err(BoardFault::DeviceInUse);
        }
        self.put_device(DeviceRow {
            volume: None,
            ..device
        });
        Ok(())
    }

    pub(crate) fn swap(&mut self, from: &Device, to: &Device) -> Result<(), BoardFault>
        ensures { ComesTo self.old self.new (swap_outcome from.now to.now self.old) result }
    {
        let source = self.device(from)?;
        let target = self.device(to)?;
        if !source.online {
            return Err(BoardFault::DeviceState);
        }
        if !target.online {
            return Err(BoardFault::DeviceState);
        }
        if source.volume.is_none() {
            return Err(BoardFault::NoVolume);
        }
        if target.volume.is_some() {
            return Err(BoardFault::DeviceState);
        }
        if target.unit.is_some() {
            return Err(BoardFault::DeviceState);
        }
        self.put_device(DeviceRow {
            volume: None,
            unit: None,
            ..source
        });
        self.put_device(DeviceRow {
            volume: source.volume,
            unit: source.unit,
            ..target
        });
        Ok(())
    }

    pub(crate) fn attach(&mut self, number: Device) -> Result<(), BoardFault>
        ensures { ComesToOrNoMemory self.old self.new (attach_outcome number self.old) result }
    {
        if self.rows.devices.find(&number).is_some() {
            return Err(BoardFault::DeviceState);
        }
        self.rows.devices.insert(DeviceRow {
            number,
            online: true,
            volume: None,
            unit: None,
        })?;
        Ok(())
    }

    pub(crate) fn allocate(&mut self, number: &Device, name: UnitName) -> Result<(), BoardFault>
        ensures { ComesTo self.old self.new (allocate_outcome number.now name self.old) result }
    {
        let device = self.device(number)?;
        self.unit(&name)?;
        if !device.online {
            return Err(BoardFault::DeviceState);
        }
        if device.unit.is_some() {
            return Err(BoardFault::DeviceInUse);
        }
        self.put_device(DeviceRow {
            unit: Some(name),
            ..device
        });
        Ok(())
    }

    pub(crate) fn free(&mut self, number: &Device) -> Result<(), BoardFault>
        ensures { ComesTo self.old self.new (free_outcome number.now self.old) result }
    {
        let device = self.device(number)?;
        if device.unit.is_none() {
            return Err(BoardFault::DeviceState);
        }
        self.put_device(DeviceRow {
            unit: None,
            ..device
        });
        Ok(())
    }
}

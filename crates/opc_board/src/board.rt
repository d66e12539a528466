//! The board.
ghost use Rattle.std.specs.Prelude.{◌≡◌, ◌&&◌, MatchResult};
ghost use Rattle.std.specs.List.{list_all};
ghost use Rattle.opc_rows.specs.Ordered.{Ascends};
ghost use Rattle.opc_board.specs.Invariants.{
  IsBoard,
  held_rightly,
  unit_before,
  kind_at,
  kind_found,
  has_master,
  is_master,
};

use crate::rows::{ConsoleRow, DeviceRow, MessageRow, ReplyRow, UnitKind, UnitRow};
use crate::text::KeptText;
use opc_names::auth::Auth;
use opc_names::name::UnitName;
use opc_rows::Rows;
use opc_terms::unit_kind::UnitKindAt;
use std::marker::Model;

/// The parts of a board: units, devices, consoles and open replies in order of name or number, and answered replies,
/// log lines and messages in order of arrival.
pub struct BoardRows {
    pub units: Rows<UnitRow>,
    pub devices: Rows<DeviceRow>,
    pub consoles: Rows<ConsoleRow>,
    pub replies: Rows<ReplyRow>,
    pub answered: Rows<ReplyRow>,
    pub log: Rows<KeptText>,
    pub messages: Rows<MessageRow>,
    /// Whether the day is halted.
    pub halted: bool,
}

// In a function of its own, so that no caller drops one part after another: that keeps its proof short.
impl Drop for BoardRows {
    fn drop(self) {
        let BoardRows {
            units: _,
            devices: _,
            consoles: _,
            replies: _,
            answered: _,
            log: _,
            messages: _,
            halted: _,
        } = self;
    }
}

/// A board: its rows are in order, no name or number comes twice, and a device in use is online with its unit on the
/// board.
#[derive(Drop)]
pub struct Board {
    pub(crate) rows: BoardRows,
}

impl Model for Board {
    ghost use Rattle.opc_board.specs.declared.board.BoardRows.{BoardRows};

    ghost Value = { BoardRows };

    ghost use Rattle.opc_board.specs.Invariants.{IsBoard};

    ghost view = { λ board. board.rows };

    ghost invariant = { λ board. IsBoard board.rows };
}

impl BoardRows {
    // Whether a device in use is online, with its unit on the board.
    fn holds_rightly(&self, device: &DeviceRow) -> bool
        requires { Ascends unit_before self.now.units }
        ensures { result ≡ held_rightly self.now.units device.now }
    {
        match &device.unit {
            Some(name) => device.online && self.units.find(name).is_some(),
            None => true,
        }
    }

    fn all_hold_rightly(&self) -> bool
        requires { Ascends unit_before self.now.units }
        ensures { result ≡ list_all (held_rightly self.now.units) self.now.devices }
    {
        self.devices
            .as_slice()
            .iter()
            .all(|device| self.holds_rightly(device))
    }
}

impl UnitKind {
    /// The kind of the unit that was found, on which needs depend.
    pub fn found(&self) -> UnitKindAt
        ensures { result ≡ kind_found self.now }
    {
        match *self {
            UnitKind::Job => UnitKindAt::Job,
            UnitKind::Stc { member } => UnitKindAt::Stc { member },
            UnitKind::Tsu => UnitKindAt::Tsu,
        }
    }
}

impl ConsoleRow {
    /// Whether it is online with AUTH MASTER.
    pub fn is_master(&self) -> bool
        ensures { result ≡ is_master self.now }
    {
        match self.auth {
            Auth::Master => self.online,
            // Every other authority, ALL included, is not MASTER.
            _ => false,
        }
    }
}

impl Board {
    /// The board of these rows, which are returned if they are out of order or break an invariant.
    pub fn of(rows: BoardRows) -> Result<Self, BoardRows>
        ensures { MatchResult result
            (λ board. (board ≡ rows) × IsBoard rows)
            (λ back. (back ≡ rows) × (IsBoard rows → ⊥)) }
    {
        let units = rows.units.is_ascending();
        if !units {
            return Err(rows);
        }
        let devices = rows.devices.is_ascending();
        if !devices {
            return Err(rows);
        }
        let consoles = rows.consoles.is_ascending();
        if !consoles {
            return Err(rows);
        }
        let replies = rows.replies.is_ascending();
        if !replies {
            return Err(rows);
        }
        let holders = rows.all_hold_rightly();
        if !holders {
            return Err(rows);
        }
        Ok(Board { rows })
    }

    /// The rows of the board.
    pub fn rows(&self) -> &BoardRows
        ensures rows { result.now ≡ self.now }
        ensures invariants { IsBoard self.now }
    {
        &self.rows
    }

    /// What a unit of this name is, or that there is none: what `opc_table::need` depends on, for callers with a whole
    /// board. The gate loads the unit alone.
    pub fn kind_at(&self, name: &UnitName) -> UnitKindAt
        ensures { result ≡ kind_at self.now name.now }
    {
        match self.rows.units.find(name) {
            Some(unit) => unit.kind.found(),
            None => UnitKindAt::Absent,
        }
    }

    /// Whether an online console has AUTH MASTER.
    pub fn has_master(&self) -> bool
        ensures { result ≡ has_master self.now.consoles }
    {
        self.rows
            .consoles
            .as_slice()
            .iter()
            .any(|console| console.is_master())
    }
}

//! Tables of a small room: a user is logged on at each console, and may not cancel the job PAYROLL; there are three
//! profiles to list, and three rows of the account. Or they fail, whatever is called.
ghost use Rattle.opc_state.specs.State.{State};

use opc_board::rows::{ConsoleRow, DeviceRow, ReplyRow, UnitKind, UnitRow};
use opc_board::text::KeptText;
use opc_names::auth::Auth;
use opc_names::class::Class;
use opc_names::level::Level;
use opc_names::name::{ConsoleName, Device, GroupName, Pattern, Resource, UnitName, UserId};
use opc_names::reply_id::ReplyId;
use opc_policy_members::entries::Entries;
use opc_policy_members::entry::Entry;
use opc_policy_members::policy::Policy;
use opc_policy_members::profile::Profile;
use opc_policy_members::row::Row;
use opc_policy_members::user::User;
use opc_rows::Rows;
use opc_state::account::AccountRow;
use opc_state::change::Change;
use opc_state::tables::Tables;
use opc_terms::entry_id::EntryId;
use opc_terms::mode::Mode;
use opc_terms::store_fault::StoreFault;
use std::alloc::Global;
use std::test::Fail;

/// The rule by which the job is denied.
pub(super) const RULE: &str = "PROFILE OPERCMDS MVS.CANCEL.JOB.PAY* HELD NONE NEEDED UPDATE";

/// Nothing is promised of them, since they are never sure. Calls that no request of these tests needs fail.
#[derive(Drop)]
pub(super) struct UserTables {
    /// Who is logged on; without a user everything fails.
    user: Option<User>,
    /// What is written to the account, a line for each row.
    pub(super) account: String,
}

impl UserTables {
    /// A room of a user with these attributes.
    pub(super) fn of(
        alloc: Global,
        id: &str,
        special: bool,
        auditor: bool,
        revoked: bool,
    ) -> Result<Self, Fail> {
        let user = User {
            id: UserId::read(id)?,
            special,
            auditor,
            revoked,
            digest: None,
            restricted: false,
        };
        Ok(UserTables {
            user: Some(user),
            account: String::new(alloc),
        })
    }

    /// A room of ANNA, who has no attribute.
    pub(super) fn of_anna(alloc: Global) -> Result<Self, Fail> {
        Self::of(alloc, "ANNA", false, false, false)
    }

    pub(super) fn failing(alloc: Global) -> Self {
        UserTables {
            user: None,
            account: String::new(alloc),
        }
    }

    fn user_on(&self) -> Result<User, StoreFault> {
        self.user.ok_or(StoreFault::Store)
    }
}

fn stored<T, E: Drop>(read: Result<T, E>) -> Result<T, StoreFault> {
    read.map_err(|_| StoreFault::Store)
}

fn line_of(alloc: Global, row: &AccountRow) -> Result<String, StoreFault> {
    let (console, user) = (row.console.as_str(), row.user.as_str());
    let (code, rule) = (row.code.as_str(), row.rule.as_str());
    Ok(format!(in alloc; "{} {console} {user} {code} {rule}\n", row.moment)?)
}

/// A profile that gives nobody anything, except for the entry of a group at the console C1.
fn profile(
    alloc: Global,
    pattern: &str,
    owner: &str,
    warning: bool,
    group: Option<&str>,
) -> Result<Profile, StoreFault> {
    let mut entries = Entries::new(alloc);
    if let Some(group) = group {
        entries.set(Entry {
            id: stored(EntryId::read(group))?,
            when: Some(stored(ConsoleName::read("C1"))?),
            level: Level::Read,
        })?;
    }
    Ok(Profile {
        class: Class::Opercmds,
        pattern: stored(Pattern::read(pattern))?,
        owner: stored(UserId::read(owner))?,
        uacc: Level::None,
        warning,
        entries,
    })
}

fn profiles(alloc: Global) -> Result<Vec<Profile>, StoreFault> {
    let mut all = Vec::new(alloc);
    all.push(profile(alloc, "A.B", "CARL", false, None)?)?;
    all.push(profile(alloc, "A.*", "FRED", true, None)?)?;
    all.push(profile(alloc, "**", "FRED", false, Some("OPS"))?)?;
    Ok(all)
}

impl Tables for UserTables {
    ghost meaning = { record { represents = λ _ _. Unit {0}; is_sure = λ _. ⊥; may_leave = λ _ _. Unit {0} } };

    fn console(&mut self, name: &ConsoleName) -> Result<Option<ConsoleRow>, StoreFault> {
        Ok(Some(ConsoleRow {
            name: *name,
            auth: Auth::Info,
            mode: Mode::Required,
            online: true,
            user: Some(self.user_on()?.id),
            monitor: false,
        }))
    }

    fn unit(&mut self, name: &UnitName) -> Result<Option<UnitRow>, StoreFault> {
        self.user_on()?;
        if name.text() != "PAYROLL" {
            return Ok(None);
        }
        Ok(Some(UnitRow {
            name: *name,
            kind: UnitKind::Job,
            cancelable: true,
            stopping: false,
            last_text: None,
        }))
    }

    fn device(&mut self, _number: &Device) -> Result<Option<DeviceRow>, StoreFault> {
        Err(StoreFault::Store)
    }

    fn reply(&mut self, _id: ReplyId) -> Result<Option<ReplyRow>, StoreFault> {
        Err(StoreFault::Store)
    }

    fn is_halted(&mut self) -> Result<bool, StoreFault> {
        self.user_on()?;
        Ok(false)
    }

    fn devices_of(
        &mut self,
        _alloc: Global,
        _unit: &UnitName,
    ) -> Result<Rows<DeviceRow>, StoreFault> {
        Err(StoreFault::Store)
    }

    fn consoles_of(
        &mut self,
        _alloc: Global,
        _user: &UserId,
    ) -> Result<Rows<ConsoleRow>, StoreFault> {
        Err(StoreFault::Store)
    }

    fn masters(&mut self, _alloc: Global) -> Result<Rows<ConsoleRow>, StoreFault> {
        Err(StoreFault::Store)
    }

    fn units(&mut self, _alloc: Global) -> Result<Rows<UnitRow>, StoreFault> {
        Err(StoreFault::Store)
    }

    fn devices(&mut self, _alloc: Global) -> Result<Rows<DeviceRow>, StoreFault> {
        Err(StoreFault::Store)
    }

    fn consoles(&mut self, _alloc: Global) -> Result<Rows<ConsoleRow>, StoreFault> {
        Err(StoreFault::Store)
    }

    fn replies(&mut self, _alloc: Global) -> Result<Rows<ReplyRow>, StoreFault> {
        Err(StoreFault::Store)
    }

    fn user(&mut self, _alloc: Global, _id: &UserId) -> Result<Option<User>, StoreFault> {
        Ok(Some(self.user_on()?))
    }

    fn groups_of(
        &mut self,
        alloc: Global,
        _user: &UserId,
        _most: u32,
    ) -> Result<Vec<GroupName>, StoreFault> {
        self.user_on()?;
        let mut groups = Vec::new(alloc);
        groups.push(stored(GroupName::read("OPS"))?)?;
        Ok(groups)
    }

    fn is_active(&mut self, class: Class) -> Result<bool, StoreFault> {
        self.user_on()?;
        Ok(class == Class::Opercmds)
    }

    fn deciding(
        &mut self,
        alloc: Global,
        _class: Class,
        _resource: &Resource,
    ) -> Result<Option<Profile>, StoreFault> {
        self.user_on()?;
        Ok(Some(profile(alloc, "MVS.CANCEL.JOB.PAY*", "SECADM", false, None)?))
    }

    fn entries(
        &mut self,
        alloc: Global,
        _class: Class,
        _pattern: &Pattern,
        _most: u32,
    ) -> Result<Entries, StoreFault> {
        self.user_on()?;
        let (user, group) = (
            stored(EntryId::read("BERT"))?,
            stored(EntryId::read("NIGHT"))?,
        );
        let mut entries = Entries::new(alloc);
        entries.set(Entry {
            id: user,
            when: None,
            level: Level::Read,
        })?;
        entries.set(Entry {
            id: group,
            when: None,
            level: Level::Update,
        })?;
        Ok(entries)
    }

    fn level_for(
        &mut self,
        _class: Class,
        _pattern: &Pattern,
        _id: &EntryId,
        _when: Option<&ConsoleName>,
    ) -> Result<Option<Level>, StoreFault> {
        Err(StoreFault::Store)
    }

    fn is_connected(&mut self, _user: &UserId, _group: &str) -> Result<bool, StoreFault> {
        Err(StoreFault::Store)
    }

    fn has_user(&mut self, _name: &str) -> Result<bool, StoreFault> {
        Err(StoreFault::Store)
    }

    fn has_group(&mut self, _name: &str) -> Result<bool, StoreFault> {
        Err(StoreFault::Store)
    }

    fn is_named(&mut self, _user: &UserId) -> Result<bool, StoreFault> {
        Err(StoreFault::Store)
    }

    fn definition(
        &mut self,
        _alloc: Global,
        _class: Class,
        _pattern: &Pattern,
    ) -> Result<Option<Profile>, StoreFault> {
        Err(StoreFault::Store)
    }

    fn definitions(&mut self, alloc: Global, _class: Class) -> Result<Vec<Profile>, StoreFault> {
        self.user_on()?;
        profiles(alloc)
    }

    fn definitions_between(
        &mut self,
        _alloc: Global,
        _class: Class,
        _first: &str,
        _last: &str,
    ) -> Result<Vec<Profile>, StoreFault> {
        Err(StoreFault::Store)
    }

    fn profiles(&mut self, alloc: Global, _class: Class) -> Result<Vec<Profile>, StoreFault> {
        self.user_on()?;
        profiles(alloc)
    }

    fn account(
        &mut self,
        alloc: Global,
        from: u64,
        count: u32,
    ) -> Result<Vec<(u64, AccountRow)>, StoreFault> {
        self.user_on()?;
        let mut rows = Vec::new(alloc);
        for number in 1..4u64 {
            if from <= number && number - from < u64::from(count) {
                let row = AccountRow {
                    moment: 100 + number,
                    console: KeptText::new(alloc, "C3")?,
                    user: KeptText::new(alloc, "-")?,
                    code: KeptText::new(alloc, "E12")?,
                    rule: KeptText::new(alloc, "LOGONREQUIRED")?,
                };
                rows.push((number, row))?;
            }
        }
        Ok(rows)
    }

    fn batch(&mut self, _alloc: Global, _number: u32) -> Result<Option<Rows<Row>>, StoreFault> {
        Err(StoreFault::Store)
    }

    fn has_users(&mut self) -> Result<bool, StoreFault> {
        Err(StoreFault::Store)
    }

    fn policy(&mut self, _alloc: Global) -> Result<Policy, StoreFault> {
        Err(StoreFault::Store)
    }

    fn written(&mut self, _alloc: Global) -> Result<Vec<Row>, StoreFault> {
        Err(StoreFault::Store)
    }

    /// Keeps the row of the account. Nothing else is changed by these requests.
    fn commit(&mut self, alloc: Global, change: &Change) -> Result<(), StoreFault> {
        self.user_on()?;
        match &change.account {
            Some(row) if change.edits.is_empty() => {
                let line = line_of(alloc, row)?;
                self.account.push_str(line.as_str())?;
                Ok(())
            }
            _ => Err(StoreFault::Store),
        }
    }
}

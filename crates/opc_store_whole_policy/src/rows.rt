//! The policy and the consoles, as rows of a policy file.
ghost use Rattle.std.specs.Prelude.{◌≡◌, ◌++◌, false, IfOk, OnOk, map};
ghost use Rattle.std.specs.List.{flat_map};
ghost use Rattle.opc_store_sql.specs.Steps.{Looks};
ghost use Rattle.opc_policy_members.specs.declared.policy.Policy.{Policy as ThePolicy};
ghost use Rattle.opc_policy_members.specs.declared.row.Row.{Row as TheRow};
ghost use Rattle.opc_state.specs.PolicyFile.{
  rows_of,
  row_of_group,
  row_of_user,
  row_of_connect,
  row_of_console,
  row_of_profile,
  row_of_entry,
  permits_of,
};
ghost use Rattle.opc_store_schema.specs.Asked.{Finds};

use crate::lists::{Lists, lists_on};
use opc_board::rows::ConsoleRow;
use opc_names::class::Class;
use opc_names::name::{GroupName, Pattern};
use opc_policy_members::connect::Connect;
use opc_policy_members::entry::Entry;
use opc_policy_members::profile::Profile;
use opc_policy_members::row::Row;
use opc_policy_members::user::User;
use opc_terms::store_fault::StoreFault;
use sqlite::{Alter, Connection};
use std::alloc::{AllocError, Global};

/// What is written as one row of a policy file.
trait Written {
    ghost row_of: { Self → TheRow };

    fn to_row(&self) -> Row
        ensures { result ≡ row_of self.now };
}

impl Written for GroupName {
    ghost row_of = { row_of_group };

    fn to_row(&self) -> Row {
        Row::Group { name: *self }
    }
}

impl Written for User {
    ghost row_of = { row_of_user };

    fn to_row(&self) -> Row {
        Row::User(*self)
    }
}

impl Written for Connect {
    ghost row_of = { row_of_connect };

    fn to_row(&self) -> Row {
        Row::Connect {
            user: self.user,
            group: self.group,
        }
    }
}

impl Written for ConsoleRow {
    ghost row_of = { row_of_console };

    fn to_row(&self) -> Row {
        Row::Console {
            name: self.name,
            auth: self.auth,
            mode: self.mode,
        }
    }
}

impl Written for Profile {
    ghost row_of = { row_of_profile };

    fn to_row(&self) -> Row {
        Row::Profile {
            class: self.class,
            pattern: self.pattern,
            uacc: self.uacc,
            owner: self.owner,
            warning: self.warning,
        }
    }
}

fn add_all<X: Written>(rows: &mut Vec<Row>, members: &[X]) -> Result<(), AllocError>
    ensures { OnOk result (rows.new.items ≡ rows.old.items ++ map X.row_of members.now) }
{
    for member in members {
        rows.push(member.to_row())?;
    }
    Ok(())
}

fn add_entries(
    rows: &mut Vec<Row>,
    class: Class,
    pattern: Pattern,
    entries: &[Entry],
) -> Result<(), AllocError>
    ensures { OnOk result (rows.new.items ≡ rows.old.items ++ map (row_of_entry class pattern) entries.now) }
{
    for entry in entries {
        rows.push(Row::Permit {
            class,
            pattern,
            id: entry.id,
            level: entry.level,
            when: entry.when,
        })?;
    }
    Ok(())
}

fn add_permits(rows: &mut Vec<Row>, profiles: &[Profile]) -> Result<(), AllocError>
    ensures { OnOk result (rows.new.items ≡ rows.old.items ++ flat_map permits_of profiles.now) }
{
    for profile in profiles {
        add_entries(
            rows,
            profile.class,
            profile.pattern,
            profile.entries.as_slice(),
        )?;
    }
    Ok(())
}

/// The rows of a policy file, of lists of its members.
fn rows_of(alloc: Global, lists: &Lists, consoles: &[ConsoleRow]) -> Result<Vec<Row>, AllocError>
    ensures { let policy : ThePolicy = record {
      users = lists.now.members.users;
      groups = lists.now.members.groups;
      connects = lists.now.members.connects;
      profiles = lists.now.profiles.items;
      active = lists.now.active;
    } in
        IfOk result (λ v. v.items ≡ rows_of policy consoles.now) }
{
    let mut rows = Vec::new(alloc);
    rows.push(Row::Class {
        class: Class::Console,
        active: lists.active.console,
    })?;
    rows.push(Row::Class {
        class: Class::Opercmds,
        active: lists.active.opercmds,
    })?;
    add_all(&mut rows, lists.members.groups.as_slice())?;
    add_all(&mut rows, lists.members.users.as_slice())?;
    add_all(&mut rows, lists.members.connects.as_slice())?;
    add_all(&mut rows, consoles)?;
    add_all(&mut rows, lists.profiles.as_slice())?;
    add_permits(&mut rows, lists.profiles.as_slice())?;
    Ok(rows)
}

/// The policy and these consoles, as rows of a policy file.
pub fn policy_rows_on<S: Alter>(
    alloc: Global,
    conn: &mut Connection<S>,
    consoles: &[ConsoleRow],
) -> Result<Vec<Row>, StoreFault>
    requires { conn.old.in_transaction ≡ false }
    ensures mode { conn.new.in_transaction ≡ false }
    ensures looks { Looks S.Store conn.old conn.new result }
    ensures found { Finds S.Store conn.old conn.new result (λ s v. v.items ≡ rows_of s.policy consoles.now) }
{
    let lists = lists_on(alloc, conn)?;
    let rows = rows_of(alloc, &lists, consoles)?;
    Ok(rows)
}

//! Worked cases over the base policy, as theorems that compute.
ghost use Rattle.std.specs.Prelude.{◌≡◌, ◌+◌, ◌-◌, [], ◌∷◌, true, false, Some, None, length, codes};
ghost use Rattle.opc_names.specs.declared.auth.Auth.TheVariants as auth;
ghost use Rattle.opc_names.specs.declared.class.Class.TheVariants.{Opercmds};
ghost use Rattle.opc_names.specs.declared.group.Group.TheVariants as group;
ghost use Rattle.opc_names.specs.declared.level.Level.TheVariants as level;
ghost use Rattle.opc_policy.specs.BasePolicy.{
  base_profiles,
  short_profiles,
  anna,
  bert,
  carl,
  secadm,
  ops,
  night_and_ops,
  cancel_pay,
  cancel_jobs,
  display,
  display_not_for_anna,
  cancel_pay_at_c1,
  cancel_pay_at_c2,
  restricted_carl,
  all_commands,
  profile,
  need,
  ruled_by,
};
ghost use Rattle.opc_policy.specs.Deciding.{covering, deciding};
ghost use Rattle.opc_policy.specs.Examined.{examined, head_length};
ghost use Rattle.opc_policy_members.specs.Held.{held};
ghost use Rattle.opc_policy.specs.Rulings.{ruling};
ghost use Rattle.opc_policy_members.specs.declared.profile.Profile.{Profile};
ghost use Rattle.opc_terms.specs.declared.rule.Rule.TheVariants as rule;
ghost use Rattle.opc_policy.specs.declared.ruling.Ruling.TheVariants.{Allowed, Denied};

/// The most specific of the profiles that cover a resource decides.
pub fn most_specific_profiles()
    ensures covering { covering (codes "MVS.CANCEL.JOB.PAYROLL") base_profiles ≡ cancel_pay ∷ cancel_jobs ∷ all_commands
        ∷ [] }
    ensures payroll { deciding base_profiles (codes "MVS.CANCEL.JOB.PAYROLL") ≡ Some cancel_pay }
    ensures backup { deciding base_profiles (codes "MVS.CANCEL.JOB.BACKUP") ≡ Some cancel_jobs }
    ensures units { deciding base_profiles (codes "MVS.DISPLAY.U") ≡ Some display }
    ensures none { deciding base_profiles (codes "Q") ≡ None }
    ensures same_head { deciding short_profiles (codes "A.XY") ≡ Some (profile (codes "A.*") level.None false []) }
{}

/// How many profiles a search by heads reads, and how many heads it looks up.
pub fn profiles_that_are_read()
    ensures payroll { length (examined (Some cancel_pay) (codes "MVS.CANCEL.JOB.PAYROLL") base_profiles) ≡ 1 }
    ensures payroll_heads { length (codes "MVS.CANCEL.JOB.PAYROLL") + 1 - head_length (Some cancel_pay) ≡ 5 }
    ensures backup { length (examined (Some cancel_jobs) (codes "MVS.CANCEL.JOB.BACKUP") base_profiles) ≡ 1 }
    ensures backup_heads { length (codes "MVS.CANCEL.JOB.BACKUP") + 1 - head_length (Some cancel_jobs) ≡ 7 }
    ensures none { length (examined None (codes "Q") base_profiles) ≡ 0 }
    ensures same_head { length (examined (deciding short_profiles (codes "A.XY")) (codes "A.XY") short_profiles) ≡ 3 }
{}

/// The first source of access decides, and SPECIAL is none.
#[tactic(auto, unfolding(opc_policy_members::specs::Held::held))]
pub fn levels_that_are_held()
    ensures group_entry { held cancel_jobs anna None ops ≡ level.Update }
    ensures no_entry { held cancel_pay anna None ops ≡ level.None }
    ensures own_entry_before_groups { held cancel_pay bert None night_and_ops ≡ level.Read }
    ensures own_entry_before_universal_access { held display_not_for_anna anna None ops ≡ level.None }
    ensures universal_access { held display carl None [] ≡ level.Read }
    ensures special { held cancel_jobs secadm None [] ≡ level.None }
{}

/// An entry for a console raises a level there and nowhere else, and lowers none; a RESTRICTED user has nothing of what
/// is given to everyone.
#[tactic(auto, unfolding(opc_policy_members::specs::Held::held))]
pub fn levels_at_consoles()
    ensures there { held cancel_pay_at_c1 anna (Some (codes "C1")) ops ≡ level.Update }
    ensures elsewhere { held cancel_pay_at_c1 anna (Some (codes "C2")) ops ≡ level.None }
    ensures nowhere { held cancel_pay_at_c1 anna None ops ≡ level.None }
    ensures never_lower { held cancel_pay_at_c1 bert (Some (codes "C1")) night_and_ops ≡ level.Read }
    ensures group_is_higher { held cancel_pay_at_c2 bert (Some (codes "C2")) night_and_ops ≡ level.Control }
    ensures restricted { held display restricted_carl (Some (codes "C1")) [] ≡ level.None }
{}

/// A user who is logged on is ruled by the profiles, and a denial by one of them is final.
#[tactic(auto, unfolding(opc_policy_members::specs::Held::held))]
pub fn rulings_by_profiles()
    ensures backup { ruled_by base_profiles (Some anna) None ops auth.Sys
        (need (codes "MVS.CANCEL.JOB.BACKUP") level.Update group.Sys)
        ≡ Allowed (rule.Profile Opercmds (codes "MVS.CANCEL.JOB.*") level.Update level.Update false) }
    ensures payroll { ruled_by base_profiles (Some anna) None ops auth.Sys
        (need (codes "MVS.CANCEL.JOB.PAYROLL") level.Update group.Sys)
        ≡ Denied (rule.Profile Opercmds (codes "MVS.CANCEL.JOB.PAY*") level.None level.Update false) }
    ensures own_entry { ruled_by base_profiles (Some bert) None night_and_ops auth.Sys
        (need (codes "MVS.CANCEL.JOB.PAYROLL") level.Update group.Sys)
        ≡ Denied (rule.Profile Opercmds (codes "MVS.CANCEL.JOB.PAY*") level.Read level.Update false) }
    ensures special { ruled_by base_profiles (Some secadm) None [] auth.Master
        (need (codes "MVS.CANCEL.JOB.BACKUP") level.Update group.Sys)
        ≡ Denied (rule.Profile Opercmds (codes "MVS.CANCEL.JOB.*") level.None level.Update false) }
    ensures warned { ruled_by base_profiles (Some carl) None [] auth.Sys
        (need (codes "MVS.VARY.DEV") level.Update group.Io)
        ≡ Allowed (rule.Profile Opercmds (codes "MVS.VARY.DEV") level.None level.Update true) }
{}

/// If nobody is logged on, or no profile decides, the authority of the console decides.
pub fn rulings_by_consoles()
    ensures start { ruled_by base_profiles None None [] auth.Sys
        (need (codes "MVS.START.STC.MONPL.MONPL") level.Update group.Sys) ≡ Allowed
        (rule.ConsoleGroup group.Sys auth.Sys) }
    ensures force { ruled_by base_profiles None None [] auth.Sys
        (need (codes "MVS.FORCE.JOB.X") level.Control group.Master) ≡ Denied (rule.ConsoleGroup group.Master auth.Sys) }
    ensures inactive { ruling false (Some all_commands) (Some anna) None ops auth.Master
        (need (codes "MVS.FORCE.JOB.X") level.Control group.Master)
        ≡ Allowed (rule.ConsoleGroup group.Master auth.Master) }
{}

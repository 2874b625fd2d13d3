//! What a file gives is settled by its lines.
ghost use Rattle.std.specs.Prelude.{◌≡◌, ◌++◌, ℕ, List, [], ◌∷◌, Some, None};
ghost use Rattle.apd_base.specs.declared.address.Addr.{Addr as Address};
ghost use Rattle.apd_conf.specs.declared.conf.Conf.{Conf as Configuration};
ghost use Rattle.apd_conf.specs.declared.conf_fault.ConfFault.{ConfFault as Fault};
ghost use Rattle.apd_conf.specs.declared.list_fault.ListFault.{ListFault as FaultOfList};
ghost use Rattle.apd_conf.specs.ConfFile as confs;
ghost use Rattle.apd_conf.specs.Files as files;
ghost use Rattle.apd_conf.specs.ListFile as lists;
ghost use Rattle.apd_conf.specs.declared.configuration.ConfigurationFault.{ConfigurationFault as FaultOfFiles};
ghost use Rattle.apd_conf.specs.declared.configuration.FilesRead.{FilesRead as Files};

/// The lines of a configuration file give one configuration or one fault, and never both. The last line that gives a name a value counts, and a line that gives it none leaves it.
pub fn conf_file_laws()
    ensures one_conf { (lines : List (List ℕ)) (a b : Configuration) → confs.IsConfOf lines a → confs.IsConfOf lines b
        → a ≡ b }
    ensures one_fault { (lines : List (List ℕ)) (a b : Fault) → confs.IsFaultOf lines a → confs.IsFaultOf lines b
        → a ≡ b }
    ensures not_both { (lines : List (List ℕ)) (conf : Configuration) (fault : Fault) → confs.IsConfOf lines conf
        → ¬ (confs.IsFaultOf lines fault) }
    ensures last_line { (name value line : List ℕ) (lines : List (List ℕ)) → confs.value_in name line ≡ Some value
        → confs.value_of name (lines ++ line ∷ []) ≡ Some value }
    ensures other_line { (name line : List ℕ) (lines : List (List ℕ)) → confs.value_in name line ≡ None
        → confs.value_of name (lines ++ line ∷ []) ≡ confs.value_of name lines }
{}

/// The same of a list file.
pub fn list_file_laws()
    ensures one_list { (lines : List (List ℕ)) (a b : List Address) → lists.IsListOf lines a → lists.IsListOf lines b
        → a ≡ b }
    ensures one_fault { (lines : List (List ℕ)) (a b : FaultOfList) → lists.IsFaultOf lines a → lists.IsFaultOf lines b
        → a ≡ b }
    ensures not_both { (lines : List (List ℕ)) (list : List Address) (fault : FaultOfList) → lists.IsListOf lines list
        → ¬ (lists.IsFaultOf lines fault) }
{}

/// The files of a daemon's radios give one list of configurations or one fault, and never both.
pub fn files_laws()
    ensures one_list { (read : List Files) (a b : List Configuration) → files.AreConfigured read a
        → files.AreConfigured read b → a ≡ b }
    ensures one_fault { (read : List Files) (a b : FaultOfFiles) → files.IsFault read a → files.IsFault read b
        → files.IsSame a b }
    ensures not_both { (read : List Files) (confs : List Configuration) (fault : FaultOfFiles)
        → files.AreConfigured read confs → ¬ (files.IsFault read fault) }
{}

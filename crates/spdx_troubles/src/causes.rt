// The trouble that a cause is.

use crate::trouble::Trouble;
use check_files::CheckTrouble;
use check_program::CheckEnd;
use check_sources::reason_text;
use fix_program::{FixFault, FixTrouble};
use gate_program::{GateTrouble, PolicyTrouble};
use line_engine::device::Failed;
use list_program::ListTrouble;
use meaning_program::{MeaningTrouble, Unsaid};
use notice_program::NoticeTrouble;
use package_files::FileFault;
use std::alloc::{AllocError, AllocFailed};

impl From<AllocError> for Trouble {
    ghost use Rattle.std.specs.Prelude.{◌≡◌};
    ghost use Rattle.spdx_troubles.specs.declared.trouble.Trouble.TheVariants.{Memory};

    ghost from_gives = { λ _ t. t ≡ Memory };

    fn from(_error: AllocError) -> Trouble {
        Trouble::Memory
    }
}

impl<T: Drop> From<AllocFailed<T>> for Trouble {
    ghost use Rattle.std.specs.Prelude.{◌≡◌};
    ghost use Rattle.spdx_troubles.specs.declared.trouble.Trouble.TheVariants.{Memory};

    ghost from_gives = { λ _ t. t ≡ Memory };

    fn from(_error: AllocFailed<T>) -> Trouble {
        Trouble::Memory
    }
}

impl From<Failed> for Trouble {
    ghost use Rattle.std.specs.Prelude.{◌≡◌};
    ghost use Rattle.spdx_troubles.specs.declared.trouble.Trouble.TheVariants.{Output};

    ghost from_gives = { λ _ t. t ≡ Output };

    fn from(_error: Failed) -> Trouble {
        Trouble::Output
    }
}

impl From<ListTrouble> for Trouble {
    ghost use Rattle.std.specs.Prelude.{◌≡◌};
    ghost use Rattle.spdx_troubles.specs.Causes.{list_trouble};

    ghost from_gives = { λ trouble t. t ≡ list_trouble trouble };

    fn from(trouble: ListTrouble) -> Trouble {
        match trouble {
            ListTrouble::Unreadable(path, error) => Trouble::of_path(path, error),
            ListTrouble::Nameless => Trouble::Nameless,
            ListTrouble::NoList(name, fault) => Trouble::List(name, fault),
            ListTrouble::NotMade(name, fault) => Trouble::Made(name, fault),
            ListTrouble::NoExtras(fault) => Trouble::NoExtras(fault),
            ListTrouble::Output => Trouble::Output,
            ListTrouble::Memory => Trouble::Memory,
        }
    }
}

impl From<FileFault> for Trouble {
    ghost use Rattle.std.specs.Prelude.{◌≡◌};
    ghost use Rattle.spdx_troubles.specs.Causes.{file_trouble};

    ghost from_gives = { λ fault t. t ≡ file_trouble fault };

    fn from(fault: FileFault) -> Trouble {
        match fault {
            FileFault::Unreadable(path, error) => Trouble::of_path(path, error),
            FileFault::Source(path, fault) => Trouble::Source(path, fault),
            FileFault::Empty(path) => Trouble::Empty(path),
            FileFault::Memory => Trouble::Memory,
        }
    }
}

impl From<PolicyTrouble> for Trouble {
    ghost use Rattle.std.specs.Prelude.{◌≡◌};
    ghost use Rattle.spdx_troubles.specs.Causes.{policy_trouble};

    ghost from_gives = { λ trouble t. t ≡ policy_trouble trouble };

    fn from(trouble: PolicyTrouble) -> Trouble {
        match trouble {
            PolicyTrouble::Unreadable(path, error) => Trouble::of_path(path, error),
            PolicyTrouble::NoPolicy(path, fault) => Trouble::Policy(path, fault),
            PolicyTrouble::NoReplacements(fault) => Trouble::NoExtras(fault),
            PolicyTrouble::Memory => Trouble::Memory,
        }
    }
}

impl From<GateTrouble> for Trouble {
    ghost use Rattle.std.specs.Prelude.{◌≡◌};
    ghost use Rattle.spdx_troubles.specs.Causes.{gate_trouble};

    ghost from_gives = { λ trouble t. t ≡ gate_trouble trouble };

    fn from(trouble: GateTrouble) -> Trouble {
        match trouble {
            GateTrouble::List(trouble) => Trouble::from(trouble),
            GateTrouble::Policy(trouble) => Trouble::from(trouble),
            GateTrouble::Memory => Trouble::Memory,
        }
    }
}

impl From<NoticeTrouble> for Trouble {
    ghost use Rattle.std.specs.Prelude.{◌≡◌};
    ghost use Rattle.spdx_troubles.specs.Causes.{notice_trouble};

    ghost from_gives = { λ trouble t. t ≡ notice_trouble trouble };

    fn from(trouble: NoticeTrouble) -> Trouble {
        match trouble {
            NoticeTrouble::List(trouble) => Trouble::from(trouble),
            NoticeTrouble::Memory => Trouble::Memory,
        }
    }
}

impl From<MeaningTrouble> for Trouble {
    ghost use Rattle.std.specs.Prelude.{◌≡◌};
    ghost use Rattle.spdx_troubles.specs.Causes.{meaning_trouble};

    ghost from_gives = { λ trouble t. t ≡ meaning_trouble trouble };

    fn from(trouble: MeaningTrouble) -> Trouble {
        match trouble {
            MeaningTrouble::List(trouble) => Trouble::from(trouble),
            MeaningTrouble::Unsaid(Unsaid { text, why }) => Trouble::Unmeant(text, why),
            MeaningTrouble::Memory => Trouble::Memory,
        }
    }
}

impl From<CheckEnd> for Trouble {
    ghost use Rattle.std.specs.Prelude.{◌≡◌};
    ghost use Rattle.spdx_troubles.specs.Causes.{check_end_trouble};

    ghost from_gives = { λ end t. t ≡ check_end_trouble end };

    fn from(end: CheckEnd) -> Trouble {
        match end {
            CheckEnd::List(trouble) => Trouble::from(trouble),
            CheckEnd::Output => Trouble::Output,
            CheckEnd::Memory => Trouble::Memory,
        }
    }
}

impl From<CheckTrouble> for Trouble {
    ghost use Rattle.std.specs.Prelude.{◌≡◌};
    ghost use Rattle.spdx_troubles.specs.Causes.{check_trouble};

    ghost from_gives = { λ trouble t. t ≡ check_trouble trouble };

    fn from(trouble: CheckTrouble) -> Trouble {
        match trouble {
            CheckTrouble::Unreadable(path, error) => Trouble::of_path(path, error),
            CheckTrouble::Broken(path) => Trouble::Broken(path),
            CheckTrouble::NoManifest(path) => Trouble::NoManifest(path),
            CheckTrouble::Folder(path) => Trouble::Folder(path),
            CheckTrouble::Unnamed(path, count) => Trouble::Unnamed(path, count),
            CheckTrouble::LeftBehind(path) => Trouble::LeftBehind(path),
        }
    }
}

impl From<FixFault> for Trouble {
    ghost use Rattle.std.specs.Prelude.{◌≡◌};
    ghost use Rattle.spdx_troubles.specs.Causes.{fix_fault_trouble};

    ghost from_gives = { λ fault t. t ≡ fix_fault_trouble fault };

    fn from(fault: FixFault) -> Trouble {
        match fault {
            FixFault::List(trouble) => Trouble::from(trouble),
            FixFault::Memory => Trouble::Memory,
        }
    }
}

impl From<FixTrouble> for Trouble {
    ghost use Rattle.spdx_troubles.specs.Causes.{IsFixTrouble};

    ghost from_gives = { IsFixTrouble };

    fn from(trouble: FixTrouble) -> Trouble {
        match trouble {
            FixTrouble::Unreadable(path, error) => Trouble::of_path(path, error),
            FixTrouble::Special(path) => Trouble::Special(path),
            FixTrouble::Above(path) => Trouble::Above(path),
            FixTrouble::Manifest(path, fault) => {
                Trouble::Manifest(path, reason_text(fault.reason), fault.line)
            }
            FixTrouble::NoManifest(path) => Trouble::NoManifest(path),
            FixTrouble::Folder(path) => Trouble::Folder(path),
            FixTrouble::Unnamed(path, count) => Trouble::Unnamed(path, count),
            FixTrouble::Memory => Trouble::Memory,
        }
    }
}

// Why a layer's settings are not changed.
ghost use Rattle.std.specs.Prelude.{◌≡◌, Some};
ghost use Rattle.layer.specs.Settings.{setting_text};
ghost use Rattle.layer.specs.declared.settings.SettingFault.{SettingFault as Fault};

use interval::Refusal;
use std::error::Error;
use std::fmt;

// The layer refuses by a number, or the topmost layer has no such setting.
#[derive(Clone, Copy, PartialEq, Eq, Debug)]
pub enum SettingFault {
    Refused(Refusal),
    NoSuchSetting,
}

// This and what is printed are written by hand and not derived, since clauses name what they give.
impl From<Refusal> for SettingFault {
    ghost from_gives = { λ e r. r ≡ Fault.Refused e };

    fn from(refusal: Refusal) -> SettingFault {
        SettingFault::Refused(refusal)
    }
}

impl Error for SettingFault {}

impl fmt::Display for SettingFault {
    ghost output = { λ f. Some (setting_text f) };

    fn fmt<W: fmt::Write>(&self, f: &mut fmt::Formatter<W>) -> fmt::Result {
        match self {
            SettingFault::Refused(reason) => write!(f, "{reason}"),
            SettingFault::NoSuchSetting => write!(f, "the topmost layer has no such setting"),
        }
    }
}
